//! Lists of feedback.
ghost use Rattle.std.specs.Prelude.{◌≡◌, ◌==◌, ◌&&◌, pos, [], ◌∷◌, filter, nat_le, take, IfOk, IsErrOf};
ghost use Rattle.std.specs.List.{AllByRecursion};
ghost use Rattle.house_rows.specs.Fits.{FeedbackFits};
ghost use Rattle.house_rows.specs.Found.{feedback_to};
ghost use Rattle.house_rows.specs.Taken.{start_of};
ghost use Rattle.house_rows.specs.Limits.{most_shown};
ghost use Rattle.house_rows.specs.declared.fault.KeepFault.TheVariants.{Damaged};
ghost use Rattle.sqlite_value.specs.declared.value.Value.TheVariants.{Int};
ghost use Rattle.sqlite.specs.State.{HasCleanDisk};
ghost use Rattle.sqlite.specs.Held.{state};
ghost use Rattle.store_rows.specs.House.{Serves};
ghost use Rattle.store_rows.specs.Rows.{feedback_in, feedback_of};
ghost use Rattle.store_rows.specs.Sorted.{sorted_feedback};
ghost use Rattle.store_rows.specs.Tables.{tables_in};
ghost use Rattle.store_rows.specs.Frames.{Finds};
ghost use Rattle.house_rows.specs.Taken.{GivenFit};
ghost use Rattle.store_talk.specs.Spoiled.{IsSpoiled};
ghost use Rattle.store_talk.specs.Texts.{given_text, stray_feedback_text};

use crate::listed::listed_rows;
use house_rows::{Feedback, KeepFault};
use sqlite::{Alter, Connection, params};
use std::alloc::Global;
use store_rows::{all_of, bound_of};

// The feedback to a member, from an item on; at most fifty. A row whose rating is none belongs to no
// item, and so comes after all others: for it the rows of the items before are looked through, where
// the list isn't full.
fn given_from<S: Alter>(
    alloc: Global,
    conn: &mut Connection<S>,
    member: u32,
    from: u32,
) -> Result<Vec<Feedback>, KeepFault>
    requires { Serves (state S.Store conn.old) }
    ensures finds { Finds S.Store conn.old conn.new result
        (λ db given. given.items ≡ take most_shown
        (filter (λ f. (f.to == member) && nat_le from f.item) (sorted_feedback db)))
        (λ db. GivenFit member from (feedback_in db)) }
    ensures fits { IfOk result (λ given. AllByRecursion FeedbackFits given.items) }
    ensures spoiled { HasCleanDisk (state S.Store conn.new)
        → IsErrOf result Damaged
        → IsSpoiled feedback_of FeedbackFits given_text (Int (pos member) ∷ Int (pos from) ∷ [])
        stray_feedback_text (Int (pos member) ∷ Int (pos from) ∷ [])
        (state S.Store conn.old) (state S.Store conn.new) }
{
    let rows = listed_rows(
        alloc,
        conn,
        "SELECT item, giver, receiver, rating, body FROM feedback WHERE receiver = ?1 AND item >= ?2 ORDER BY item, giver",
        params![member, from],
        "SELECT item FROM feedback \
        WHERE receiver = ?1 AND item < ?2 AND (item < 0 OR rating < -1 OR rating > 1) \
        ORDER BY item, giver",
        params![member, from],
    )?;
    all_of(alloc, &rows)
}

/// The feedback to a member, from an item on; at most fifty.
pub fn feedback_to<S: Alter>(
    alloc: Global,
    conn: &mut Connection<S>,
    member: u32,
    from: u64,
) -> Result<Vec<Feedback>, KeepFault>
    requires { Serves (state S.Store conn.old) }
    ensures finds { Finds S.Store conn.old conn.new result
        (λ db given. given.items ≡ feedback_to (tables_in db) member from)
        (λ db. GivenFit member (start_of from) (tables_in db).feedback) }
    ensures fits { IfOk result (λ given. AllByRecursion FeedbackFits given.items) }
{
    given_from(alloc, conn, member, bound_of(from))
}
