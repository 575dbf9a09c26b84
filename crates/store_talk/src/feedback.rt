//! The statements on the table of feedback.
ghost use Rattle.std.specs.Prelude.{◌≡◌, ◌==◌, filter, IfOk, OnOk, IsErrOf};
ghost use Rattle.std.specs.List.{AllByRecursion};
ghost use Rattle.sqlite.specs.State.{HasCleanDisk};
ghost use Rattle.sqlite.specs.Held.{state};
ghost use Rattle.house_rows.specs.Taken.{FitWhere};
ghost use Rattle.house_rows.specs.Fits.{FeedbackFits};
ghost use Rattle.house_rows.specs.declared.fault.KeepFault.TheVariants.{Damaged};
ghost use Rattle.store_rows.specs.House.{IsBegun, Serves, AddsFeedback};
ghost use Rattle.store_rows.specs.Rows.{feedback_in, stored_rating};
ghost use Rattle.store_rows.specs.Frames.{Finds, WritesOnce};

use house_rows::{Feedback, KeepFault, Rating};
use sqlite::{Alter, Connection, Transaction, params};
use std::alloc::Global;
use store_rows::{all_of, rows_shown, run};

// A rating as it is stored.
fn rating_number(rating: Rating) -> i64
    ensures { result ≡ stored_rating rating }
{
    match rating {
        Rating::Minus => -1,
        Rating::Zero => 0,
        Rating::Plus => 1,
    }
}

/// Adds a feedback on an item within a transaction.
pub(crate) fn put_feedback<S: Alter>(
    tx: &mut Transaction<'_, S>,
    item: u32,
    from: u32,
    to: u32,
    rating: Rating,
    text: &str,
) -> Result<(), KeepFault>
    requires { IsBegun (state S.Store tx.old.conn.now) }
    ensures same_reference { tx.new.conn.ghost_name ≡ tx.old.conn.ghost_name }
    ensures ok { HasCleanDisk (state S.Store tx.new.conn.now)
        → OnOk result
        (AddsFeedback
        (record { item = item; from = from; to = to; rating = rating; text = text.now })
        (state S.Store tx.old.conn.now).now (state S.Store tx.new.conn.now).now) }
    ensures sound { ¬ (IsErrOf result Damaged) }
    ensures write { WritesOnce (state S.Store tx.old.conn.now)
        (state S.Store tx.new.conn.now) result }
{
    let number = rating_number(rating);
    run(
        tx,
        "INSERT INTO feedback (item, giver, receiver, rating, body) VALUES (?1, ?2, ?3, ?4, ?5)",
        params![item, from, to, number, text],
    )
}

/// The feedback to a member, in the order in which it came.
pub(crate) fn feedback_rows<S: Alter>(
    alloc: Global,
    conn: &mut Connection<S>,
    member: u32,
) -> Result<Vec<Feedback>, KeepFault>
    requires { Serves (state S.Store conn.old) }
    ensures finds { Finds S.Store conn.old conn.new result
        (λ db given. given.items ≡ filter (λ f. f.to == member) (feedback_in db))
        (λ db. FitWhere (λ f. f.to == member) FeedbackFits (feedback_in db)) }
    ensures fits { IfOk result (λ given. AllByRecursion FeedbackFits given.items) }
{
    let rows = rows_shown(
        conn,
        "SELECT item, giver, receiver, rating, body FROM feedback WHERE receiver = ?1 ORDER BY rowid",
        params![member],
    )?;
    all_of(alloc, &rows)
}
