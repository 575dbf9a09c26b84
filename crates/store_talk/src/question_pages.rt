//! Lists of questions.
ghost use Rattle.std.specs.Prelude.{◌≡◌, ◌==◌, ◌&&◌, pos, [], ◌∷◌, filter, is_some, nat_le, take, IfOk, IsErrOf};
ghost use Rattle.std.specs.List.{AllByRecursion};
ghost use Rattle.house_rows.specs.Fits.{QuestionFits};
ghost use Rattle.house_rows.specs.Found.{published_on, questions_of};
ghost use Rattle.house_rows.specs.Taken.{start_of};
ghost use Rattle.house_rows.specs.Limits.{most_shown};
ghost use Rattle.house_rows.specs.declared.fault.KeepFault.TheVariants.{Damaged};
ghost use Rattle.sqlite_value.specs.declared.value.Value.TheVariants.{Int};
ghost use Rattle.sqlite.specs.State.{HasCleanDisk};
ghost use Rattle.sqlite.specs.Held.{state};
ghost use Rattle.store_rows.specs.House.{Serves};
ghost use Rattle.store_rows.specs.Rows.{question_of, questions_in};
ghost use Rattle.store_rows.specs.Sorted.{sorted_questions};
ghost use Rattle.store_rows.specs.Tables.{tables_in};
ghost use Rattle.store_rows.specs.Frames.{Finds};
ghost use Rattle.house_rows.specs.Taken.{AskedFit, PublishedFit};
ghost use Rattle.store_talk.specs.Waiting.{waiting_in, WaitingFit};
ghost use Rattle.store_talk.specs.Spoiled.{IsSpoiled};
ghost use Rattle.store_talk.specs.Texts.{published_text, questions_text, stray_asked_text, stray_askers_text};

use crate::listed::listed_rows;
use house_rows::{KeepFault, MOST_SHOWN, Question};
use sqlite::{Alter, Connection, params};
use std::alloc::Global;
use store_rows::{all_of, bound_of, first_rows};

// The published questions on an item, from an asker on; at most fifty.
fn published_from<S: Alter>(
    alloc: Global,
    conn: &mut Connection<S>,
    item: u32,
    from: u32,
) -> Result<Vec<Question>, KeepFault>
    requires { Serves (state S.Store conn.old) }
    ensures finds { Finds S.Store conn.old conn.new result
        (λ db asked. asked.items ≡ take most_shown
        (filter (λ q. (q.item == item) && nat_le from q.asker)
        (filter (λ q. is_some q.answer) (sorted_questions db))))
        (λ db. PublishedFit item from (questions_in db)) }
    ensures fits { IfOk result (λ asked. AllByRecursion QuestionFits asked.items) }
    ensures spoiled { HasCleanDisk (state S.Store conn.new)
        → IsErrOf result Damaged
        → IsSpoiled question_of QuestionFits published_text (Int (pos item) ∷ Int (pos from) ∷ [])
        stray_askers_text (Int (pos item) ∷ [])
        (state S.Store conn.old) (state S.Store conn.new) }
{
    let rows = listed_rows(
        alloc,
        conn,
        "SELECT item, asker, n, answer, body FROM question \
        WHERE item = ?1 AND answer IS NOT NULL AND asker >= ?2 ORDER BY item, asker, n",
        params![item, from],
        "SELECT asker FROM question WHERE item = ?1 AND answer IS NOT NULL AND asker < 0 ORDER BY item, asker, n",
        params![item],
    )?;
    all_of(alloc, &rows)
}

/// The published questions on an item, from an asker on; at most fifty.
pub fn published_on<S: Alter>(
    alloc: Global,
    conn: &mut Connection<S>,
    item: u32,
    from: u64,
) -> Result<Vec<Question>, KeepFault>
    requires { Serves (state S.Store conn.old) }
    ensures finds { Finds S.Store conn.old conn.new result
        (λ db asked. asked.items ≡ published_on (tables_in db) item from)
        (λ db. PublishedFit item (start_of from) (tables_in db).questions) }
    ensures fits { IfOk result (λ asked. AllByRecursion QuestionFits asked.items) }
{
    published_from(alloc, conn, item, bound_of(from))
}

/// The questions on an item that wait for an answer; at most fifty.
pub(crate) fn first_waiting_on<S: Alter>(
    alloc: Global,
    conn: &mut Connection<S>,
    item: u32,
) -> Result<Vec<Question>, KeepFault>
    requires { Serves (state S.Store conn.old) }
    ensures finds { Finds S.Store conn.old conn.new result
        (λ db asked. asked.items ≡ take most_shown (waiting_in db item))
        (λ db. WaitingFit db item) }
    ensures fits { IfOk result (λ asked. AllByRecursion QuestionFits asked.items) }
{
    // A row with a negative number of its asker comes first, and doesn't fit: no stray is looked for.
    let rows = first_rows(
        alloc,
        conn,
        "SELECT item, asker, n, answer, body FROM question WHERE item = ?1 AND answer IS NULL ORDER BY item, asker, n",
        params![item],
        MOST_SHOWN,
    )?;
    all_of(alloc, &rows)
}

// A member's questions, from an item on; at most fifty.
fn questions_from<S: Alter>(
    alloc: Global,
    conn: &mut Connection<S>,
    asker: u32,
    from: u32,
) -> Result<Vec<Question>, KeepFault>
    requires { Serves (state S.Store conn.old) }
    ensures finds { Finds S.Store conn.old conn.new result
        (λ db asked. asked.items ≡ take most_shown
        (filter (λ q. (q.asker == asker) && nat_le from q.item) (sorted_questions db)))
        (λ db. AskedFit asker from (questions_in db)) }
    ensures fits { IfOk result (λ asked. AllByRecursion QuestionFits asked.items) }
    ensures spoiled { HasCleanDisk (state S.Store conn.new)
        → IsErrOf result Damaged
        → IsSpoiled question_of QuestionFits questions_text (Int (pos asker) ∷ Int (pos from) ∷ [])
        stray_asked_text (Int (pos asker) ∷ [])
        (state S.Store conn.old) (state S.Store conn.new) }
{
    let rows = listed_rows(
        alloc,
        conn,
        "SELECT item, asker, n, answer, body FROM question WHERE asker = ?1 AND item >= ?2 ORDER BY asker, item, n",
        params![asker, from],
        "SELECT item FROM question WHERE asker = ?1 AND item < 0 ORDER BY asker, item, n",
        params![asker],
    )?;
    all_of(alloc, &rows)
}

/// A member's questions, from an item on; at most fifty.
pub fn questions_of<S: Alter>(
    alloc: Global,
    conn: &mut Connection<S>,
    member: u32,
    from: u64,
) -> Result<Vec<Question>, KeepFault>
    requires { Serves (state S.Store conn.old) }
    ensures finds { Finds S.Store conn.old conn.new result
        (λ db asked. asked.items ≡ questions_of (tables_in db) member from)
        (λ db. AskedFit member (start_of from) (tables_in db).questions) }
    ensures fits { IfOk result (λ asked. AllByRecursion QuestionFits asked.items) }
{
    questions_from(alloc, conn, member, bound_of(from))
}
