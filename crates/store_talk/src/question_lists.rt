//! Questions, by item, asker and number.
ghost use Rattle.std.specs.Prelude.{◌≡◌, is_some, filter, IfOk};
ghost use Rattle.std.specs.List.{AllByRecursion};
ghost use Rattle.sqlite.specs.Held.{state};
ghost use Rattle.house_rows.specs.Taken.{FitWhere};
ghost use Rattle.house_rows.specs.Fits.{QuestionFits};
ghost use Rattle.store_talk.specs.Waiting.{waiting_in, WaitingFit};
ghost use Rattle.store_rows.specs.House.{Serves};
ghost use Rattle.store_rows.specs.Rows.{questions_in};
ghost use Rattle.store_rows.specs.Sorted.{sorted_questions};
ghost use Rattle.store_rows.specs.Frames.{Finds};

use house_rows::{KeepFault, Question};
use sqlite::{Alter, Connection, params};
use std::alloc::Global;
use store_rows::{all_of, rows_shown};

/// All published questions.
pub fn all_published<S: Alter>(
    alloc: Global,
    conn: &mut Connection<S>,
) -> Result<Vec<Question>, KeepFault>
    requires { Serves (state S.Store conn.old) }
    ensures finds { Finds S.Store conn.old conn.new result
        (λ db asked. asked.items ≡ filter (λ q. is_some q.answer) (sorted_questions db))
        (λ db. FitWhere (λ q. is_some q.answer) QuestionFits (questions_in db)) }
    ensures fits { IfOk result (λ asked. AllByRecursion QuestionFits asked.items) }
{
    let rows = rows_shown(
        conn,
        "SELECT item, asker, n, answer, body FROM question WHERE answer IS NOT NULL ORDER BY item, asker, n",
        &[],
    )?;
    all_of(alloc, &rows)
}

/// The questions on an item that wait for an answer.
pub(crate) fn waiting_on<S: Alter>(
    alloc: Global,
    conn: &mut Connection<S>,
    item: u32,
) -> Result<Vec<Question>, KeepFault>
    requires { Serves (state S.Store conn.old) }
    ensures finds { Finds S.Store conn.old conn.new result
        (λ db asked. asked.items ≡ waiting_in db item) (λ db. WaitingFit db item) }
    ensures fits { IfOk result (λ asked. AllByRecursion QuestionFits asked.items) }
{
    let rows = rows_shown(
        conn,
        "SELECT item, asker, n, answer, body FROM question WHERE item = ?1 AND answer IS NULL ORDER BY item, asker, n",
        params![item],
    )?;
    all_of(alloc, &rows)
}
