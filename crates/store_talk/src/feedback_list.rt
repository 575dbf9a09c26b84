//! All feedback.
ghost use Rattle.std.specs.Prelude.{◌≡◌, IfOk};
ghost use Rattle.std.specs.List.{AllByRecursion};
ghost use Rattle.sqlite.specs.Held.{state};
ghost use Rattle.house_rows.specs.Fits.{FeedbackFits};
ghost use Rattle.store_rows.specs.House.{Serves};
ghost use Rattle.store_rows.specs.Rows.{feedback_in};
ghost use Rattle.store_rows.specs.Sorted.{sorted_feedback};
ghost use Rattle.store_rows.specs.Frames.{Finds};

use house_rows::{Feedback, KeepFault};
use sqlite::{Alter, Connection, params};
use std::alloc::Global;
use store_rows::{all_of, rows_shown};

/// All feedback.
pub fn all_feedback<S: Alter>(
    alloc: Global,
    conn: &mut Connection<S>,
) -> Result<Vec<Feedback>, KeepFault>
    requires { Serves (state S.Store conn.old) }
    ensures finds { Finds S.Store conn.old conn.new result
        (λ db given. given.items ≡ sorted_feedback db)
        (λ db. AllByRecursion FeedbackFits (feedback_in db)) }
    ensures fits { IfOk result (λ given. AllByRecursion FeedbackFits given.items) }
{
    let rows = rows_shown(
        conn,
        "SELECT item, giver, receiver, rating, body FROM feedback ORDER BY item, giver",
        &[],
    )?;
    all_of(alloc, &rows)
}
