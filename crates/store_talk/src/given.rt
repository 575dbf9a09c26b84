//! Whether a member has given feedback on an item.
ghost use Rattle.std.specs.Prelude.{◌==◌};
ghost use Rattle.sqlite.specs.Held.{state};
ghost use Rattle.house_rows.specs.Taken.{FitWhere};
ghost use Rattle.house_rows.specs.Fits.{FeedbackFits};
ghost use Rattle.store_rows.specs.House.{Serves};
ghost use Rattle.store_rows.specs.Rows.{feedback_in};
ghost use Rattle.store_rows.specs.Frames.{Finds};
ghost use Rattle.store_talk.specs.Taken.{IsKeyTaken};

use house_rows::{Feedback, KeepFault};
use sqlite::{Alter, Connection, params};
use store_rows::{first_of, rows_shown};

/// Whether a member has given feedback on an item. `Damaged` is answered only where a row of this
/// giver doesn't fit, of whatever item it tells.
pub fn is_given<S: Alter>(
    conn: &mut Connection<S>,
    item: u32,
    giver: u32,
) -> Result<bool, KeepFault>
    requires { Serves (state S.Store conn.old) }
    ensures { Finds S.Store conn.old conn.new result (IsKeyTaken item giver)
        (λ db. FitWhere (λ f. f.from == giver) FeedbackFits (feedback_in db)) }
{
    let rows = rows_shown(
        conn,
        "SELECT item, giver, receiver, rating, body FROM feedback WHERE item = ?1 AND giver = ?2 ORDER BY rowid",
        params![item, giver],
    )?;
    let given: Option<Feedback> = first_of(&rows)?;
    Ok(given.is_some())
}
