//! Whether a member watches an item.
ghost use Rattle.std.specs.Prelude.{◌≡◌, ⊤, IsErrOf};
ghost use Rattle.std.specs.List.{list_any};
ghost use Rattle.sqlite.specs.Held.{state};
ghost use Rattle.house_rows.specs.Watches.{is_watch};
ghost use Rattle.house_rows.specs.declared.fault.KeepFault.TheVariants.{Damaged};
ghost use Rattle.store_rows.specs.House.{Serves};
ghost use Rattle.store_rows.specs.Sorted.{sorted_watches};
ghost use Rattle.store_rows.specs.Frames.{Finds};

use house_rows::KeepFault;
use sqlite::{Alter, Connection, params};
use store_rows::rows_shown;

/// Whether a member watches an item.
pub fn is_watched<S: Alter>(
    conn: &mut Connection<S>,
    member: u32,
    item: u32,
) -> Result<bool, KeepFault>
    requires { Serves (state S.Store conn.old) }
    ensures finds { Finds S.Store conn.old conn.new result
        (λ db is. is ≡ list_any (is_watch member item) (sorted_watches db)) (λ _. ⊤) }
    ensures sound { ¬ (IsErrOf result Damaged) }
{
    let rows = rows_shown(
        conn,
        "SELECT item FROM watch WHERE member = ?1 AND item = ?2",
        params![member, item],
    )?;
    Ok(!rows.is_empty())
}
