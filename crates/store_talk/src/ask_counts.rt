//! Questions, by asker and item.
ghost use Rattle.std.specs.Prelude.{◌≡◌, ◌==◌, ◌&&◌, ⊤, IsErrOf};
ghost use Rattle.sqlite.specs.Held.{state};
ghost use Rattle.house_rows.specs.History.{counted};
ghost use Rattle.house_rows.specs.declared.fault.KeepFault.TheVariants.{Damaged};
ghost use Rattle.store_rows.specs.House.{Serves};
ghost use Rattle.store_rows.specs.Sorted.{sorted_questions};
ghost use Rattle.store_rows.specs.Frames.{Finds};

use house_rows::KeepFault;
use sqlite::{Alter, Connection, params};
use store_rows::rows_shown;

/// How many questions a member has asked on an item.
pub fn ask_count<S: Alter>(
    conn: &mut Connection<S>,
    item: u32,
    asker: u32,
) -> Result<u64, KeepFault>
    requires { Serves (state S.Store conn.old) }
    ensures finds { Finds S.Store conn.old conn.new result
        (λ db n. n ≡ counted (λ q. (q.asker == asker) && (q.item == item)) (sorted_questions db))
        (λ _. ⊤) }
    ensures sound { ¬ (IsErrOf result Damaged) }
{
    // They are at most twenty where the rows fit; SQL's own count would stop at 2^63 - 1.
    let rows = rows_shown(
        conn,
        "SELECT n FROM question WHERE asker = ?1 AND item = ?2",
        params![asker, item],
    )?;
    Ok(rows.len() as u64)
}
