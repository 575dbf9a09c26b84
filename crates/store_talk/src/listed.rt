//! Lists of at most fifty rows, whose strays are looked for last.
ghost use Rattle.std.specs.Prelude.{◌<◌, [], length, IfOk, OnOk, IsErrOf};
ghost use Rattle.house_rows.specs.Limits.{most_shown};
ghost use Rattle.house_rows.specs.declared.fault.KeepFault.TheVariants.{Damaged};
ghost use Rattle.sqlite.specs.State.{HasCleanDisk, Shown};
ghost use Rattle.sqlite.specs.Values.{bound};
ghost use Rattle.sqlite.specs.Held.{state};
ghost use Rattle.store_rows.specs.House.{Serves, IsHouse};
ghost use Rattle.store_rows.specs.First.{ShowsFirst, ShowsSome};
ghost use Rattle.store_rows.specs.Frames.{OnlyReads};
ghost use Rattle.store_talk.specs.Spoiled.{HasStray};
ghost use Rattle.store_rows.specs.Statements.{AlwaysFinite, AlwaysPlain};

use house_rows::{KeepFault, MOST_SHOWN};
use sqlite::types::ValueRef;
use sqlite::{Alter, Connection, Row};
use std::alloc::Global;
use store_rows::first_rows;

// Reports that a query shows no row. Where it shows one the answer is `Damaged`.
fn no_row<S: Alter>(
    alloc: Global,
    conn: &mut Connection<S>,
    strays: &str,
    of: &[ValueRef<'_>],
) -> Result<(), KeepFault>
    requires serves { Serves (state S.Store conn.old) }
    requires plain { AlwaysPlain strays.now }
    requires finite { AlwaysFinite strays.now }
    ensures none { HasCleanDisk (state S.Store conn.new)
        → OnOk result (Shown strays.now (bound of.now) (state S.Store conn.old)
        (state S.Store conn.new) []) }
    ensures damaged { HasCleanDisk (state S.Store conn.new)
        → IsErrOf result Damaged
        → ShowsSome strays.now (bound of.now) (state S.Store conn.old) (state S.Store conn.new) }
    ensures read { OnlyReads (state S.Store conn.old) (state S.Store conn.new) result }
{
    let shown = first_rows(alloc, conn, strays, of, 1)?;
    if shown.is_empty() {
        Ok(())
    } else {
        Err(KeepFault::Damaged)
    }
}

/// The rows with which a list begins, at most fifty. A full list looks at no further row. Where it
/// has fewer, another query has to show no stray, which is a row of the list that SQL sorts
/// elsewhere; where it shows one the answer is `Damaged`.
pub(crate) fn listed_rows<S: Alter>(
    alloc: Global,
    conn: &mut Connection<S>,
    sql: &str,
    params: &[ValueRef<'_>],
    strays: &str,
    of: &[ValueRef<'_>],
) -> Result<Vec<Row>, KeepFault>
    requires serves { Serves (state S.Store conn.old) }
    requires plain { AlwaysPlain sql.now }
    requires finite { AlwaysFinite sql.now }
    requires strays_plain { AlwaysPlain strays.now }
    requires strays_finite { AlwaysFinite strays.now }
    ensures house { HasCleanDisk (state S.Store conn.new) → IsHouse (state S.Store conn.old).now }
    ensures rows { HasCleanDisk (state S.Store conn.new)
        → IfOk result (λ rows. ShowsFirst most_shown sql.now (bound params.now)
        (state S.Store conn.old) (state S.Store conn.new) rows.items) }
    ensures no_stray { HasCleanDisk (state S.Store conn.new)
        → IfOk result (λ rows. length rows.items < most_shown
        → Shown strays.now (bound of.now) (state S.Store conn.old) (state S.Store conn.new) []) }
    ensures damaged { HasCleanDisk (state S.Store conn.new)
        → IsErrOf result Damaged
        → HasStray sql.now (bound params.now) strays.now (bound of.now)
        (state S.Store conn.old) (state S.Store conn.new) }
    ensures read { OnlyReads (state S.Store conn.old) (state S.Store conn.new) result }
{
    let rows = first_rows(alloc, conn, sql, params, MOST_SHOWN)?;
    if rows.len() >= MOST_SHOWN {
        return Ok(rows);
    }
    no_row(alloc, conn, strays, of)?;
    Ok(rows)
}
