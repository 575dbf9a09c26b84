//! The first rows of an answer, read one at a time.
ghost use Rattle.std.specs.Prelude.{◌<◌, ◌≤◌, [], length, IfOk, OnOk, IsErrOf};
ghost use Rattle.house_rows.specs.Limits.{most_shown};
ghost use Rattle.house_rows.specs.declared.fault.KeepFault.TheVariants.{Damaged};
ghost use Rattle.sqlite.specs.State.{HasCleanDisk, Shown, Begins};
ghost use Rattle.sqlite.specs.Given.{IsPlain};
ghost use Rattle.sqlite.specs.Listing.{understood};
ghost use Rattle.sqlite.specs.Values.{bound};
ghost use Rattle.sqlite.specs.Held.{state};
ghost use Rattle.store_rows.specs.House.{Serves, IsHouse};
ghost use Rattle.store_rows.specs.First.{ShowsFirst, ShowsSome};
ghost use Rattle.store_rows.specs.Frames.{OnlyReads};
ghost use Rattle.store_rows.specs.Statements.{AlwaysFinite, AlwaysPlain};

use crate::sql::fault_of;
use house_rows::{KeepFault, MOST_SHOWN};
use sqlite::types::ValueRef;
use sqlite::{Alter, Connection, Error, Row};
use std::alloc::Global;

// The rows with which an answer begins; all of it where fewer came.
fn rows_given<S: Alter>(
    alloc: Global,
    conn: &mut Connection<S>,
    sql: &str,
    params: &[ValueRef<'_>],
    most: usize,
) -> Result<Vec<Row>, Error>
    requires { HasCleanDisk (state S.Store conn.old)
        → IsPlain (understood conn.old.schema sql.now) }
    ensures begin { HasCleanDisk (state S.Store conn.new)
        → IfOk result (λ rows. Begins sql.now (bound params.now)
        (state S.Store conn.new) rows.items) }
    ensures few { IfOk result (λ rows. length rows.items ≤ most) }
    ensures whole { HasCleanDisk (state S.Store conn.new)
        → IfOk result (λ rows. length rows.items < most
        → Shown sql.now (bound params.now) (state S.Store conn.old)
        (state S.Store conn.new) rows.items) }
    ensures read { OnlyReads (state S.Store conn.old) (state S.Store conn.new) result }
{
    let mut first = Vec::new(alloc);
    let mut rows = conn.query(sql, params)?;
    'rows: for _ in 0..most {
        let Some(row) = rows.next()? else {
            return Ok(first);
        };
        first.push(row.copy()?)?;
    }
    Ok(first)
}

/// The first rows that a query shows, at most so many. It asks for no row after them, changes
/// nothing, and is never damaged.
pub fn first_rows<S: Alter>(
    alloc: Global,
    conn: &mut Connection<S>,
    sql: &str,
    params: &[ValueRef<'_>],
    most: usize,
) -> Result<Vec<Row>, KeepFault>
    requires serves { Serves (state S.Store conn.old) }
    requires plain { AlwaysPlain sql.now }
    requires finite { AlwaysFinite sql.now }
    ensures house { HasCleanDisk (state S.Store conn.new) → IsHouse (state S.Store conn.old).now }
    ensures rows { HasCleanDisk (state S.Store conn.new)
        → IfOk result (λ rows. ShowsFirst most sql.now (bound params.now) (state S.Store conn.old)
        (state S.Store conn.new) rows.items) }
    ensures sound { ¬ (IsErrOf result Damaged) }
    ensures read { OnlyReads (state S.Store conn.old) (state S.Store conn.new) result }
{
    match rows_given(alloc, conn, sql, params, most) {
        Ok(rows) => Ok(rows),
        Err(error) => Err(fault_of(error)),
    }
}

// Reports that a query shows no row. Where it shows one the answer is `Damaged`.
fn no_row<S: Alter>(
    alloc: Global,
    conn: &mut Connection<S>,
    sql: &str,
    params: &[ValueRef<'_>],
) -> Result<(), KeepFault>
    requires serves { Serves (state S.Store conn.old) }
    requires plain { AlwaysPlain sql.now }
    requires finite { AlwaysFinite sql.now }
    ensures none { HasCleanDisk (state S.Store conn.new)
        → OnOk result (Shown sql.now (bound params.now) (state S.Store conn.old)
        (state S.Store conn.new) []) }
    ensures damaged { HasCleanDisk (state S.Store conn.new)
        → IsErrOf result Damaged
        → ShowsSome sql.now (bound params.now) (state S.Store conn.old) (state S.Store conn.new) }
    ensures read { OnlyReads (state S.Store conn.old) (state S.Store conn.new) result }
{
    let shown = first_rows(alloc, conn, sql, params, 1)?;
    if shown.is_empty() {
        Ok(())
    } else {
        Err(KeepFault::Damaged)
    }
}

/// The rows with which a list begins, at most fifty, where another query shows no stray: a row of
/// the list that SQL sorts elsewhere. Where it shows one the answer is `Damaged`.
pub fn page_rows<S: Alter>(
    alloc: Global,
    conn: &mut Connection<S>,
    strays: &str,
    of: &[ValueRef<'_>],
    sql: &str,
    params: &[ValueRef<'_>],
) -> Result<Vec<Row>, KeepFault>
    requires serves { Serves (state S.Store conn.old) }
    requires plain { AlwaysPlain sql.now }
    requires finite { AlwaysFinite sql.now }
    requires strays_plain { AlwaysPlain strays.now }
    requires strays_finite { AlwaysFinite strays.now }
    ensures house { HasCleanDisk (state S.Store conn.new) → IsHouse (state S.Store conn.old).now }
    ensures rows { HasCleanDisk (state S.Store conn.new)
        → IfOk result (λ rows. ShowsFirst most_shown sql.now (bound params.now)
        (state S.Store conn.old) (state S.Store conn.new) rows.items) }
    ensures no_stray { HasCleanDisk (state S.Store conn.new)
        → OnOk result (Shown strays.now (bound of.now) (state S.Store conn.old)
        (state S.Store conn.new) []) }
    ensures damaged { HasCleanDisk (state S.Store conn.new)
        → IsErrOf result Damaged
        → ShowsSome strays.now (bound of.now) (state S.Store conn.old) (state S.Store conn.new) }
    ensures read { OnlyReads (state S.Store conn.old) (state S.Store conn.new) result }
{
    no_row(alloc, conn, strays, of)?;
    first_rows(alloc, conn, sql, params, MOST_SHOWN)
}
