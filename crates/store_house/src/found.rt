//! Typed rows of a house, as a query finds them.
ghost use Rattle.std.specs.Prelude.{◌≡◌, Bool, List, filter, find, IfOk, IfSome};
ghost use Rattle.std.specs.List.{AllByRecursion};
ghost use Rattle.sqlite.specs.Held.{state};
ghost use Rattle.sqlite.specs.Values.{bound};
ghost use Rattle.sqlite_trees.specs.Tree.{Trees};
ghost use Rattle.store_house.specs.Found.{Lists};
ghost use Rattle.store_rows.specs.Frames.{Finds};
ghost use Rattle.store_rows.specs.House.{Serves};
ghost use Rattle.store_rows.specs.Statements.{AlwaysPlain};

use house_rows::KeepFault;
use sqlite::types::ValueRef;
use sqlite::{Alter, Connection};
use std::alloc::Global;
use store_rows::{Stored, all_of, first_of, rows_shown};

/// The first of the rows that a query shows.
pub(crate) fn row_found<S: Alter, T: Stored>(
    conn: &mut Connection<S>,
    sql: &str,
    params: &[ValueRef<'_>],
) -> Result<Option<T>, KeepFault>
    requires serves { Serves (state S.Store conn.old) }
    requires plain { AlwaysPlain sql.now }
    ensures finds { (table : Trees → List T) (keep : T → Bool)
        → Lists (state S.Store conn.old) (state S.Store conn.new) sql.now (bound params.now) T.report
        (λ db. filter keep (table db))
        → Finds S.Store conn.old conn.new result (λ db found. found ≡ find keep (table db))
        (λ db. IfSome (find keep (table db)) T.fits) }
    ensures fits { IfOk result (λ found. IfSome found T.fits) }
{
    let rows = rows_shown(conn, sql, params)?;
    first_of(&rows)
}

/// All of the rows that a query shows.
pub(crate) fn rows_found<S: Alter, T: Stored>(
    alloc: Global,
    conn: &mut Connection<S>,
    sql: &str,
    params: &[ValueRef<'_>],
) -> Result<Vec<T>, KeepFault>
    requires serves { Serves (state S.Store conn.old) }
    requires plain { AlwaysPlain sql.now }
    ensures finds { (table : Trees → List T)
        → Lists (state S.Store conn.old) (state S.Store conn.new) sql.now (bound params.now) T.report
        table
        → Finds S.Store conn.old conn.new result (λ db all. all.items ≡ table db)
        (λ db. AllByRecursion T.fits (table db)) }
    ensures fits { IfOk result (λ all. AllByRecursion T.fits all.items) }
{
    let rows = rows_shown(conn, sql, params)?;
    all_of(alloc, &rows)
}
