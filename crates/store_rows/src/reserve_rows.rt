//! The table of reserves.
ghost use Rattle.std.specs.Prelude.{◌≡◌, IfOk, OnOk, IsErrOf};
ghost use Rattle.std.specs.List.{AllByRecursion};
ghost use Rattle.sqlite.specs.State.{HasCleanDisk};
ghost use Rattle.sqlite.specs.Held.{state};
ghost use Rattle.house_rows.specs.declared.fault.KeepFault.TheVariants.{Damaged};
ghost use Rattle.store_rows.specs.Fitting.{ReserveRowFits};
ghost use Rattle.store_rows.specs.Frames.{OnlyReads, WritesOnce};
ghost use Rattle.store_rows.specs.House.{IsBegun, Serves};
ghost use Rattle.store_rows.specs.Rows.{reserves_in};
ghost use Rattle.store_rows.specs.Reserves.{AddsReserve};

use crate::reserve::ReserveRow;
use crate::sql::{rows_shown, run};
use crate::stored::all_of;
use cents::Cents;
use house_rows::KeepFault;
use sqlite::{Alter, Connection, Transaction, params};
use std::alloc::Global;

/// All reserves, by item.
pub fn all_reserves<S: Alter>(
    alloc: Global,
    conn: &mut Connection<S>,
) -> Result<Vec<ReserveRow>, KeepFault>
    requires { Serves (state S.Store conn.old) }
    ensures reserves { HasCleanDisk (state S.Store conn.new)
        → IfOk result (λ all. all.items ≡ reserves_in (state S.Store conn.old).now.trees) }
    ensures fits { IfOk result (λ all. AllByRecursion ReserveRowFits all.items) }
    ensures damaged { HasCleanDisk (state S.Store conn.new)
        → AllByRecursion ReserveRowFits (reserves_in (state S.Store conn.old).now.trees)
        → ¬ (IsErrOf result Damaged) }
    ensures read { OnlyReads (state S.Store conn.old) (state S.Store conn.new) result }
{
    let rows = rows_shown(conn, "SELECT item, amount FROM reserve ORDER BY item", &[])?;
    all_of(alloc, &rows)
}

/// Adds a reserve within a transaction.
pub fn put_reserve<S: Alter>(
    tx: &mut Transaction<'_, S>,
    item: u32,
    amount: Cents,
) -> Result<(), KeepFault>
    requires { IsBegun (state S.Store tx.old.conn.now) }
    ensures same_reference { tx.new.conn.ghost_name ≡ tx.old.conn.ghost_name }
    ensures ok { HasCleanDisk (state S.Store tx.new.conn.now)
        → OnOk result (AddsReserve item amount (state S.Store tx.old.conn.now).now
        (state S.Store tx.new.conn.now).now) }
    ensures sound { ¬ (IsErrOf result Damaged) }
    ensures write { WritesOnce (state S.Store tx.old.conn.now)
        (state S.Store tx.new.conn.now) result }
{
    let amount = amount.value() as u32;
    run(
        tx,
        "INSERT INTO reserve (item, amount) VALUES (?1, ?2)",
        params![item, amount],
    )
}
