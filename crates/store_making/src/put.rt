//! The rows that a new house has.
ghost use Rattle.std.specs.Prelude.{◌≡◌, ℕ, Ok, OnOk, IsErrOf, IsTrue};
ghost use Rattle.sqlite.specs.State.{Executes, HasCleanDisk};
ghost use Rattle.sqlite.specs.Held.{state};
ghost use Rattle.sqlite.specs.Values.{bound};
ghost use Rattle.house_rows.specs.declared.fault.KeepFault.TheVariants.{Damaged};
ghost use Rattle.store_making.specs.Made.{IsLaid, PutsBand, PutsHouse};
ghost use Rattle.store_rows.specs.Frames.{WritesOnce};

use house_rows::{KeepFault, Text};
use sqlite::types::ValueRef;
use sqlite::{Alter, Transaction, params};
use store_rows::fault_of;

// Runs a write over the tables that were made. It is never damaged: what breaks a rule of the schema is
// a failure.
fn write_row<S: Alter>(
    tx: &mut Transaction<'_, S>,
    sql: &str,
    params: &[ValueRef<'_>],
) -> Result<(), KeepFault>
    requires laid { HasCleanDisk (state S.Store tx.old.conn.now)
        → IsTrue (state S.Store tx.old.conn.now).is_open
        × IsLaid (state S.Store tx.old.conn.now).now }
    requires begun { HasCleanDisk (state S.Store tx.old.conn.now)
        → IsTrue tx.old.conn.now.in_transaction }
    ensures same_reference { tx.new.conn.ghost_name ≡ tx.old.conn.ghost_name }
    ensures laid { HasCleanDisk (state S.Store tx.new.conn.now)
        → IsLaid (state S.Store tx.old.conn.now).now }
    ensures ran { HasCleanDisk (state S.Store tx.new.conn.now)
        → OnOk result ((count : ℕ) × Executes sql.now (bound params.now)
        (state S.Store tx.old.conn.now) (state S.Store tx.new.conn.now) (Ok count)) }
    ensures sound { ¬ (IsErrOf result Damaged) }
    ensures write { WritesOnce (state S.Store tx.old.conn.now)
        (state S.Store tx.new.conn.now) result }
{
    match tx.execute(sql, params) {
        Ok(_) => Ok(()),
        Err(error) => Err(fault_of(error)),
    }
}

/// Writes the row of the house within a transaction: number 1, version 2 and clock 0. The rate is in
/// ten-thousandths.
pub(crate) fn put_house<S: Alter>(
    tx: &mut Transaction<'_, S>,
    rate: u32,
    zone: &Text,
) -> Result<(), KeepFault>
    requires laid { HasCleanDisk (state S.Store tx.old.conn.now)
        → IsTrue (state S.Store tx.old.conn.now).is_open
        × IsLaid (state S.Store tx.old.conn.now).now }
    requires begun { HasCleanDisk (state S.Store tx.old.conn.now)
        → IsTrue tx.old.conn.now.in_transaction }
    ensures same_reference { tx.new.conn.ghost_name ≡ tx.old.conn.ghost_name }
    ensures ok { HasCleanDisk (state S.Store tx.new.conn.now)
        → OnOk result (PutsHouse rate zone.now (state S.Store tx.old.conn.now).now
        (state S.Store tx.new.conn.now).now) }
    ensures sound { ¬ (IsErrOf result Damaged) }
    ensures write { WritesOnce (state S.Store tx.old.conn.now)
        (state S.Store tx.new.conn.now) result }
{
    write_row(
        tx,
        "INSERT INTO house (id, version, clock, rate, zone) VALUES (1, 2, 0, ?1, ?2)",
        params![rate, zone.as_str()],
    )
}

/// Adds a band within a transaction, in cents.
pub(crate) fn put_band<S: Alter>(
    tx: &mut Transaction<'_, S>,
    from: u32,
    step: u32,
) -> Result<(), KeepFault>
    requires laid { HasCleanDisk (state S.Store tx.old.conn.now)
        → IsTrue (state S.Store tx.old.conn.now).is_open
        × IsLaid (state S.Store tx.old.conn.now).now }
    requires begun { HasCleanDisk (state S.Store tx.old.conn.now)
        → IsTrue tx.old.conn.now.in_transaction }
    ensures same_reference { tx.new.conn.ghost_name ≡ tx.old.conn.ghost_name }
    ensures ok { HasCleanDisk (state S.Store tx.new.conn.now)
        → OnOk result (PutsBand from step (state S.Store tx.old.conn.now).now
        (state S.Store tx.new.conn.now).now) }
    ensures sound { ¬ (IsErrOf result Damaged) }
    ensures write { WritesOnce (state S.Store tx.old.conn.now)
        (state S.Store tx.new.conn.now) result }
{
    write_row(
        tx,
        "INSERT INTO band (at, step) VALUES (?1, ?2)",
        params![from, step],
    )
}
