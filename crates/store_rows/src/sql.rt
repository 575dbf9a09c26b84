//! What every statement on a house, and every commit, leaves beside its answer.
ghost use Rattle.std.specs.Prelude.{◌≡◌, ◌≢◌, ◌↔◌, ◌≤◌, ◌^◌, ℕ, Ok, false, IfErr, IfOk, OnOk, IsErrOf, IsTrue, OnErr};
ghost use Rattle.house_rows.specs.declared.fault.KeepFault.TheVariants.{Damaged, Memory};
ghost use Rattle.sqlite.specs.declared.error.Error.TheVariants.{SqliteFailure};
ghost use Rattle.sqlite.specs.declared.error.ErrorCode.TheVariants.{OutOfMemory};
ghost use Rattle.sqlite.specs.State.{HasCleanDisk, Executes, IsUnchanged, Shown, Survives, IsRolledBack, Shows};
ghost use Rattle.sqlite.specs.Values.{bound};
ghost use Rattle.sqlite.specs.Held.{state};
ghost use Rattle.store_rows.specs.House.{IsBegun, IsHouse, KeepsCommitted, Serves};
ghost use Rattle.store_rows.specs.Frames.{WritesOnce, OnlyReads};
ghost use Rattle.house_rows.specs.Fits.{IsMoment};
ghost use Rattle.store_rows.specs.Statements.{AlwaysPlain};

use house_rows::KeepFault;
use sqlite::types::ValueRef;
use sqlite::{Alter, Connection, Error, ErrorCode, Row, Transaction};

/// Whether the connection still serves: a failure of the disk shuts it, and where it was out of
/// memory nothing else says that it is open.
pub fn is_still_open<S: Alter>(conn: &mut Connection<S>) -> bool
    ensures same { HasCleanDisk (state S.Store conn.new)
        → IsTrue result
        → IsUnchanged (state S.Store conn.old) (state S.Store conn.new) }
    ensures kept { HasCleanDisk (state S.Store conn.new)
        → KeepsCommitted (state S.Store conn.old) (state S.Store conn.new) }
    ensures mode { conn.old.in_transaction ≡ false → conn.new.in_transaction ≡ false }
    ensures crash { Survives (state S.Store conn.old) (state S.Store conn.new) (λ _. ⊥) }
{
    conn.prepare("SELECT 1").is_ok()
}

/// Why a statement, a commit or an opening failed: it was out of memory, or else the store failed.
pub fn fault_of(error: Error) -> KeepFault
    ensures memory { (result ≡ Memory) ↔ (error ≡ SqliteFailure OutOfMemory) }
    ensures sound { result ≢ Damaged }
{
    match error {
        Error::SqliteFailure(ErrorCode::OutOfMemory) => KeepFault::Memory,
        _ => KeepFault::Store,
    }
}

/// The rows that a query shows. It changes nothing, and is never damaged.
pub fn rows_shown<S: Alter>(
    conn: &mut Connection<S>,
    sql: &str,
    params: &[ValueRef<'_>],
) -> Result<Vec<Row>, KeepFault>
    requires serves { Serves (state S.Store conn.old) }
    requires plain { AlwaysPlain sql.now }
    ensures house { HasCleanDisk (state S.Store conn.new) → IsHouse (state S.Store conn.old).now }
    ensures rows { HasCleanDisk (state S.Store conn.new)
        → IfOk result (λ rows. Shown sql.now (bound params.now) (state S.Store conn.old)
        (state S.Store conn.new) rows.items) }
    ensures sound { ¬ (IsErrOf result Damaged) }
    ensures read { OnlyReads (state S.Store conn.old) (state S.Store conn.new) result }
{
    match conn.query_all(sql, params) {
        Ok(rows) => Ok(rows),
        Err(error) => Err(fault_of(error)),
    }
}

/// Runs a write within a transaction. It is never damaged: what breaks a rule of the schema is a failure.
pub fn run<S: Alter>(
    tx: &mut Transaction<'_, S>,
    sql: &str,
    params: &[ValueRef<'_>],
) -> Result<(), KeepFault>
    requires { IsBegun (state S.Store tx.old.conn.now) }
    ensures same_reference { tx.new.conn.ghost_name ≡ tx.old.conn.ghost_name }
    ensures house { HasCleanDisk (state S.Store tx.new.conn.now)
        → IsHouse (state S.Store tx.old.conn.now).now }
    ensures ran { HasCleanDisk (state S.Store tx.new.conn.now)
        → OnOk result ((count : ℕ) × Executes sql.now (bound params.now)
        (state S.Store tx.old.conn.now) (state S.Store tx.new.conn.now) (Ok count)) }
    ensures sound { ¬ (IsErrOf result Damaged) }
    ensures write { WritesOnce (state S.Store tx.old.conn.now)
        (state S.Store tx.new.conn.now) result }
{
    match tx.execute(sql, params) {
        Ok(_) => Ok(()),
        Err(error) => Err(fault_of(error)),
    }
}

/// A moment as a parameter of 32 bits; Damaged where it has more.
pub fn stored_moment(moment: u64) -> Result<u32, KeepFault>
    ensures value { IfOk result (λ m. m ≡ moment) }
    ensures damaged { IsMoment moment → ¬ (IsErrOf result Damaged) }
    ensures err { IfErr result (λ fault. (fault ≡ Damaged) × (2 ^ 32 ≤ moment)) }
{
    match u32::try_from(moment) {
        Ok(moment) => Ok(moment),
        Err(_) => Err(KeepFault::Damaged),
    }
}

/// Commits: what the transaction sees is then what is kept.
pub fn commit<S: Alter>(tx: Transaction<'_, S>) -> Result<(), KeepFault>
    ensures ended { tx.exit.0.now.in_transaction ≡ false }
    ensures ok { HasCleanDisk (state S.Store tx.exit.0.now)
        → OnOk result (IsTrue (state S.Store tx.entry.conn.now).in_transaction
        × Shows (state S.Store tx.entry.conn.now) (state S.Store tx.exit.0.now)
        (state S.Store tx.entry.conn.now).now (state S.Store tx.entry.conn.now).now false) }
    ensures sound { ¬ (IsErrOf result Damaged) }
    ensures err { HasCleanDisk (state S.Store tx.exit.0.now)
        → IsTrue (state S.Store tx.entry.conn.now).in_transaction
        → OnErr result (IsRolledBack (state S.Store tx.entry.conn.now)
        (state S.Store tx.exit.0.now)) }
    ensures crash { Survives (state S.Store tx.entry.conn.now) (state S.Store tx.exit.0.now)
        (λ db. db ≡ (state S.Store tx.entry.conn.now).now.trees) }
{
    match tx.commit() {
        Ok(()) => Ok(()),
        Err(error) => Err(fault_of(error)),
    }
}
