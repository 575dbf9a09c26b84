//! A transaction that statements of the connection begin and end. Queries can be asked within it.
ghost use Rattle.std.specs.Prelude.{◌≡◌, ℕ, true, false, Ok, OnErr, OnOk, IsErrOf, IsTrue};
ghost use Rattle.house_rows.specs.declared.fault.KeepFault.TheVariants.{Damaged};
ghost use Rattle.sqlite.specs.State.{HasCleanDisk, Executes, KeepsCommit, Shows, Survives};
ghost use Rattle.sqlite.specs.Listing.{understood};
ghost use Rattle.sqlite.specs.Values.{bound};
ghost use Rattle.sqlite.specs.Held.{state};
ghost use Rattle.store_rows.specs.Begun.{StaysInside};

use crate::sql::fault_of;
use house_rows::KeepFault;
use sqlite::types::ValueRef;
use sqlite::{Alter, Connection};

/// Begins one. After an error the connection is to be dropped.
pub fn begin<S: Alter>(conn: &mut Connection<S>) -> Result<(), KeepFault>
    ensures ok { HasCleanDisk (state S.Store conn.new)
        → OnOk result (Shows (state S.Store conn.old) (state S.Store conn.new)
        (state S.Store conn.old).now (state S.Store conn.old).committed true) }
    ensures sound { ¬ (IsErrOf result Damaged) }
    ensures crash { Survives (state S.Store conn.old) (state S.Store conn.new) (λ _. ⊥) }
{
    match conn.execute("BEGIN", &[]) {
        Ok(_) => Ok(()),
        Err(error) => Err(fault_of(error)),
    }
}

/// Runs a write within it.
pub(crate) fn run_begun<S: Alter>(
    conn: &mut Connection<S>,
    sql: &str,
    params: &[ValueRef<'_>],
) -> Result<(), KeepFault>
    requires begun { HasCleanDisk (state S.Store conn.old) → IsTrue conn.old.in_transaction }
    requires inner { HasCleanDisk (state S.Store conn.old)
        → StaysInside (understood conn.old.schema sql.now) }
    ensures ran { HasCleanDisk (state S.Store conn.new)
        → OnOk result ((count : ℕ) × Executes sql.now (bound params.now)
        (state S.Store conn.old) (state S.Store conn.new) (Ok count)) }
    ensures sound { ¬ (IsErrOf result Damaged) }
    ensures crash { Survives (state S.Store conn.old) (state S.Store conn.new) (λ _. ⊥) }
{
    match conn.execute(sql, params) {
        Ok(_) => Ok(()),
        Err(error) => Err(fault_of(error)),
    }
}

/// Commits what was written within it. After an error the connection is to be dropped.
pub fn end<S: Alter>(conn: &mut Connection<S>) -> Result<(), KeepFault>
    requires begun { HasCleanDisk (state S.Store conn.old) → IsTrue conn.old.in_transaction }
    ensures ok { HasCleanDisk (state S.Store conn.new)
        → OnOk result (Shows (state S.Store conn.old) (state S.Store conn.new)
        (state S.Store conn.old).now (state S.Store conn.old).now false) }
    ensures err { HasCleanDisk (state S.Store conn.new)
        → OnErr result (KeepsCommit (state S.Store conn.old) (state S.Store conn.new)) }
    ensures sound { ¬ (IsErrOf result Damaged) }
    ensures crash { Survives (state S.Store conn.old) (state S.Store conn.new)
        (λ db. db ≡ (state S.Store conn.old).now.trees) }
{
    match conn.execute("COMMIT", &[]) {
        Ok(_) => Ok(()),
        Err(error) => Err(fault_of(error)),
    }
}
