//! The statements that make the tables and then their indexes, in an empty database.
ghost use Rattle.std.specs.Prelude.{◌≡◌, ◌<◌, ◌+◌, [], OnOk, IsErrOf, IsTrue};
ghost use Rattle.sqlite.specs.State.{HasCleanDisk};
ghost use Rattle.sqlite.specs.Held.{state};
ghost use Rattle.house_rows.specs.declared.fault.KeepFault.TheVariants.{Damaged};
ghost use Rattle.store_rows.specs.Making.{IsBlank};
ghost use Rattle.store_rows.specs.Frames.{WritesOnce, WritesMany};
ghost use Rattle.store_making.specs.Made.{HasBands, IsMadeWith, later_making_at};

use house_rows::KeepFault;
use sqlite::{Alter, Transaction};
use store_rows::{FIRST_STEPS, OLDER_STEPS, fault_of, make_steps, step_text};

// How many of the tables come first in either order.
const SAME_STEPS: usize = 9;

// How many tables are left, which version 2 adds.
const LATER_TABLES: usize = 3;

// How many statements make these and the indexes that older houses have.
const OLDER_LATER_STEPS: usize = 10;

// How many make these and all indexes.
const LATER_STEPS: usize = 11;

// The text of a step: the tables that are left, and then the indexes.
#[tactic(auto, using(crate::proofs::MadeSteps::table_is, crate::proofs::MadeSteps::index_is, crate::proofs::MadeSteps::last_is))]
fn later_text(step: usize) -> &'static str
    requires { step < LATER_STEPS }
    ensures { result.now ≡ later_making_at step }
{
    if step < LATER_TABLES {
        step_text(FIRST_STEPS + step)
    } else if step < OLDER_LATER_STEPS {
        step_text(SAME_STEPS + step - LATER_TABLES)
    } else {
        step_text(OLDER_STEPS)
    }
}

// Runs one step.
fn make_later_step<S: Alter>(tx: &mut Transaction<'_, S>, step: usize) -> Result<(), KeepFault>
    requires step { step < LATER_STEPS }
    requires before { HasCleanDisk (state S.Store tx.old.conn.now)
        → IsTrue (state S.Store tx.old.conn.now).is_open
        × IsMadeWith step (state S.Store tx.old.conn.now).now }
    requires begun { HasCleanDisk (state S.Store tx.old.conn.now)
        → IsTrue tx.old.conn.now.in_transaction }
    ensures same_reference { tx.new.conn.ghost_name ≡ tx.old.conn.ghost_name }
    ensures ok { HasCleanDisk (state S.Store tx.new.conn.now)
        → OnOk result (IsMadeWith (step + 1) (state S.Store tx.new.conn.now).now) }
    ensures sound { ¬ (IsErrOf result Damaged) }
    ensures write { WritesOnce (state S.Store tx.old.conn.now)
        (state S.Store tx.new.conn.now) result }
{
    match tx.execute(later_text(step), &[]) {
        Ok(_) => Ok(()),
        Err(error) => Err(fault_of(error)),
    }
}

// Makes what is left after the first nine tables.
fn make_later<S: Alter>(tx: &mut Transaction<'_, S>) -> Result<(), KeepFault>
    requires before { HasCleanDisk (state S.Store tx.old.conn.now)
        → IsTrue (state S.Store tx.old.conn.now).is_open
        × IsMadeWith 0 (state S.Store tx.old.conn.now).now }
    requires begun { HasCleanDisk (state S.Store tx.old.conn.now)
        → IsTrue tx.old.conn.now.in_transaction }
    ensures same_reference { tx.new.conn.ghost_name ≡ tx.old.conn.ghost_name }
    ensures ok { HasCleanDisk (state S.Store tx.new.conn.now)
        → OnOk result (IsMadeWith LATER_STEPS (state S.Store tx.new.conn.now).now) }
    ensures sound { ¬ (IsErrOf result Damaged) }
    ensures write { WritesMany (state S.Store tx.old.conn.now)
        (state S.Store tx.new.conn.now) result }
{
    for step in 0..LATER_STEPS {
        make_later_step(tx, step)?;
    }
    Ok(())
}

/// Makes the tables and then their indexes within a transaction, in a database that has none. After an
/// error nothing is committed: the transaction is to be dropped.
#[tactic(auto, using(crate::proofs::MadeSteps::first_made, crate::proofs::MadeHouses::none_laid))]
pub(crate) fn make_tables<S: Alter>(tx: &mut Transaction<'_, S>) -> Result<(), KeepFault>
    requires blank { IsBlank (state S.Store tx.old.conn.now) }
    requires begun { HasCleanDisk (state S.Store tx.old.conn.now)
        → IsTrue tx.old.conn.now.in_transaction }
    ensures same_reference { tx.new.conn.ghost_name ≡ tx.old.conn.ghost_name }
    ensures ok { HasCleanDisk (state S.Store tx.new.conn.now)
        → OnOk result (HasBands [] (state S.Store tx.new.conn.now).now) }
    ensures sound { ¬ (IsErrOf result Damaged) }
    ensures write { WritesMany (state S.Store tx.old.conn.now)
        (state S.Store tx.new.conn.now) result }
{
    make_steps(tx, SAME_STEPS)?;
    make_later(tx)
}
