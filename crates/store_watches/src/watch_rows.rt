//! What members watch.
ghost use Rattle.std.specs.Prelude.{◌≡◌, false, OnOk, IsErrOf};
ghost use Rattle.sqlite.specs.State.{HasCleanDisk};
ghost use Rattle.sqlite.specs.Held.{state};
ghost use Rattle.house_rows.specs.declared.change.Change.TheVariants.{Unwatch, Watch};
ghost use Rattle.house_rows.specs.declared.fault.KeepFault.TheVariants.{Damaged};
ghost use Rattle.store_rows.specs.House.{IsBegun};
ghost use Rattle.store_rows.specs.Tables.{Changes, IsNumbered, Rests};
ghost use Rattle.store_rows.specs.Frames.{WritesMany};
ghost use Rattle.store_rows.specs.Commits.{Commits};

use crate::rows::{cut_watch, put_watch};
use house_rows::KeepFault;
use sqlite::{Alter, Connection, Transaction};
use store_rows::fault_of;

// Takes the watch away.
fn unwatch_within<S: Alter>(
    tx: &mut Transaction<'_, S>,
    member: u32,
    item: u32,
) -> Result<(), KeepFault>
    requires begun { IsBegun (state S.Store tx.old.conn.now) }
    requires numbered { HasCleanDisk (state S.Store tx.old.conn.now)
        → IsNumbered (state S.Store tx.old.conn.now).now.trees }
    ensures same_reference { tx.new.conn.ghost_name ≡ tx.old.conn.ghost_name }
    ensures ok { HasCleanDisk (state S.Store tx.new.conn.now)
        → OnOk result (Changes (Unwatch member item) (state S.Store tx.old.conn.now).now
        (state S.Store tx.new.conn.now).now) }
    ensures sound { ¬ (IsErrOf result Damaged) }
    ensures write { WritesMany (state S.Store tx.old.conn.now)
        (state S.Store tx.new.conn.now) result }
{
    cut_watch(tx, member, item)
}

/// A member watches an item no longer.
pub fn unwatch<S: Alter>(conn: &mut Connection<S>, member: u32, item: u32) -> Result<(), KeepFault>
    requires rests { Rests (state S.Store conn.old) }
    requires mode { conn.old.in_transaction ≡ false }
    ensures commit { Commits (Unwatch member item) (state S.Store conn.old)
        (state S.Store conn.new) result }
    ensures sound { ¬ (IsErrOf result Damaged) }
{
    let mut tx = conn.transaction();
    unwatch_within(&mut tx, member, item)?;
    match tx.commit() {
        Ok(()) => Ok(()),
        Err(error) => Err(fault_of(error)),
    }
}

// Takes the watch away, if it is there, and puts it.
fn watch_within<S: Alter>(
    tx: &mut Transaction<'_, S>,
    member: u32,
    item: u32,
) -> Result<(), KeepFault>
    requires begun { IsBegun (state S.Store tx.old.conn.now) }
    requires numbered { HasCleanDisk (state S.Store tx.old.conn.now)
        → IsNumbered (state S.Store tx.old.conn.now).now.trees }
    ensures same_reference { tx.new.conn.ghost_name ≡ tx.old.conn.ghost_name }
    ensures ok { HasCleanDisk (state S.Store tx.new.conn.now)
        → OnOk result (Changes (Watch member item) (state S.Store tx.old.conn.now).now
        (state S.Store tx.new.conn.now).now) }
    ensures sound { ¬ (IsErrOf result Damaged) }
    ensures write { WritesMany (state S.Store tx.old.conn.now)
        (state S.Store tx.new.conn.now) result }
{
    cut_watch(tx, member, item)?;
    put_watch(tx, member, item)
}

/// A member watches an item, if it doesn't yet.
pub fn watch<S: Alter>(conn: &mut Connection<S>, member: u32, item: u32) -> Result<(), KeepFault>
    requires rests { Rests (state S.Store conn.old) }
    requires mode { conn.old.in_transaction ≡ false }
    ensures commit { Commits (Watch member item) (state S.Store conn.old)
        (state S.Store conn.new) result }
    ensures sound { ¬ (IsErrOf result Damaged) }
{
    let mut tx = conn.transaction();
    watch_within(&mut tx, member, item)?;
    match tx.commit() {
        Ok(()) => Ok(()),
        Err(error) => Err(fault_of(error)),
    }
}
