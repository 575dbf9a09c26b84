//! The table of watches.
ghost use Rattle.std.specs.Prelude.{◌≡◌, OnOk, IsErrOf};
ghost use Rattle.sqlite.specs.State.{HasCleanDisk};
ghost use Rattle.sqlite.specs.Held.{state};
ghost use Rattle.house_rows.specs.declared.fault.KeepFault.TheVariants.{Damaged};
ghost use Rattle.store_rows.specs.House.{IsBegun, AddsWatch, RemovesWatch};
ghost use Rattle.store_rows.specs.Frames.{WritesOnce};

use house_rows::KeepFault;
use sqlite::{Alter, Transaction, params};
use store_rows::run;

/// Adds a member's watch of an item within a transaction.
pub(crate) fn put_watch<S: Alter>(
    tx: &mut Transaction<'_, S>,
    member: u32,
    item: u32,
) -> Result<(), KeepFault>
    requires { IsBegun (state S.Store tx.old.conn.now) }
    ensures same_reference { tx.new.conn.ghost_name ≡ tx.old.conn.ghost_name }
    ensures ok { HasCleanDisk (state S.Store tx.new.conn.now)
        → OnOk result (AddsWatch (record { member = member; item = item })
        (state S.Store tx.old.conn.now).now (state S.Store tx.new.conn.now).now) }
    ensures sound { ¬ (IsErrOf result Damaged) }
    ensures write { WritesOnce (state S.Store tx.old.conn.now)
        (state S.Store tx.new.conn.now) result }
{
    run(
        tx,
        "INSERT INTO watch (member, item) VALUES (?1, ?2)",
        params![member, item],
    )
}

/// Takes a member's watch of an item away within a transaction, if it is there.
pub(crate) fn cut_watch<S: Alter>(
    tx: &mut Transaction<'_, S>,
    member: u32,
    item: u32,
) -> Result<(), KeepFault>
    requires { IsBegun (state S.Store tx.old.conn.now) }
    ensures same_reference { tx.new.conn.ghost_name ≡ tx.old.conn.ghost_name }
    ensures ok { HasCleanDisk (state S.Store tx.new.conn.now)
        → OnOk result (RemovesWatch member item (state S.Store tx.old.conn.now).now
        (state S.Store tx.new.conn.now).now) }
    ensures sound { ¬ (IsErrOf result Damaged) }
    ensures write { WritesOnce (state S.Store tx.old.conn.now)
        (state S.Store tx.new.conn.now) result }
{
    run(
        tx,
        "DELETE FROM watch WHERE member = ?1 AND item = ?2",
        params![member, item],
    )
}
