//! The row of a new item.
ghost use Rattle.std.specs.Prelude.{◌≡◌, ◌<◌, ◌+◌, ◌^◌, false, length, OnOk, IsErrOf};
ghost use Rattle.sqlite.specs.State.{HasCleanDisk};
ghost use Rattle.sqlite.specs.Held.{state};
ghost use Rattle.house_rows.specs.Asks.{ChangeFits, IsFree};
ghost use Rattle.house_rows.specs.Changed.{new_item};
ghost use Rattle.house_rows.specs.declared.change.Change.TheVariants.{List};
ghost use Rattle.house_rows.specs.declared.fault.KeepFault.TheVariants.{Damaged};
ghost use Rattle.store_rows.specs.House.{IsBegun};
ghost use Rattle.store_rows.specs.ItemRows.{items_in};
ghost use Rattle.store_rows.specs.Tables.{Changes, IsNumbered, Rests, tables_in};
ghost use Rattle.store_selling.specs.Listed.{AddsListing, listed};
ghost use Rattle.store_rows.specs.Frames.{WritesMany};
ghost use Rattle.store_rows.specs.Commits.{Commits};

use house_rows::{KeepFault, NewItem};
use sqlite::{Alter, Connection, Transaction};
use store_items::{item_with_lot, put_item};
use store_rows::{fault_of, put_reserve, set_clock, stored_moment};

// The item with its reserve, if it has one.
fn put_listing<S: Alter>(
    tx: &mut Transaction<'_, S>,
    number: u32,
    item: &NewItem<'_>,
    end: u32,
) -> Result<(), KeepFault>
    requires begun { IsBegun (state S.Store tx.old.conn.now) }
    requires numbered { HasCleanDisk (state S.Store tx.old.conn.now)
        → IsNumbered (state S.Store tx.old.conn.now).now.trees }
    requires next { HasCleanDisk (state S.Store tx.old.conn.now)
        → number ≡ length (items_in (state S.Store tx.old.conn.now).now.trees) + 1 }
    ensures same_reference { tx.new.conn.ghost_name ≡ tx.old.conn.ghost_name }
    ensures ok { HasCleanDisk (state S.Store tx.new.conn.now)
        → OnOk result (AddsListing (new_item number (record item.now { end = end }))
        (state S.Store tx.old.conn.now).now (state S.Store tx.new.conn.now).now) }
    ensures sound { ¬ (IsErrOf result Damaged) }
    ensures write { WritesMany (state S.Store tx.old.conn.now)
        (state S.Store tx.new.conn.now) result }
{
    put_item(tx, number, item, end)?;
    match item.reserve {
        Some(reserve) => put_reserve(tx, number, reserve),
        None => Ok(()),
    }
}

// The item and the clock, whether or not its lot is free.
fn list_within<S: Alter>(
    tx: &mut Transaction<'_, S>,
    number: u32,
    moment: u32,
    item: &NewItem<'_>,
    end: u32,
) -> Result<(), KeepFault>
    requires begun { IsBegun (state S.Store tx.old.conn.now) }
    requires numbered { HasCleanDisk (state S.Store tx.old.conn.now)
        → IsNumbered (state S.Store tx.old.conn.now).now.trees }
    requires next { HasCleanDisk (state S.Store tx.old.conn.now)
        → number ≡ length (items_in (state S.Store tx.old.conn.now).now.trees) + 1 }
    ensures same_reference { tx.new.conn.ghost_name ≡ tx.old.conn.ghost_name }
    ensures ok { HasCleanDisk (state S.Store tx.new.conn.now)
        → OnOk result (Changes (listed moment item.now end) (state S.Store tx.old.conn.now).now
        (state S.Store tx.new.conn.now).now) }
    ensures sound { ¬ (IsErrOf result Damaged) }
    ensures write { WritesMany (state S.Store tx.old.conn.now)
        (state S.Store tx.new.conn.now) result }
{
    put_listing(tx, number, item, end)?;
    set_clock(tx, moment)
}

// The same, committed.
fn commit_list<S: Alter>(
    conn: &mut Connection<S>,
    number: u32,
    moment: u32,
    item: &NewItem<'_>,
    end: u32,
) -> Result<(), KeepFault>
    requires rests { Rests (state S.Store conn.old) }
    requires mode { conn.old.in_transaction ≡ false }
    requires numbered { HasCleanDisk (state S.Store conn.old)
        → number ≡ length (items_in (state S.Store conn.old).now.trees) + 1 }
    ensures commit { Commits (listed moment item.now end) (state S.Store conn.old)
        (state S.Store conn.new) result }
    ensures sound { ¬ (IsErrOf result Damaged) }
{
    let mut tx = conn.transaction();
    list_within(&mut tx, number, moment, item, end)?;
    match tx.commit() {
        Ok(()) => Ok(()),
        Err(error) => Err(fault_of(error)),
    }
}

/// Lists an item with the next number, and its reserve, if it has one. The moment is in seconds
/// since 1970-01-01T00:00:00Z. Where the seller has an item with the lot, it is `Damaged`, and so
/// is a moment or an end of more than 32 bits.
pub fn list<S: Alter>(
    conn: &mut Connection<S>,
    number: u32,
    moment: u64,
    item: &NewItem<'_>,
) -> Result<(), KeepFault>
    requires rests { Rests (state S.Store conn.old) }
    requires mode { conn.old.in_transaction ≡ false }
    requires numbered { HasCleanDisk (state S.Store conn.old)
        → number ≡ length (items_in (state S.Store conn.old).now.trees) + 1 }
    ensures commit { Commits (List moment item.now) (state S.Store conn.old)
        (state S.Store conn.new) result }
    ensures taken { HasCleanDisk (state S.Store conn.new)
        → OnOk result (IsFree (tables_in (state S.Store conn.old).now.trees)
        (List moment item.now)) }
    ensures moment { OnOk result (moment < 2 ^ 32) }
    ensures end { OnOk result (item.now.end < 2 ^ 32) }
    ensures damaged { HasCleanDisk (state S.Store conn.new)
        → ChangeFits (tables_in (state S.Store conn.old).now.trees) (List moment item.now)
        → IsFree (tables_in (state S.Store conn.old).now.trees) (List moment item.now)
        → ¬ (IsErrOf result Damaged) }
{
    let moment = stored_moment(moment)?;
    let end = stored_moment(item.end)?;
    if item_with_lot(conn, item.seller, item.lot.as_str())?.is_some() {
        return Err(KeepFault::Damaged);
    }
    commit_list(conn, number, moment, item, end)
}
