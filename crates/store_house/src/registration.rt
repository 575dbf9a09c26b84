//! New members and categories.
ghost use Rattle.std.specs.Prelude.{◌≡◌, ◌<◌, ◌+◌, ◌^◌, false, length, OnOk, IsErrOf};
ghost use Rattle.sqlite.specs.State.{HasCleanDisk};
ghost use Rattle.sqlite.specs.Held.{state};
ghost use Rattle.house_rows.specs.Asks.{ChangeFits, IsFree};
ghost use Rattle.house_rows.specs.declared.change.Change.TheVariants.{AddCategory, Register};
ghost use Rattle.house_rows.specs.declared.fault.KeepFault.TheVariants.{Damaged};
ghost use Rattle.store_rows.specs.House.{IsBegun};
ghost use Rattle.store_rows.specs.Rows.{categories_in, members_in};
ghost use Rattle.store_rows.specs.Tables.{Changes, IsNumbered, Rests, tables_in};
ghost use Rattle.store_rows.specs.Frames.{WritesMany};
ghost use Rattle.store_rows.specs.Commits.{Commits};

use crate::categories::{category_named, put_category};
use crate::members::{member_named, put_member};
use house_rows::{KeepFault, Text};
use sqlite::{Alter, Connection, Transaction};
use store_rows::{fault_of, set_clock, stored_moment};

// The member and the clock, whether or not the name is free.
fn register_within<S: Alter>(
    tx: &mut Transaction<'_, S>,
    number: u32,
    moment: u32,
    name: &Text,
) -> Result<(), KeepFault>
    requires begun { IsBegun (state S.Store tx.old.conn.now) }
    requires numbered { HasCleanDisk (state S.Store tx.old.conn.now)
        → IsNumbered (state S.Store tx.old.conn.now).now.trees }
    requires next { HasCleanDisk (state S.Store tx.old.conn.now)
        → number ≡ length (members_in (state S.Store tx.old.conn.now).now.trees) + 1 }
    ensures same_reference { tx.new.conn.ghost_name ≡ tx.old.conn.ghost_name }
    ensures ok { HasCleanDisk (state S.Store tx.new.conn.now)
        → OnOk result (Changes (Register moment name.entry) (state S.Store tx.old.conn.now).now
        (state S.Store tx.new.conn.now).now) }
    ensures sound { ¬ (IsErrOf result Damaged) }
    ensures write { WritesMany (state S.Store tx.old.conn.now)
        (state S.Store tx.new.conn.now) result }
{
    put_member(tx, number, name.as_str())?;
    set_clock(tx, moment)
}

// The same, committed.
fn commit_register<S: Alter>(
    conn: &mut Connection<S>,
    number: u32,
    moment: u32,
    name: &Text,
) -> Result<(), KeepFault>
    requires rests { Rests (state S.Store conn.old) }
    requires mode { conn.old.in_transaction ≡ false }
    requires numbered { HasCleanDisk (state S.Store conn.old)
        → number ≡ length (members_in (state S.Store conn.old).now.trees) + 1 }
    ensures commit { Commits (Register moment name.entry) (state S.Store conn.old)
        (state S.Store conn.new) result }
    ensures sound { ¬ (IsErrOf result Damaged) }
{
    let mut tx = conn.transaction();
    register_within(&mut tx, number, moment, name)?;
    match tx.commit() {
        Ok(()) => Ok(()),
        Err(error) => Err(fault_of(error)),
    }
}

/// Registers a member with the next number. The moment is in seconds since 1970-01-01T00:00:00Z. A
/// name that is taken is `Damaged`, and so is a moment of more than 32 bits.
pub fn register<S: Alter>(
    conn: &mut Connection<S>,
    number: u32,
    moment: u64,
    name: &Text,
) -> Result<(), KeepFault>
    requires rests { Rests (state S.Store conn.old) }
    requires mode { conn.old.in_transaction ≡ false }
    requires numbered { HasCleanDisk (state S.Store conn.old)
        → number ≡ length (members_in (state S.Store conn.old).now.trees) + 1 }
    ensures commit { Commits (Register moment name.entry) (state S.Store conn.old)
        (state S.Store conn.new) result }
    ensures taken { HasCleanDisk (state S.Store conn.new)
        → OnOk result (IsFree (tables_in (state S.Store conn.old).now.trees)
        (Register moment name.entry)) }
    ensures moment { OnOk result (moment < 2 ^ 32) }
    ensures damaged { HasCleanDisk (state S.Store conn.new)
        → ChangeFits (tables_in (state S.Store conn.old).now.trees) (Register moment name.entry)
        → IsFree (tables_in (state S.Store conn.old).now.trees) (Register moment name.entry)
        → ¬ (IsErrOf result Damaged) }
{
    let moment = stored_moment(moment)?;
    if member_named(conn, name.as_str())?.is_some() {
        return Err(KeepFault::Damaged);
    }
    commit_register(conn, number, moment, name)
}

// The category and the clock, whether or not the name is free.
fn add_category_within<S: Alter>(
    tx: &mut Transaction<'_, S>,
    number: u32,
    moment: u32,
    name: &Text,
) -> Result<(), KeepFault>
    requires begun { IsBegun (state S.Store tx.old.conn.now) }
    requires numbered { HasCleanDisk (state S.Store tx.old.conn.now)
        → IsNumbered (state S.Store tx.old.conn.now).now.trees }
    requires next { HasCleanDisk (state S.Store tx.old.conn.now)
        → number ≡ length (categories_in (state S.Store tx.old.conn.now).now.trees) + 1 }
    ensures same_reference { tx.new.conn.ghost_name ≡ tx.old.conn.ghost_name }
    ensures ok { HasCleanDisk (state S.Store tx.new.conn.now)
        → OnOk result (Changes (AddCategory moment name.entry) (state S.Store tx.old.conn.now).now
        (state S.Store tx.new.conn.now).now) }
    ensures sound { ¬ (IsErrOf result Damaged) }
    ensures write { WritesMany (state S.Store tx.old.conn.now)
        (state S.Store tx.new.conn.now) result }
{
    put_category(tx, number, name.as_str())?;
    set_clock(tx, moment)
}

// The same, committed.
fn commit_add_category<S: Alter>(
    conn: &mut Connection<S>,
    number: u32,
    moment: u32,
    name: &Text,
) -> Result<(), KeepFault>
    requires rests { Rests (state S.Store conn.old) }
    requires mode { conn.old.in_transaction ≡ false }
    requires numbered { HasCleanDisk (state S.Store conn.old)
        → number ≡ length (categories_in (state S.Store conn.old).now.trees) + 1 }
    ensures commit { Commits (AddCategory moment name.entry) (state S.Store conn.old)
        (state S.Store conn.new) result }
    ensures sound { ¬ (IsErrOf result Damaged) }
{
    let mut tx = conn.transaction();
    add_category_within(&mut tx, number, moment, name)?;
    match tx.commit() {
        Ok(()) => Ok(()),
        Err(error) => Err(fault_of(error)),
    }
}

/// Adds a category with the next number. The moment is in seconds since 1970-01-01T00:00:00Z. A name
/// that is taken is `Damaged`, and so is a moment of more than 32 bits.
pub fn add_category<S: Alter>(
    conn: &mut Connection<S>,
    number: u32,
    moment: u64,
    name: &Text,
) -> Result<(), KeepFault>
    requires rests { Rests (state S.Store conn.old) }
    requires mode { conn.old.in_transaction ≡ false }
    requires numbered { HasCleanDisk (state S.Store conn.old)
        → number ≡ length (categories_in (state S.Store conn.old).now.trees) + 1 }
    ensures commit { Commits (AddCategory moment name.entry) (state S.Store conn.old)
        (state S.Store conn.new) result }
    ensures taken { HasCleanDisk (state S.Store conn.new)
        → OnOk result (IsFree (tables_in (state S.Store conn.old).now.trees)
        (AddCategory moment name.entry)) }
    ensures moment { OnOk result (moment < 2 ^ 32) }
    ensures damaged { HasCleanDisk (state S.Store conn.new)
        → ChangeFits (tables_in (state S.Store conn.old).now.trees) (AddCategory moment name.entry)
        → IsFree (tables_in (state S.Store conn.old).now.trees) (AddCategory moment name.entry)
        → ¬ (IsErrOf result Damaged) }
{
    let moment = stored_moment(moment)?;
    if category_named(conn, name.as_str())?.is_some() {
        return Err(KeepFault::Damaged);
    }
    commit_add_category(conn, number, moment, name)
}
