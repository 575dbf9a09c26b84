//! Questions on items.
ghost use Rattle.std.specs.Prelude.{◌≡◌, false, OnOk, IsErrOf};
ghost use Rattle.sqlite.specs.State.{HasCleanDisk};
ghost use Rattle.sqlite.specs.Held.{state};
ghost use Rattle.house_rows.specs.Asks.{IsFree};
ghost use Rattle.house_rows.specs.declared.change.Change.TheVariants.{Ask};
ghost use Rattle.house_rows.specs.declared.fault.KeepFault.TheVariants.{Damaged};
ghost use Rattle.store_rows.specs.House.{IsBegun};
ghost use Rattle.store_rows.specs.Tables.{Changes, IsNumbered, Rests, tables_in};
ghost use Rattle.store_rows.specs.Frames.{WritesMany};
ghost use Rattle.store_rows.specs.Commits.{Commits};

use crate::questions::{put_question, question_at};
use house_rows::{KeepFault, Text};
use sqlite::{Alter, Connection, Transaction};
use store_rows::fault_of;

// The question, whether or not its key is free.
fn ask_within<S: Alter>(
    tx: &mut Transaction<'_, S>,
    item: u32,
    asker: u32,
    number: u32,
    text: &Text,
) -> Result<(), KeepFault>
    requires begun { IsBegun (state S.Store tx.old.conn.now) }
    requires numbered { HasCleanDisk (state S.Store tx.old.conn.now)
        → IsNumbered (state S.Store tx.old.conn.now).now.trees }
    ensures same_reference { tx.new.conn.ghost_name ≡ tx.old.conn.ghost_name }
    ensures ok { HasCleanDisk (state S.Store tx.new.conn.now)
        → OnOk result (Changes (Ask item asker number text.entry)
        (state S.Store tx.old.conn.now).now (state S.Store tx.new.conn.now).now) }
    ensures sound { ¬ (IsErrOf result Damaged) }
    ensures write { WritesMany (state S.Store tx.old.conn.now)
        (state S.Store tx.new.conn.now) result }
{
    put_question(tx, item, asker, number, text.as_str())
}

// The same, committed.
fn commit_ask<S: Alter>(
    conn: &mut Connection<S>,
    item: u32,
    asker: u32,
    number: u32,
    text: &Text,
) -> Result<(), KeepFault>
    requires rests { Rests (state S.Store conn.old) }
    requires mode { conn.old.in_transaction ≡ false }
    ensures commit { Commits (Ask item asker number text.entry) (state S.Store conn.old)
        (state S.Store conn.new) result }
    ensures sound { ¬ (IsErrOf result Damaged) }
{
    let mut tx = conn.transaction();
    ask_within(&mut tx, item, asker, number, text)?;
    match tx.commit() {
        Ok(()) => Ok(()),
        Err(error) => Err(fault_of(error)),
    }
}

/// Asks a question on an item, `number` among this asker's there. A key that is taken is `Damaged`.
pub fn ask<S: Alter>(
    conn: &mut Connection<S>,
    item: u32,
    asker: u32,
    number: u32,
    text: &Text,
) -> Result<(), KeepFault>
    requires rests { Rests (state S.Store conn.old) }
    requires mode { conn.old.in_transaction ≡ false }
    ensures commit { Commits (Ask item asker number text.entry) (state S.Store conn.old)
        (state S.Store conn.new) result }
    ensures taken { HasCleanDisk (state S.Store conn.new)
        → OnOk result (IsFree (tables_in (state S.Store conn.old).now.trees)
        (Ask item asker number text.entry)) }
    ensures damaged { HasCleanDisk (state S.Store conn.new)
        → IsFree (tables_in (state S.Store conn.old).now.trees) (Ask item asker number text.entry)
        → ¬ (IsErrOf result Damaged) }
{
    if question_at(conn, item, asker, number)?.is_some() {
        return Err(KeepFault::Damaged);
    }
    commit_ask(conn, item, asker, number, text)
}
