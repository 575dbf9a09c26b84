//! Answers to questions.
ghost use Rattle.std.specs.Prelude.{◌≡◌, ◌<◌, ◌^◌, false, OnOk, IsErrOf};
ghost use Rattle.sqlite.specs.State.{HasCleanDisk};
ghost use Rattle.sqlite.specs.Held.{state};
ghost use Rattle.house_rows.specs.Fits.{IsMoment};
ghost use Rattle.house_rows.specs.declared.change.Change.TheVariants.{Answer};
ghost use Rattle.house_rows.specs.declared.fault.KeepFault.TheVariants.{Damaged};
ghost use Rattle.store_rows.specs.House.{IsBegun};
ghost use Rattle.store_rows.specs.Tables.{Changes, IsNumbered, Rests};
ghost use Rattle.store_rows.specs.Frames.{WritesMany};
ghost use Rattle.store_rows.specs.Commits.{Commits};

use crate::questions::set_answer;
use house_rows::{KeepFault, Text};
use sqlite::{Alter, Connection, Transaction};
use store_rows::{fault_of, set_clock, stored_moment};

// The answer and the clock.
fn answer_within<S: Alter>(
    tx: &mut Transaction<'_, S>,
    moment: u32,
    item: u32,
    asker: u32,
    number: u32,
    text: &Text,
) -> Result<(), KeepFault>
    requires begun { IsBegun (state S.Store tx.old.conn.now) }
    requires numbered { HasCleanDisk (state S.Store tx.old.conn.now)
        → IsNumbered (state S.Store tx.old.conn.now).now.trees }
    ensures same_reference { tx.new.conn.ghost_name ≡ tx.old.conn.ghost_name }
    ensures ok { HasCleanDisk (state S.Store tx.new.conn.now)
        → OnOk result (Changes (Answer moment item asker number text.entry)
        (state S.Store tx.old.conn.now).now (state S.Store tx.new.conn.now).now) }
    ensures sound { ¬ (IsErrOf result Damaged) }
    ensures write { WritesMany (state S.Store tx.old.conn.now)
        (state S.Store tx.new.conn.now) result }
{
    set_answer(tx, item, asker, number, text.as_str())?;
    set_clock(tx, moment)
}

// The same, committed.
fn commit_answer<S: Alter>(
    conn: &mut Connection<S>,
    moment: u32,
    item: u32,
    asker: u32,
    number: u32,
    text: &Text,
) -> Result<(), KeepFault>
    requires rests { Rests (state S.Store conn.old) }
    requires mode { conn.old.in_transaction ≡ false }
    ensures commit { Commits (Answer moment item asker number text.entry) (state S.Store conn.old)
        (state S.Store conn.new) result }
    ensures sound { ¬ (IsErrOf result Damaged) }
{
    let mut tx = conn.transaction();
    answer_within(&mut tx, moment, item, asker, number, text)?;
    match tx.commit() {
        Ok(()) => Ok(()),
        Err(error) => Err(fault_of(error)),
    }
}

/// Answers the question of a key, if there is one. The moment is in seconds since
/// 1970-01-01T00:00:00Z; one of more than 32 bits is `Damaged`.
pub fn answer<S: Alter>(
    conn: &mut Connection<S>,
    moment: u64,
    item: u32,
    asker: u32,
    number: u32,
    text: &Text,
) -> Result<(), KeepFault>
    requires rests { Rests (state S.Store conn.old) }
    requires mode { conn.old.in_transaction ≡ false }
    ensures commit { Commits (Answer moment item asker number text.entry) (state S.Store conn.old)
        (state S.Store conn.new) result }
    ensures moment { OnOk result (moment < 2 ^ 32) }
    ensures damaged { IsMoment moment → ¬ (IsErrOf result Damaged) }
{
    let moment = stored_moment(moment)?;
    commit_answer(conn, moment, item, asker, number, text)
}
