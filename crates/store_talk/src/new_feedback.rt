//! Feedback between the parties of a sale.
ghost use Rattle.std.specs.Prelude.{◌≡◌, ◌<◌, ◌^◌, ◌==◌, false, OnOk, IsErrOf};
ghost use Rattle.std.specs.List.{list_any};
ghost use Rattle.sqlite.specs.State.{HasCleanDisk};
ghost use Rattle.sqlite.specs.Held.{state};
ghost use Rattle.house_rows.specs.Asks.{IsFree};
ghost use Rattle.house_rows.specs.Fits.{FeedbackFits, IsMoment};
ghost use Rattle.house_rows.specs.Taken.{FitWhere};
ghost use Rattle.house_rows.specs.declared.change.Change.TheVariants.{Feedback};
ghost use Rattle.house_rows.specs.declared.fault.KeepFault.TheVariants.{Damaged};
ghost use Rattle.store_rows.specs.House.{IsBegun};
ghost use Rattle.store_rows.specs.Tables.{Changes, IsNumbered, Rests, tables_in};
ghost use Rattle.store_rows.specs.Frames.{WritesMany};
ghost use Rattle.store_rows.specs.Commits.{Commits};
ghost use Rattle.store_talk.specs.Taken.{has_feedback_key};

use crate::feedback::put_feedback;
use crate::given::is_given;
use house_rows::{KeepFault, Rating, Text};
use sqlite::{Alter, Connection, Transaction};
use store_rows::{fault_of, set_clock, stored_moment};

// The feedback and the clock, whether or not its key is free.
fn give_within<S: Alter>(
    tx: &mut Transaction<'_, S>,
    moment: u32,
    item: u32,
    from: u32,
    to: u32,
    rating: Rating,
    text: &Text,
) -> Result<(), KeepFault>
    requires begun { IsBegun (state S.Store tx.old.conn.now) }
    requires numbered { HasCleanDisk (state S.Store tx.old.conn.now)
        → IsNumbered (state S.Store tx.old.conn.now).now.trees }
    ensures same_reference { tx.new.conn.ghost_name ≡ tx.old.conn.ghost_name }
    ensures ok { HasCleanDisk (state S.Store tx.new.conn.now)
        → OnOk result (Changes (Feedback moment item from to rating text.entry)
        (state S.Store tx.old.conn.now).now (state S.Store tx.new.conn.now).now) }
    ensures sound { ¬ (IsErrOf result Damaged) }
    ensures write { WritesMany (state S.Store tx.old.conn.now)
        (state S.Store tx.new.conn.now) result }
{
    put_feedback(tx, item, from, to, rating, text.as_str())?;
    set_clock(tx, moment)
}

// The same, committed.
fn commit_feedback<S: Alter>(
    conn: &mut Connection<S>,
    moment: u32,
    item: u32,
    from: u32,
    to: u32,
    rating: Rating,
    text: &Text,
) -> Result<(), KeepFault>
    requires rests { Rests (state S.Store conn.old) }
    requires mode { conn.old.in_transaction ≡ false }
    ensures commit { Commits (Feedback moment item from to rating text.entry)
        (state S.Store conn.old) (state S.Store conn.new) result }
    ensures sound { ¬ (IsErrOf result Damaged) }
{
    let mut tx = conn.transaction();
    give_within(&mut tx, moment, item, from, to, rating, text)?;
    match tx.commit() {
        Ok(()) => Ok(()),
        Err(error) => Err(fault_of(error)),
    }
}

/// Gives a member feedback on an item. The moment is in seconds since 1970-01-01T00:00:00Z. Where
/// a row has this item and giver, also one that doesn't fit, it is `Damaged`, and so is a moment of
/// more than 32 bits.
pub fn give_feedback<S: Alter>(
    conn: &mut Connection<S>,
    moment: u64,
    item: u32,
    from: u32,
    to: u32,
    rating: Rating,
    text: &Text,
) -> Result<(), KeepFault>
    requires rests { Rests (state S.Store conn.old) }
    requires mode { conn.old.in_transaction ≡ false }
    ensures commit { Commits (Feedback moment item from to rating text.entry)
        (state S.Store conn.old) (state S.Store conn.new) result }
    ensures taken { HasCleanDisk (state S.Store conn.new)
        → OnOk result (IsFree (tables_in (state S.Store conn.old).now.trees)
        (Feedback moment item from to rating text.entry)) }
    ensures key { HasCleanDisk (state S.Store conn.new)
        → OnOk result (list_any (has_feedback_key item from)
        ((state S.Store conn.old).now.trees 14) ≡ false) }
    ensures moment { OnOk result (moment < 2 ^ 32) }
    ensures damaged { HasCleanDisk (state S.Store conn.new)
        → FitWhere (λ f. f.from == from) FeedbackFits
        (tables_in (state S.Store conn.old).now.trees).feedback
        → IsMoment moment
        → IsFree (tables_in (state S.Store conn.old).now.trees)
        (Feedback moment item from to rating text.entry)
        → ¬ (IsErrOf result Damaged) }
{
    let moment = stored_moment(moment)?;
    let given = is_given(conn, item, from)?;
    if given {
        return Err(KeepFault::Damaged);
    }
    commit_feedback(conn, moment, item, from, to, rating, text)
}
