//! A band table is set.
ghost use Rattle.std.specs.Prelude.{◌≡◌, ◌<◌, ◌+◌, ◌^◌, false, length, OnOk, IsErrOf};
ghost use Rattle.sqlite.specs.State.{HasCleanDisk};
ghost use Rattle.sqlite.specs.Held.{state};
ghost use Rattle.steps.specs.Table.{IsBandTable};
ghost use Rattle.house_rows.specs.Fits.{IsMoment};
ghost use Rattle.house_rows.specs.declared.change.Change.TheVariants.{SetBands};
ghost use Rattle.house_rows.specs.declared.fault.KeepFault.TheVariants.{Damaged};
ghost use Rattle.store_rows.specs.Commits.{Commits};
ghost use Rattle.store_rows.specs.Frames.{WritesMany};
ghost use Rattle.store_rows.specs.House.{IsBegun};
ghost use Rattle.store_rows.specs.ItemRows.{items_in};
ghost use Rattle.store_rows.specs.Rows.{edition_rows_in};
ghost use Rattle.store_rows.specs.Tables.{Changes, IsNumbered, Rests};
ghost use Rattle.store_open.specs.Setting.{AddsLaterBands};

use crate::edition_rows::{put_edition, put_later_band};
use house_rows::KeepFault;
use sqlite::{Alter, Connection, Transaction};
use store_rows::{fault_of, set_clock, stored_moment};

// The bands of an edition.
fn put_bands<S: Alter>(
    tx: &mut Transaction<'_, S>,
    edition: u32,
    bands: &[(u64, u64)],
) -> Result<(), KeepFault>
    requires valid { IsBandTable bands.now }
    requires begun { IsBegun (state S.Store tx.old.conn.now) }
    ensures same_reference { tx.new.conn.ghost_name ≡ tx.old.conn.ghost_name }
    ensures ok { HasCleanDisk (state S.Store tx.new.conn.now)
        → OnOk result (AddsLaterBands edition bands.now (state S.Store tx.old.conn.now).now
        (state S.Store tx.new.conn.now).now) }
    ensures sound { ¬ (IsErrOf result Damaged) }
    ensures write { WritesMany (state S.Store tx.old.conn.now)
        (state S.Store tx.new.conn.now) result }
{
    for (from, step) in bands {
        put_later_band(tx, edition, *from as u32, *step as u32)?;
    }
    Ok(())
}

// The edition, its bands and the clock.
fn set_within<S: Alter>(
    tx: &mut Transaction<'_, S>,
    edition: u32,
    first: u32,
    moment: u32,
    bands: &[(u64, u64)],
) -> Result<(), KeepFault>
    requires valid { IsBandTable bands.now }
    requires begun { IsBegun (state S.Store tx.old.conn.now) }
    requires numbered { HasCleanDisk (state S.Store tx.old.conn.now)
        → IsNumbered (state S.Store tx.old.conn.now).now.trees }
    requires next { HasCleanDisk (state S.Store tx.old.conn.now)
        → edition ≡ length (edition_rows_in (state S.Store tx.old.conn.now).now.trees) + 2 }
    requires begins { HasCleanDisk (state S.Store tx.old.conn.now)
        → first ≡ length (items_in (state S.Store tx.old.conn.now).now.trees) + 1 }
    ensures same_reference { tx.new.conn.ghost_name ≡ tx.old.conn.ghost_name }
    ensures ok { HasCleanDisk (state S.Store tx.new.conn.now)
        → OnOk result (Changes (SetBands moment bands.entry) (state S.Store tx.old.conn.now).now
        (state S.Store tx.new.conn.now).now) }
    ensures sound { ¬ (IsErrOf result Damaged) }
    ensures write { WritesMany (state S.Store tx.old.conn.now)
        (state S.Store tx.new.conn.now) result }
{
    put_edition(tx, edition, first)?;
    put_bands(tx, edition, bands)?;
    set_clock(tx, moment)
}

// The same, committed.
fn commit_set<S: Alter>(
    conn: &mut Connection<S>,
    edition: u32,
    first: u32,
    moment: u32,
    bands: &[(u64, u64)],
) -> Result<(), KeepFault>
    requires valid { IsBandTable bands.now }
    requires rests { Rests (state S.Store conn.old) }
    requires mode { conn.old.in_transaction ≡ false }
    requires next { HasCleanDisk (state S.Store conn.old)
        → edition ≡ length (edition_rows_in (state S.Store conn.old).now.trees) + 2 }
    requires begins { HasCleanDisk (state S.Store conn.old)
        → first ≡ length (items_in (state S.Store conn.old).now.trees) + 1 }
    ensures commit { Commits (SetBands moment bands.entry) (state S.Store conn.old)
        (state S.Store conn.new) result }
    ensures sound { ¬ (IsErrOf result Damaged) }
{
    let mut tx = conn.transaction();
    set_within(&mut tx, edition, first, moment, bands)?;
    match tx.commit() {
        Ok(()) => Ok(()),
        Err(error) => Err(fault_of(error)),
    }
}

/// Sets a band table as the next edition, which begins with the next item. The moment is in seconds
/// since 1970-01-01T00:00:00Z, and one of more than 32 bits is `Damaged`.
pub fn set_bands<S: Alter>(
    conn: &mut Connection<S>,
    edition: u32,
    first: u32,
    moment: u64,
    bands: &[(u64, u64)],
) -> Result<(), KeepFault>
    requires valid { IsBandTable bands.now }
    requires rests { Rests (state S.Store conn.old) }
    requires mode { conn.old.in_transaction ≡ false }
    requires next { HasCleanDisk (state S.Store conn.old)
        → edition ≡ length (edition_rows_in (state S.Store conn.old).now.trees) + 2 }
    requires begins { HasCleanDisk (state S.Store conn.old)
        → first ≡ length (items_in (state S.Store conn.old).now.trees) + 1 }
    ensures commit { Commits (SetBands moment bands.entry) (state S.Store conn.old)
        (state S.Store conn.new) result }
    ensures moment { OnOk result (moment < 2 ^ 32) }
    ensures damaged { IsMoment moment → ¬ (IsErrOf result Damaged) }
{
    let moment = stored_moment(moment)?;
    commit_set(conn, edition, first, moment, bands)
}
