//! The tables of the editions and of their bands.
ghost use Rattle.std.specs.Prelude.{◌≡◌, IfOk, OnOk, IsErrOf};
ghost use Rattle.std.specs.List.{AllByRecursion};
ghost use Rattle.sqlite.specs.State.{HasCleanDisk};
ghost use Rattle.sqlite.specs.Held.{state};
ghost use Rattle.house_rows.specs.declared.fault.KeepFault.TheVariants.{Damaged};
ghost use Rattle.store_rows.specs.Fitting.{EditionRowFits, LaterBandRowFits};
ghost use Rattle.store_rows.specs.Frames.{Finds, WritesOnce};
ghost use Rattle.store_rows.specs.House.{IsBegun, Serves};
ghost use Rattle.store_rows.specs.Rows.{edition_rows_in, later_bands_in};
ghost use Rattle.store_open.specs.Setting.{AddsEdition, AddsLaterBand};

use house_rows::KeepFault;
use sqlite::{Alter, Connection, Transaction, params};
use std::alloc::Global;
use store_rows::{EditionRow, LaterBandRow, all_of, rows_shown, run};

/// All editions that the house has set, by number.
pub(crate) fn all_editions<S: Alter>(
    alloc: Global,
    conn: &mut Connection<S>,
) -> Result<Vec<EditionRow>, KeepFault>
    requires { Serves (state S.Store conn.old) }
    ensures finds { Finds S.Store conn.old conn.new result
        (λ db all. all.items ≡ edition_rows_in db)
        (λ db. AllByRecursion EditionRowFits (edition_rows_in db)) }
    ensures fits { IfOk result (λ all. AllByRecursion EditionRowFits all.items) }
{
    let rows = rows_shown(
        conn,
        "SELECT edition, first FROM edition ORDER BY edition",
        &[],
    )?;
    all_of(alloc, &rows)
}

/// The bands of all of them, as they were written.
pub(crate) fn all_later_bands<S: Alter>(
    alloc: Global,
    conn: &mut Connection<S>,
) -> Result<Vec<LaterBandRow>, KeepFault>
    requires { Serves (state S.Store conn.old) }
    ensures finds { Finds S.Store conn.old conn.new result
        (λ db all. all.items ≡ later_bands_in db)
        (λ db. AllByRecursion LaterBandRowFits (later_bands_in db)) }
    ensures fits { IfOk result (λ all. AllByRecursion LaterBandRowFits all.items) }
{
    let rows = rows_shown(
        conn,
        "SELECT edition, at, step FROM later_band ORDER BY rowid",
        &[],
    )?;
    all_of(alloc, &rows)
}

/// Adds an edition within a transaction.
pub(crate) fn put_edition<S: Alter>(
    tx: &mut Transaction<'_, S>,
    edition: u32,
    first: u32,
) -> Result<(), KeepFault>
    requires { IsBegun (state S.Store tx.old.conn.now) }
    ensures same_reference { tx.new.conn.ghost_name ≡ tx.old.conn.ghost_name }
    ensures ok { HasCleanDisk (state S.Store tx.new.conn.now)
        → OnOk result (AddsEdition edition first (state S.Store tx.old.conn.now).now
        (state S.Store tx.new.conn.now).now) }
    ensures sound { ¬ (IsErrOf result Damaged) }
    ensures write { WritesOnce (state S.Store tx.old.conn.now)
        (state S.Store tx.new.conn.now) result }
{
    run(
        tx,
        "INSERT INTO edition (edition, first) VALUES (?1, ?2)",
        params![edition, first],
    )
}

/// Adds a band of an edition within a transaction, in cents.
pub(crate) fn put_later_band<S: Alter>(
    tx: &mut Transaction<'_, S>,
    edition: u32,
    from: u32,
    step: u32,
) -> Result<(), KeepFault>
    requires { IsBegun (state S.Store tx.old.conn.now) }
    ensures same_reference { tx.new.conn.ghost_name ≡ tx.old.conn.ghost_name }
    ensures ok { HasCleanDisk (state S.Store tx.new.conn.now)
        → OnOk result (AddsLaterBand edition from step (state S.Store tx.old.conn.now).now
        (state S.Store tx.new.conn.now).now) }
    ensures sound { ¬ (IsErrOf result Damaged) }
    ensures write { WritesOnce (state S.Store tx.old.conn.now)
        (state S.Store tx.new.conn.now) result }
{
    run(
        tx,
        "INSERT INTO later_band (edition, at, step) VALUES (?1, ?2, ?3)",
        params![edition, from, step],
    )
}
