//! A house is opened: whatever a connection holds is tested until it is a house.
ghost use Rattle.std.specs.Prelude.{◌≡◌, ◌≤◌, None, false, map, IfErr, IfOk, IsErrOf, IsTrue};
ghost use Rattle.sqlite.specs.Held.{state};
ghost use Rattle.sqlite.specs.State.{HasCleanDisk};
ghost use Rattle.sqlite_trees.specs.View.{IsClean};
ghost use Rattle.house_rows.specs.Fits.{IsMoment};
ghost use Rattle.house_rows.specs.declared.fault.KeepFault.TheVariants.{Damaged};
ghost use Rattle.steps.specs.Table.{IsBandTable};
ghost use Rattle.store_rows.specs.House.{IsHouse, Serves};
ghost use Rattle.store_house.specs.Named.{FollowsInOrder, HoldsSound, IsArranged};
ghost use Rattle.store_house.specs.Opening.{Follows, HasRead, HasSettings, IsReadable, IsSetUp};
ghost use Rattle.store_house.specs.Over.{over_numbers};
ghost use Rattle.store_rows.specs.Frames.{Finds};
ghost use Rattle.store_open.specs.Opened.{IsOpenedHouse};

use crate::editions::{read_editions, table_of};
use crate::house::Opened;
use crate::reserves::read_reserves;
use house_rows::{Counts, Editions, KeepFault, Rate, Settings};
use sqlite::{Alter, Connection};
use std::alloc::Global;
use steps::Bands;
use store_house::{house_by_names, read_counts};
use store_rows::{BandRow, HouseRow, Reserves, all_bands, house_row};
use tree_order::Renumbered;

// The rows of the band table as pairs.
fn pairs(alloc: Global, rows: &[BandRow]) -> Result<Vec<(u64, u64)>, KeepFault>
    ensures value { IfOk result (λ pairs. pairs.items ≡ map
        (λ (b : _). (b.from, b.step)) rows.now) }
    ensures sound { ¬ (IsErrOf result Damaged) }
{
    let mut pairs = Vec::new(alloc);
    for row in rows {
        let Ok(()) = pairs.push((row.from, row.step)) else {
            return Err(KeepFault::Memory);
        };
    }
    Ok(pairs)
}

// The band table of rows; Damaged where they are none.
fn bands_of(alloc: Global, rows: &[BandRow]) -> Result<Bands, KeepFault>
    ensures value { IfOk result (λ bands. bands ≡ map (λ (b : _). (b.from, b.step)) rows.now) }
    ensures damaged { IsBandTable (map (λ (b : _). (b.from, b.step)) rows.now)
        → ¬ (IsErrOf result Damaged) }
{
    let pairs = pairs(alloc, rows)?;
    table_of(alloc, &pairs)
}

// What the house is set up with, by its row and its bands; Damaged where the rate is none.
fn settings_of(house: HouseRow, bands: Bands) -> Result<Settings, KeepFault>
    ensures value { IfOk result (λ settings. (settings.bands ≡ bands)
        × (settings.rate ≡ house.rate) × (settings.zone ≡ house.zone)) }
    ensures damaged { house.rate ≤ 2000 → ¬ (IsErrOf result Damaged) }
{
    let Some(rate) = Rate::new(house.rate) else {
        return Err(KeepFault::Damaged);
    };
    Ok(Settings {
        bands,
        rate,
        zone: house.zone,
    })
}

// What the house is set up with, and its clock; Damaged where it has no row that fits, or its bands are
// no table.
fn read_settings<S: Alter>(
    alloc: Global,
    conn: &mut Connection<S>,
) -> Result<(Settings, u64), KeepFault>
    requires { Serves (state S.Store conn.old) }
    ensures finds { Finds S.Store conn.old conn.new result
        (λ db read. HasSettings db read.0 read.1) IsSetUp }
    ensures moment { IfOk result (λ read. IsMoment read.1) }
{
    let Some(house) = house_row(conn)? else {
        return Err(KeepFault::Damaged);
    };
    let rows = all_bands(alloc, conn)?;
    let bands = bands_of(alloc, &rows)?;
    let clock = house.clock;
    let settings = settings_of(house, bands)?;
    Ok((settings, clock))
}

/// All that is read of a house as it is opened; `Damaged` where what it is set up with, a number, a
/// reserve or an edition doesn't fit.
pub(crate) fn read_house<S: Alter>(
    alloc: Global,
    conn: &mut Connection<S>,
) -> Result<(Editions, u64, Counts, Reserves), KeepFault>
    requires { Serves (state S.Store conn.old) }
    ensures finds { Finds S.Store conn.old conn.new result
        (λ db read. HasRead db read.0 read.1 read.2 read.3) IsReadable }
    ensures moment { IfOk result (λ read. IsMoment read.1) }
{
    let (settings, clock) = read_settings(alloc, conn)?;
    let counts = read_counts(conn)?;
    let reserves = read_reserves(alloc, conn, counts.items)?;
    let editions = read_editions(alloc, conn, settings)?;
    Ok((editions, clock, counts, reserves))
}

/// The house of a connection that holds the tables of one, all committed, with what is read of it.
///
/// `Damaged` where a row of the house or bands don't fit, a member, a category or an item has a number
/// that is 0 or over how many there are, a reserve doesn't fit or its item's number is over how many
/// items there are, editions of the band table don't fit, are not numbered in turn from 2 to 100 at most
/// or have bands that are no table, or bands are of another edition. After an error the store is given
/// back as it was: nothing was written.
pub fn opened_house<S: Alter + Drop>(
    alloc: Global,
    conn: Connection<S>,
) -> Result<Opened<S>, (KeepFault, S)>
    requires house { HasCleanDisk (state S.Store conn)
        → IsTrue (state S.Store conn).is_open × IsHouse (state S.Store conn).now }
    requires rests { HasCleanDisk (state S.Store conn)
        → (state S.Store conn).now ≡ (state S.Store conn).committed }
    requires mode { conn.in_transaction ≡ false }
    requires unlimited { conn.step_limit ≡ None }
    ensures opened { IfOk result (IsOpenedHouse S.Store) }
    ensures same { IfOk result (λ o. HasCleanDisk (state S.Store o.conn)
        → (state S.Store o.conn).now.trees ≡ (state S.Store conn).now.trees) }
    ensures follows { IfOk result (λ o. Follows S.Store conn o.conn.store) }
    ensures left { IfErr result (λ e. Follows S.Store conn e.1) }
    ensures damaged { IfErr result (λ e. e.0 ≡ Damaged → IsClean (S.Store.view e.1)
        → ¬ (IsReadable (state S.Store conn).now.trees)) }
{
    let mut conn = conn;
    match read_house(alloc, &mut conn) {
        Ok((editions, clock, counts, reserves)) => Ok(Opened {
            conn,
            editions,
            reserves,
            counts,
            clock,
        }),
        Err(fault) => Err((fault, conn.into_store())),
    }
}

/// Opens the house that a connection holds, in whatever order its trees lie. What the connection has
/// not committed is undone.
///
/// `Damaged` where the names find other tables than those of a house of version 2, or where
/// `opened_house` is. After an error the store is given back, which shows in some order what it
/// held: nothing was written.
pub fn open_house<S: Alter + Drop>(
    alloc: Global,
    conn: Connection<S>,
) -> Result<Opened<Renumbered<S>>, (KeepFault, Renumbered<S>)>
    ensures opened { IfOk result (IsOpenedHouse (over_numbers S.Store)) }
    ensures arranged { IfOk result (λ o. HasCleanDisk (state (over_numbers S.Store) o.conn)
        → IsArranged (state S.Store conn).committed.trees
        (state (over_numbers S.Store) o.conn).now.trees) }
    ensures follows { IfOk result (λ o. FollowsInOrder S.Store conn o.conn.store) }
    ensures left { IfErr result (λ e. FollowsInOrder S.Store conn e.1) }
    ensures damaged { IfErr result (λ e. e.0 ≡ Damaged → IsClean (S.Store.view e.1.inner)
        → ¬ (HoldsSound (state S.Store conn).committed.trees)) }
{
    let whole = house_by_names(alloc, conn)?;
    let opened = opened_house(alloc, whole)?;
    Ok(opened)
}
