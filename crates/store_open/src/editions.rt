//! The editions of the band table of a house as it is opened.
ghost use Rattle.std.specs.Prelude.{◌≡◌, ◌<◌, ◌+◌, ◌++◌, ◌∷◌, ◌&&◌, [], nat_le, length, IfOk, OnOk, IsErrOf};
ghost use Rattle.std.specs.List.{AllByRecursion, list_all};
ghost use Rattle.sqlite.specs.Held.{state};
ghost use Rattle.steps.specs.Table.{IsBandTable};
ghost use Rattle.house_rows.specs.Keeping.{AreInTurn};
ghost use Rattle.house_rows.specs.Limits.{most_editions};
ghost use Rattle.house_rows.specs.declared.fault.KeepFault.TheVariants.{Damaged, Store};
ghost use Rattle.store_rows.specs.Frames.{Finds};
ghost use Rattle.store_rows.specs.House.{Serves};
ghost use Rattle.store_rows.specs.Tables.{bands_at, editions_by};
ghost use Rattle.store_house.specs.Opening.{AreSet, HasEditions};

use crate::edition_rows::{all_editions, all_later_bands};
use house_rows::{Editions, KeepFault, MOST_EDITIONS, Settings};
use sqlite::{Alter, Connection};
use std::alloc::Global;
use steps::{Bands, BandsFault};
use store_rows::{EditionRow, LaterBandRow};

/// The band table of rows, each an amount and a step in cents; `Damaged` where they are none.
pub fn table_of(alloc: Global, rows: &[(u64, u64)]) -> Result<Bands, KeepFault>
    ensures value { IfOk result (λ bands. (bands ≡ rows.now) × IsBandTable rows.now) }
    ensures damaged { IsBandTable rows.now → ¬ (IsErrOf result Damaged) }
    ensures working { ¬ (IsErrOf result Store) }
{
    match Bands::of_rows(alloc, rows) {
        Ok(bands) => Ok(bands),
        Err(fault) if fault == BandsFault::Memory => Err(KeepFault::Memory),
        Err(_) => Err(KeepFault::Damaged),
    }
}

// The bands of an edition among those of all, as pairs.
fn pairs_at(
    alloc: Global,
    bands: &[LaterBandRow],
    edition: u32,
) -> Result<Vec<(u64, u64)>, KeepFault>
    ensures value { IfOk result (λ pairs. pairs.items ≡ bands_at edition bands.now) }
    ensures sound { ¬ (IsErrOf result Damaged) }
{
    let mut pairs = Vec::new(alloc);
    for band in bands {
        if band.edition == edition {
            let Ok(()) = pairs.push((band.from, band.step)) else {
                return Err(KeepFault::Memory);
            };
        }
    }
    Ok(pairs)
}

// Sets one edition more; `Damaged` where it doesn't have the next number, where there are as many as
// there may be, or where its bands are no table.
fn add_edition(
    alloc: Global,
    editions: &mut Editions,
    row: EditionRow,
    bands: &[LaterBandRow],
) -> Result<(), KeepFault>
    ensures value { OnOk result (editions.new ≡ record {
      settings = editions.old.settings;
      later = editions.old.later ++ record {
        edition = row.edition;
        first = row.first;
        bands = bands_at row.edition bands.now;
      } ∷ [];
    }) }
    ensures next { OnOk result (row.edition ≡ length editions.old.later + 2) }
    ensures room { OnOk result (length editions.old.later + 1 < most_editions) }
    ensures table { OnOk result (IsBandTable (bands_at row.edition bands.now)) }
    ensures damaged { length editions.old.later + 1 < most_editions
        → row.edition ≡ length editions.old.later + 2
        → IsBandTable (bands_at row.edition bands.now)
        → ¬ (IsErrOf result Damaged) }
{
    let newest = editions.newest();
    if newest >= MOST_EDITIONS || row.edition != newest + 1 {
        return Err(KeepFault::Damaged);
    }
    let pairs = pairs_at(alloc, bands, row.edition)?;
    let table = table_of(alloc, &pairs)?;
    match editions.set(row.first, table) {
        Ok(()) => Ok(()),
        Err(_) => Err(KeepFault::Memory),
    }
}

// The first band table and the editions of rows; `Damaged` where they are not numbered in turn from 2,
// where there are more than there may be, or where the bands of one are no table.
fn editions_of(
    alloc: Global,
    settings: Settings,
    rows: &[EditionRow],
    bands: &[LaterBandRow],
) -> Result<Editions, KeepFault>
    ensures value { IfOk result (λ editions. editions ≡ record {
      settings = settings;
      later = editions_by bands.now rows.now;
    }) }
    ensures few { OnOk result (length rows.now < most_editions) }
    ensures in_turn { OnOk result (AreInTurn (λ row. row.edition) 2 rows.now) }
    ensures tables { OnOk result (AllByRecursion (λ e. IsBandTable e.bands)
        (editions_by bands.now rows.now)) }
    ensures damaged { length rows.now < most_editions
        → AreInTurn (λ row. row.edition) 2 rows.now
        → AllByRecursion (λ e. IsBandTable e.bands) (editions_by bands.now rows.now)
        → ¬ (IsErrOf result Damaged) }
{
    let mut editions = Editions::new(alloc, settings);
    for row in rows {
        add_edition(alloc, &mut editions, *row, bands)?;
    }
    Ok(editions)
}

// Whether each band is of an edition from 2 to this one.
fn are_within(bands: &[LaterBandRow], most: u32) -> bool
    ensures { result ≡ list_all (λ b. nat_le 2 b.edition && nat_le b.edition most) bands.now }
{
    bands
        .iter()
        .all(|band| band.edition >= 2 && band.edition <= most)
}

/// The first band table and the editions of a house; `Damaged` where a row doesn't fit, where they are
/// not numbered in turn from 2 to 100 at most, where the bands of one are no table, or where a band is
/// of none of them.
pub(crate) fn read_editions<S: Alter>(
    alloc: Global,
    conn: &mut Connection<S>,
    settings: Settings,
) -> Result<Editions, KeepFault>
    requires { Serves (state S.Store conn.old) }
    ensures finds { Finds S.Store conn.old conn.new result
        (λ db editions. HasEditions db editions.later) AreSet }
    ensures settings { IfOk result (λ editions. editions.settings ≡ settings) }
{
    let rows = all_editions(alloc, conn)?;
    let bands = all_later_bands(alloc, conn)?;
    let editions = editions_of(alloc, settings, &rows, &bands)?;
    if are_within(&bands, editions.newest()) {
        Ok(editions)
    } else {
        Err(KeepFault::Damaged)
    }
}
