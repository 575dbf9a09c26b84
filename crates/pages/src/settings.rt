//! Pages of what the house is set up with, and of its counts.
ghost use Rattle.std.specs.Prelude.{◌≡◌, IfOk};
ghost use Rattle.house_rows.specs.declared.query.Query.TheVariants as query;
ghost use Rattle.pages_laws.specs.ByTables.{shown_by};
ghost use Rattle.pages.specs.Promises.{MakesPage};

use house_rows::{Counts, Keep, KeepFault, Page, Refusal, Rows, Settings, Text};
use std::alloc::{AllocError, Global};
use steps::Bands;

// The page of the house with these settings, counts and clock.
fn house_page(
    alloc: Global,
    settings: &Settings,
    counts: Counts,
    clock: u64,
) -> Result<Page, AllocError>
    ensures { IfOk result (λ page.
        page ≡ Page.House counts clock settings.now.rate settings.now.zone) }
{
    let zone = Text::copy_of(alloc, settings.zone.as_str())?;
    Ok(Page::House {
        counts,
        clock,
        rate: settings.rate,
        zone,
    })
}

// The page of a band table.
fn bands_page(alloc: Global, bands: &Bands) -> Result<Page, AllocError>
    ensures { IfOk result (λ page. page ≡ Page.Bands bands.now) }
{
    let rows = bands.rows().to_vec(alloc)?;
    Ok(Page::Bands(Rows::new(rows)))
}

// The house.
#[tactic(auto, unfolding(pages_laws::specs::ByTables::shown_by))]
pub(crate) fn house<K: Keep>(alloc: Global, keep: &mut K) -> Result<Page, KeepFault>
    ensures { MakesPage K.Keep keep.old keep.new result shown_by 0 query.House }
{
    let counts = keep.counts()?;
    let clock = keep.clock()?;
    Ok(house_page(alloc, keep.settings()?, counts, clock)?)
}

// The newest band table.
#[tactic(auto, unfolding(pages_laws::specs::ByTables::shown_by))]
pub(crate) fn bands<K: Keep>(alloc: Global, keep: &mut K) -> Result<Page, KeepFault>
    ensures { MakesPage K.Keep keep.old keep.new result shown_by 0 query.Bands }
{
    Ok(bands_page(alloc, keep.editions()?.newest_bands())?)
}

// The band table of an edition.
#[tactic(auto, unfolding(pages_laws::specs::ByTables::shown_by))]
pub(crate) fn bands_of<K: Keep>(
    alloc: Global,
    keep: &mut K,
    edition: u64,
) -> Result<Page, KeepFault>
    ensures { MakesPage K.Keep keep.old keep.new result shown_by 0 (query.BandsOf edition) }
{
    match keep.editions()?.bands_of(edition) {
        None => Ok(Page::Refused(Refusal::Unknown)),
        Some(bands) => Ok(bands_page(alloc, bands)?),
    }
}
