//! What a house was set up with, and the band tables that it has set since.
ghost use Rattle.std.specs.Prelude.{◌≡◌, ◌<◌, ◌++◌, ◌∷◌, ◌+◌, [], List, OnOk, OnErr, length, map, option_map};
ghost use Rattle.house_rows.specs.Editions.{bands_among, bands_in, bands_of, edition_among};
ghost use Rattle.house_rows.specs.Editions.{edition_in, newest_bands_in, newest_in, table_of};
ghost use Rattle.house_rows.specs.Limits.{most_editions};
ghost use Rattle.house_rows.specs.declared.edition.Edition.{Edition as TheEdition};
ghost use Rattle.house_rows.specs.Listings.{newest_of};

use crate::edition::Edition;
use crate::settings::Settings;
use std::alloc::{AllocError, Global};
use std::marker::Model;
use steps::Bands;

/// What a house was set up with, its first band table among it, and the band tables that it has set
/// since. Clauses see the `BandTables`.
#[derive(Drop)]
pub struct Editions {
    settings: Settings,
    later: Vec<Edition>,
}

impl Model for Editions {
    ghost use Rattle.std.specs.Prelude.{◌<◌, length};
    ghost use Rattle.house_rows.specs.Editions.{BandTables};
    ghost use Rattle.house_rows.specs.Limits.{most_editions};

    ghost Value = { BandTables };

    ghost view = { λ e. record { settings = e.settings; later = e.later.items } };

    ghost invariant = { λ e. length e.later.items < most_editions };
}

// Of the editions whose first item is at or before an item, the number of the last; 1 where there is none.
fn edition_among(later: &[Edition], item: u64) -> u32
    ensures { result ≡ edition_among 1 later.now item }
{
    let mut found = 1;
    for next in later {
        if u64::from(next.first) <= item {
            found = next.edition;
        }
    }
    found
}

// The table of the last, or the first table where there is none.
fn newest_among<'e>(first: &'e Bands, later: &'e [Edition]) -> &'e Bands
    ensures { result.now ≡ newest_of first.now (map (λ e. e.bands) later.now) }
{
    let mut found = first;
    for next in later {
        found = &next.bands;
    }
    found
}

// The table of a number, if there is one.
fn table_among<'e>(first: &'e Bands, later: &'e [Edition], edition: u64) -> Option<&'e Bands>
    requires { length later.now < most_editions }
    ensures { option_map (λ b. b.now) result ≡ table_of first.now (map (λ e. e.bands) later.now) edition }
{
    let mut number = 1;
    if number == edition {
        return Some(first);
    }
    for next in later {
        number += 1;
        if number == edition {
            return Some(&next.bands);
        }
    }
    None
}

impl Editions {
    /// The first band table alone.
    pub fn new(alloc: Global, settings: Settings) -> Editions
        ensures { result ≡ record { settings = settings; later = [] } }
    {
        Editions {
            settings,
            later: Vec::new(alloc),
        }
    }

    /// What the house was set up with.
    pub fn settings(&self) -> &Settings
        ensures { result.now ≡ self.now.settings }
    {
        &self.settings
    }

    /// The number of the newest edition.
    pub fn newest(&self) -> u32
        ensures { result ≡ newest_in self.now }
    {
        self.later.len() as u32 + 1
    }

    /// The edition of an item.
    pub fn edition_of(&self, item: u64) -> u32
        ensures { result ≡ edition_in self.now item }
    {
        edition_among(&self.later, item)
    }

    /// The band table of an item.
    pub fn bands_for(&self, item: u64) -> &Bands
        ensures { result.now ≡ bands_in self.now item }
    {
        let first = &self.settings.bands;
        let later = self.later();
        let mut found = first;
        for next in later {
            if u64::from(next.first) <= item {
                found = &next.bands;
            }
        }
        found
    }

    /// The newest band table.
    pub fn newest_bands(&self) -> &Bands
        ensures { result.now ≡ newest_bands_in self.now }
    {
        newest_among(&self.settings.bands, &self.later)
    }

    /// The band table of an edition, if there is one.
    pub fn bands_of(&self, edition: u64) -> Option<&Bands>
        ensures { option_map (λ b. b.now) result ≡ bands_of self.now edition }
    {
        table_among(&self.settings.bands, &self.later, edition)
    }

    /// The band tables that the house has set since, in order.
    pub fn later(&self) -> &[Edition]
        ensures { result.now ≡ self.now.later }
    {
        &self.later
    }

    /// Sets one more, which begins with an item that is still to come.
    pub fn set(&mut self, first: u32, bands: Bands) -> Result<(), AllocError>
        requires room { length self.old.later + 1 < most_editions }
        ensures ok { OnOk result (self.new ≡ record {
          settings = self.old.settings;
          later = self.old.later ++ record { edition = length self.old.later + 2; first = first; bands = bands } ∷ [];
        }) }
        ensures err { OnErr result (self.new ≡ self.old) }
    {
        let edition = self.later.len() as u32 + 2;
        self.later.push(Edition {
            edition,
            first,
            bands,
        })?;
        Ok(())
    }

    /// Takes the newest back that was set. Where none was, all stays.
    pub fn unset(&mut self)
        ensures value { (later : List TheEdition) (newest : TheEdition)
            → self.old.later ≡ later ++ newest ∷ []
            → self.new ≡ record { settings = self.old.settings; later = later } }
        ensures none { self.old.later ≡ [] → self.new ≡ self.old }
    {
        self.later.pop();
    }
}
