//! What a house is set up with, as the words name it.
ghost use Rattle.std.specs.Prelude.{◌≡◌, ◌↔◌, ◌⊎◌, None, IfErr, IfOk, IsErrOf};
ghost use Rattle.steps.specs.Example.{example_table};
ghost use Rattle.auction_words.specs.Houses.{IsReadable, IsSetBy, IsUnset};

use crate::command_line::HouseWords;
use house_rows::{Settings, Text};
use settle::Zone;
use std::alloc::Global;
use std::fs::File;
use std::io;
use std::rt::Files;
use steps::{Bands, BandsFault};

/// Why words name no settings.
#[derive(Clone, Copy)]
pub enum SettingsFault {
    /// The band table has a fault, or its file can't be read.
    Bands(BandsFault),
    /// The zone is no rule.
    Zone,
    /// Memory was refused.
    Memory,
}

/// The band table of a file.
pub fn read_bands<R: Files>(rt: &R, alloc: Global, path: &str) -> Result<Bands, BandsFault> {
    match File::open(rt, path) {
        Ok(file) => Bands::read(alloc, file),
        Err(error) if error.kind() == io::ErrorKind::OutOfMemory => Err(BandsFault::Memory),
        Err(_) => Err(BandsFault::Device),
    }
}

// The band table of a file, or the example table.
fn table<R: Files>(rt: &R, alloc: Global, path: Option<&str>) -> Result<Bands, BandsFault>
    ensures example { path.entry ≡ None → IfOk result (λ bands. bands ≡ example_table) }
    ensures memory { path.entry ≡ None → IfErr result (λ fault. fault ≡ BandsFault.Memory) }
{
    match path {
        None => Bands::example(alloc),
        Some(path) => read_bands(rt, alloc, path),
    }
}

// A copy of a text.
fn copy_of(alloc: Global, text: &str) -> Result<Text, SettingsFault>
    ensures same { IfOk result (λ copy. copy ≡ text.now) }
    ensures memory { IfErr result (λ fault. fault ≡ SettingsFault.Memory) }
{
    match Text::copy_of(alloc, text) {
        Ok(copy) => Ok(copy),
        Err(_) => Err(SettingsFault::Memory),
    }
}

// The rule of a zone.
fn zone(alloc: Global, rule: &str) -> Result<Text, SettingsFault>
    ensures text { IfOk result (λ text. text ≡ rule.now) }
    ensures readable { IfOk result IsReadable }
    ensures unreadable { IsErrOf result SettingsFault.Zone ↔ ¬ (IsReadable rule.now) }
    ensures fault { IfErr result (λ fault. (fault ≡ SettingsFault.Memory)
        ⊎ (fault ≡ SettingsFault.Zone)) }
{
    match Zone::read(rule) {
        Ok(_) => copy_of(alloc, rule),
        Err(_) => Err(SettingsFault::Zone),
    }
}

// The same table once more.
fn same_bands(alloc: Global, bands: &Bands) -> Result<Bands, SettingsFault>
    ensures same { IfOk result (λ same. same ≡ bands.now) }
    ensures memory { IfErr result (λ fault. fault ≡ SettingsFault.Bands BandsFault.Memory) }
{
    match Bands::of_rows(alloc, bands.rows()) {
        Ok(same) => Ok(same),
        Err(fault) => Err(SettingsFault::Bands(fault)),
    }
}

/// The same once more, for a second house. Only memory is refused.
pub fn same_settings(alloc: Global, settings: &Settings) -> Result<Settings, SettingsFault>
    ensures same { IfOk result (λ same. same ≡ settings.now) }
    ensures memory { IfErr result (λ fault. (fault ≡ SettingsFault.Memory)
        ⊎ (fault ≡ SettingsFault.Bands BandsFault.Memory)) }
{
    Ok(Settings {
        bands: same_bands(alloc, &settings.bands)?,
        rate: settings.rate,
        zone: copy_of(alloc, settings.zone.as_str())?,
    })
}

/// What a house is set up with. A fault of the band table is reported before one of the zone.
pub fn read_settings<R: Files>(
    rt: &R,
    alloc: Global,
    words: &HouseWords<'_>,
) -> Result<Settings, SettingsFault>
    ensures set { IfOk result (IsSetBy words.now) }
    ensures fault { IfErr result (IsUnset words.now) }
{
    let bands = match table(rt, alloc, words.bands) {
        Ok(bands) => bands,
        Err(fault) => return Err(SettingsFault::Bands(fault)),
    };
    Ok(Settings {
        bands,
        rate: words.rate,
        zone: zone(alloc, words.zone)?,
    })
}
