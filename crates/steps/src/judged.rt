//! One record judged: the band that it spells after those before it, or its first fault.
ghost use Rattle.std.specs.Prelude.{◌≡◌, ◌≤◌, ◌↔◌, ℕ, List, length, IsTrue, IfErr, OnOk, Option, option_copied, option_map};
ghost use Rattle.std.specs.Char.{is_ascii_digit};
ghost use Rattle.std.specs.List.{list_all};
ghost use Rattle.std.specs.Str.Parse.{digits_value};
ghost use Rattle.csv.specs.Records.{fields_of};
ghost use Rattle.steps.specs.Records.{band_of, both, follows, head, is_number, next_band, number_from};
ghost use Rattle.steps.specs.Fields.{pair_of};
ghost use Rattle.steps.specs.Rows.{HaveFault, is_band, next_row};
ghost use Rattle.steps.specs.Table.{IsBandTable};

use crate::fault::BandsFault;
use cents::LIMIT;
use csv::ByteRecord;

// The most bands that a table has.
const MOST: usize = 50;

// The fields of a record of two.
fn pair(row: &ByteRecord) -> Option<(&[u8], &[u8])>
    ensures { option_map (λ p. (p.0.now, p.1.now)) result ≡ pair_of (fields_of row.now) }
{
    if row.len() != 2 {
        return None;
    }
    Some((row.get(0)?, row.get(1)?))
}

// Whether the record is the head of a table.
pub fn is_head(row: &ByteRecord) -> bool
    ensures { IsTrue result ↔ (fields_of row.now ≡ head) }
{
    match pair(row) {
        Some((at, step)) => at == b"at".as_slice() && step == b"step".as_slice(),
        None => false,
    }
}

fn all_digits(field: &[u8]) -> bool
    ensures { result ≡ list_all is_ascii_digit field.now }
{
    field.iter().all(|byte| byte.is_ascii_digit())
}

// Whether the field is one to ten digits.
fn is_number(field: &[u8]) -> bool
    ensures { result ≡ is_number field.now }
{
    (1..=10).contains(&field.len()) && all_digits(field)
}

// The number that the digits write.
fn value(digits: &[u8]) -> u64
    requires { IsTrue (is_number digits.now) }
    ensures { result ≡ digits_value 10 digits.now }
{
    let mut value = 0;
    for digit in digits {
        value = value * 10 + u64::from(*digit - b'0');
    }
    value
}

// The number of a field, from `least` to the greatest amount.
fn number(least: u64, field: &[u8]) -> Option<u64>
    ensures { result ≡ number_from least field.now }
{
    if !is_number(field) {
        return None;
    }
    let number = value(field);
    if number >= least && number <= LIMIT {
        Some(number)
    } else {
        None
    }
}

// The band of two fields.
fn band(at: &[u8], step: &[u8]) -> Option<(u64, u64)>
    ensures { result ≡ both (number_from 0 at.now) (number_from 1 step.now) }
{
    Some((number(0, at)?, number(1, step)?))
}

// The band of a row after the last one before it.
fn follows(row: u32, band: (u64, u64), last: Option<&(u64, u64)>) -> Result<(u64, u64), BandsFault>
    ensures { result ≡ follows row band (option_copied last.entry) }
{
    match last {
        None if band.0 > 0 => Err(BandsFault::First),
        Some(last) if band.0 <= last.0 => Err(BandsFault::Order { row }),
        Some(last) if band.1 < last.1 => Err(BandsFault::Falls { row }),
        _ => Ok(band),
    }
}

// The band of the record after these bands.
pub fn next_band(bands: &[(u64, u64)], row: &ByteRecord) -> Result<(u64, u64), BandsFault>
    requires { length bands.now ≤ 50 }
    ensures { result ≡ next_band bands.now (fields_of row.now) }
{
    let Some((at, step)) = pair(row) else {
        return Err(BandsFault::Csv);
    };
    if bands.len() == MOST {
        return Err(BandsFault::TooMany);
    }
    let number = bands.len() as u32 + 1;
    match band(at, step) {
        Some(band) => follows(number, band, bands.last()),
        None => Err(BandsFault::Row { row: number }),
    }
}

// Whether a row is a band within its ranges.
fn is_band(row: (u64, u64)) -> bool
    ensures { result ≡ is_band row }
{
    row.0 <= LIMIT && row.1 >= 1 && row.1 <= LIMIT
}

// The row after these bands.
fn next_row(bands: &[(u64, u64)], row: (u64, u64)) -> Result<(u64, u64), BandsFault>
    ensures { result ≡ next_row bands.now row }
{
    if bands.len() >= MOST {
        return Err(BandsFault::TooMany);
    }
    let place = bands.len() as u32 + 1;
    if !is_band(row) {
        return Err(BandsFault::Row { row: place });
    }
    follows(place, row, bands.last())
}

// Whether the rows are a table, or else their first fault.
pub fn table(rows: &[(u64, u64)]) -> Result<(), BandsFault>
    ensures ok { OnOk result (IsBandTable rows.now) }
    ensures fault { IfErr result (HaveFault rows.now) }
{
    if rows.is_empty() {
        return Err(BandsFault::First);
    }
    for at in 0..rows.len() {
        next_row(&rows[..at], rows[at])?;
    }
    Ok(())
}
