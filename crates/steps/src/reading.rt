//! Records read, and the bands that they spell.
ghost use Rattle.std.specs.Prelude.{◌≡◌, ◌⊎◌, [], ◌∷◌, Some, true, ℕ, List, IfErr, IfOk, OnErr, OnOk};
ghost use Rattle.csv.specs.Reading.{error_kind, has_failed};
ghost use Rattle.csv.specs.Records.{fields_of};
ghost use Rattle.steps.specs.Records.{HasFault, IsTable, head};
ghost use Rattle.steps.specs.Reading.{HasRead, IsOutside, ReadsOn, fault_at, records_of};
ghost use Rattle.steps.specs.Table.{IsBandTable};

use crate::fault::BandsFault;
use crate::judged;
use csv::{ByteRecord, Error, ErrorKind, Reader, ReaderBuilder};
use std::alloc::Global;
use std::io::Read;

// The fault of an error: the device's where the reader underneath failed.
fn fault_of(error: &Error) -> BandsFault
    ensures { result ≡ fault_at (error_kind error.now) }
{
    match error.kind() {
        ErrorKind::Io(_) => BandsFault::Device,
        ErrorKind::OutOfMemory => BandsFault::Memory,
        // A flexible reader of bytes reports nothing else.
        _ => BandsFault::Csv,
    }
}

// Reads the next record of the text, and says whether there was one.
fn next<R: Read + Drop>(reader: &mut Reader<R>, row: &mut ByteRecord) -> Result<bool, BandsFault>
    ensures ok { IfOk result (λ found. (rows : List (List (List ℕ))) (text : List ℕ) →
        HasRead R.remaining reader.old rows text → ReadsOn found R.remaining reader.new rows (fields_of row.new) text) }
    ensures fault { IfErr result (λ fault. (rows : List (List (List ℕ))) (text : List ℕ) →
        HasRead R.remaining reader.old rows text → IsOutside fault) }
    ensures stopped { OnErr result ((rows : List (List (List ℕ))) (text : List ℕ) →
        HasRead R.remaining reader.old rows text → has_failed reader.new ≡ true) }
{
    match reader.read_byte_record(row) {
        Ok(found) => Ok(found),
        Err(error) => Err(fault_of(&error)),
    }
}

// Reads the head.
fn read_head<R: Read + Drop>(reader: &mut Reader<R>, row: &mut ByteRecord) -> Result<(), BandsFault>
    ensures ok { OnOk result ((text : List ℕ) →
        HasRead R.remaining reader.old [] text → HasRead R.remaining reader.new (head ∷ []) text) }
    ensures fault { IfErr result (λ fault. (text : List ℕ) →
        HasRead R.remaining reader.old [] text → IsOutside fault ⊎ HasFault (records_of text) fault) }
{
    if !next(reader, row)? {
        return Err(BandsFault::Head);
    }
    if !judged::is_head(row) {
        return Err(BandsFault::Head);
    }
    Ok(())
}

// Reads the rows after the head, and gives their bands.
fn read_rows<R: Read + Drop>(
    alloc: Global,
    reader: &mut Reader<R>,
    row: &mut ByteRecord,
) -> Result<Vec<(u64, u64)>, BandsFault>
    ensures valid { IfOk result (λ bands. IsBandTable bands.items) }
    ensures ok { IfOk result (λ bands. (text : List ℕ) →
        HasRead R.remaining reader.old (head ∷ []) text → IsTable (records_of text) bands.items) }
    ensures fault { IfErr result (λ fault. (text : List ℕ) →
        HasRead R.remaining reader.old (head ∷ []) text → IsOutside fault ⊎ HasFault (records_of text) fault) }
{
    let mut bands = Vec::new(alloc);
    while next(reader, row)? {
        let band = judged::next_band(&bands, row)?;
        if bands.push(band).is_err() {
            return Err(BandsFault::Memory);
        }
    }
    if bands.is_empty() {
        return Err(BandsFault::First);
    }
    Ok(bands)
}

// A reader of records of any length, the first of them no header row.
fn plain_reader<R: Read + Drop>(alloc: Global, source: R) -> Reader<R>
    ensures { (text : List ℕ) → R.remaining source ≡ Some text → HasRead R.remaining result [] text }
{
    ReaderBuilder::new()
        .has_headers(false)
        .flexible(true)
        .from_reader(alloc, source)
}

// The bands of a table's text.
pub fn table<R: Read + Drop>(alloc: Global, source: R) -> Result<Vec<(u64, u64)>, BandsFault>
    ensures valid { IfOk result (λ bands. IsBandTable bands.items) }
    ensures ok { IfOk result (λ bands. (text : List ℕ) →
        R.remaining source ≡ Some text → IsTable (records_of text) bands.items) }
    ensures fault { IfErr result (λ fault. (text : List ℕ) →
        R.remaining source ≡ Some text → IsOutside fault ⊎ HasFault (records_of text) fault) }
{
    let mut reader = plain_reader(alloc, source);
    let mut row = ByteRecord::new(alloc);
    read_head(&mut reader, &mut row)?;
    read_rows(alloc, &mut reader, &mut row)
}
