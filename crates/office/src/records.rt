//! The records of a lot file, one at a time.
ghost use Rattle.std.specs.Prelude.{◌≡◌, ◌↔◌, [], ◌∷◌, Some, ℕ, List, IfErr, IfOk, IsTrue, OnOk};
ghost use Rattle.csv.specs.Reading.{error_kind};
ghost use Rattle.csv.specs.Records.{field_at, fields_of};
ghost use Rattle.steps.specs.Reading.{HasRead, ReadsOn, records_of};
ghost use Rattle.office.specs.Faults.{reading_fault};
ghost use Rattle.office.specs.Imports.{IsHeadless, IsReading};
ghost use Rattle.office.specs.Lots.{head};

use crate::fault::ImportFault;
use csv::{ByteRecord, Error, ErrorKind, Reader, ReaderBuilder};
use std::alloc::Global;
use std::io::Read;

/// How many fields a record has.
pub const COLUMNS: usize = 7;

// The fault of an error: `Read` where the reader underneath failed.
fn fault_of(error: &Error) -> ImportFault
    ensures { result ≡ reading_fault (error_kind error.now) }
{
    match error.kind() {
        ErrorKind::Io(_) => ImportFault::Read,
        ErrorKind::OutOfMemory => ImportFault::Memory,
        // A flexible reader of bytes reports nothing else.
        _ => ImportFault::Csv,
    }
}

/// A reader of records of any length, the first of them no header row.
pub fn plain_reader<R: Read + Drop>(alloc: Global, source: R) -> Reader<R>
    ensures { (text : List ℕ) → R.remaining source ≡ Some text
        → HasRead R.remaining result [] text }
{
    ReaderBuilder::new()
        .has_headers(false)
        .flexible(true)
        .from_reader(alloc, source)
}

/// Reads the next record of the text, and says whether there was one.
pub fn next<R: Read + Drop>(
    reader: &mut Reader<R>,
    row: &mut ByteRecord,
) -> Result<bool, ImportFault>
    ensures ok { IfOk result (λ found. (rows : List (List (List ℕ))) (text : List ℕ)
        → HasRead R.remaining reader.old rows text
        → ReadsOn found R.remaining reader.new rows (fields_of row.new) text) }
    ensures fault { IfErr result (λ fault. (rows : List (List (List ℕ))) (text : List ℕ)
        → HasRead R.remaining reader.old rows text → IsReading fault) }
{
    match reader.read_byte_record(row) {
        Ok(found) => Ok(found),
        Err(error) => Err(fault_of(&error)),
    }
}

// Whether the field at a place is a name.
fn is_name(row: &ByteRecord, at: usize, name: &[u8]) -> bool
    ensures { IsTrue result ↔ (field_at (fields_of row.now) at ≡ Some name.now) }
{
    match row.get(at) {
        Some(field) => field == name,
        None => false,
    }
}

// Whether a record is the head of a lot file.
fn is_head(row: &ByteRecord) -> bool
    ensures { IsTrue result ↔ (fields_of row.now ≡ head) }
{
    if row.len() != COLUMNS {
        return false;
    }
    if !is_name(row, 0, b"lot") {
        return false;
    }
    if !is_name(row, 1, b"category") {
        return false;
    }
    if !is_name(row, 2, b"title") {
        return false;
    }
    if !is_name(row, 3, b"text") {
        return false;
    }
    if !is_name(row, 4, b"start") {
        return false;
    }
    if !is_name(row, 5, b"buy_now") {
        return false;
    }
    if !is_name(row, 6, b"end") {
        return false;
    }
    true
}

/// Reads the head.
pub fn read_head<R: Read + Drop>(
    reader: &mut Reader<R>,
    row: &mut ByteRecord,
) -> Result<(), ImportFault>
    ensures ok { OnOk result ((text : List ℕ) → HasRead R.remaining reader.old [] text
        → HasRead R.remaining reader.new (head ∷ []) text) }
    ensures fault { IfErr result (λ fault. (text : List ℕ)
        → HasRead R.remaining reader.old [] text → IsHeadless (records_of text) fault) }
{
    if !next(reader, row)? {
        return Err(ImportFault::Head);
    }
    if !is_head(row) {
        return Err(ImportFault::Head);
    }
    Ok(())
}
