//! The lines that an import prints.
ghost use Rattle.std.specs.Prelude.{◌≡◌, ◌≤◌, IfErr, OnOk, drop, length};
ghost use Rattle.std.specs.Io.KnownBytes.{Appends};
ghost use Rattle.office.specs.Lines.{before_byte, fault_line, from_byte, item_in, name_in};
ghost use Rattle.office.specs.Lines.{range_line, row_line, report_line, totals_line};

use crate::column::Column;
use crate::fault::ImportFault;
use crate::outcome::Outcome;
use crate::tally::Imported;
use std::io::{Error, Write};

// What is in a text from its first such byte on.
fn from_byte(text: &[u8], byte: u8) -> &[u8]
    ensures from { result.now ≡ from_byte byte text.now }
    ensures within { length result.now ≤ length text.now }
{
    let mut rest = text;
    while let Some((first, more)) = rest.split_first() {
        if *first == byte {
            return rest;
        }
        rest = more;
    }
    rest
}

// What comes before it.
fn before_byte(text: &[u8], byte: u8) -> &[u8]
    ensures { result.now ≡ before_byte byte text.now }
{
    let rest_after = from_byte(text, byte);
    &text[..text.len() - rest_after.len()]
}

// A text without its first bytes.
fn without_first(text: &[u8], count: usize) -> &[u8]
    ensures { result.now ≡ drop count text.now }
{
    if count < text.len() {
        &text[count..]
    } else {
        b""
    }
}

// What a JSON object begins with.
const OPENING: u8 = b'{';

// The number of the item in `{"item":2}`.
fn item(reply: &[u8]) -> &[u8]
    ensures { result.now ≡ item_in reply.now }
{
    before_byte(without_first(from_byte(reply, OPENING), 8), b'}')
}

// The name in `{"error":"Range","number":20}`.
fn name(reply: &[u8]) -> &[u8]
    ensures { result.now ≡ name_in reply.now }
{
    before_byte(without_first(from_byte(reply, OPENING), 10), b'"')
}

// Writes a line about a row: a word, and what is reported of it.
fn write_row<W: Write>(output: &mut W, number: u64, word: &str, report: &[u8]) -> Result<(), Error>
    ensures { OnOk result (Appends (W.contents output.old) (W.contents output.new)
        (row_line number word.now report.now)) }
{
    write!(output, "row {number}: {word} ")?;
    output.write_all(report)?;
    output.write_all(b"\n")
}

// Prints it.
fn print_row<W: Write>(
    output: &mut W,
    number: u64,
    word: &str,
    report: &[u8],
) -> Result<(), ImportFault>
    ensures line { OnOk result (Appends (W.contents output.old) (W.contents output.new)
        (row_line number word.now report.now)) }
    ensures fault { IfErr result (λ fault. fault ≡ ImportFault.Write) }
{
    match write_row(output, number, word, report) {
        Ok(()) => Ok(()),
        Err(_) => Err(ImportFault::Write),
    }
}

/// Prints what the reply to a row's order says. Rows are numbered from 1.
pub fn print_outcome<W: Write>(
    output: &mut W,
    number: u64,
    outcome: Outcome,
    reply: &[u8],
) -> Result<(), ImportFault>
    ensures line { OnOk result (Appends (W.contents output.old) (W.contents output.new)
        (report_line number outcome reply.now)) }
    ensures fault { IfErr result (λ fault. fault ≡ ImportFault.Write) }
{
    match outcome {
        Outcome::Listed => print_row(output, number, "item", item(reply)),
        Outcome::There => print_row(output, number, "there", b"already"),
        Outcome::Refused => print_row(output, number, "refused", name(reply)),
    }
}

/// Prints which field of a row can't be read.
pub fn print_fault<W: Write>(output: &mut W, number: u64, column: Column) -> Result<(), ImportFault>
    ensures line { OnOk result (Appends (W.contents output.old) (W.contents output.new)
        (fault_line number column)) }
    ensures fault { IfErr result (λ fault. fault ≡ ImportFault.Write) }
{
    print_row(output, number, "fault", column.name().as_bytes())
}

/// Prints that the body of a row's order would be too long.
pub fn print_range<W: Write>(output: &mut W, number: u64) -> Result<(), ImportFault>
    ensures line { OnOk result (Appends (W.contents output.old) (W.contents output.new)
        (range_line number)) }
    ensures fault { IfErr result (λ fault. fault ≡ ImportFault.Write) }
{
    print_row(output, number, "refused", b"Range")
}

/// Prints how many rows became what.
pub fn print_totals<W: Write>(output: &mut W, report: Imported) -> Result<(), ImportFault>
    ensures line { OnOk result (Appends (W.contents output.old) (W.contents output.new)
        (totals_line report)) }
    ensures fault { IfErr result (λ fault. fault ≡ ImportFault.Write) }
{
    let Imported {
        listed,
        there,
        refused,
    } = report;
    match writeln!(
        output,
        "{listed} listed, {there} there already, {refused} refused"
    ) {
        Ok(()) => Ok(()),
        Err(_) => Err(ImportFault::Write),
    }
}
