//! Lots listed from a file.
ghost use Rattle.std.specs.Prelude.{◌≡◌, [], ◌∷◌, ◌++◌, ◌↔◌, ◌+◌, ◌<◌, ℕ, List, Some, false, true};
ghost use Rattle.std.specs.Prelude.{length, IfErr, IfOk, IsErrOf, IsOk, OnOk, is_some};
ghost use Rattle.std.specs.Io.KnownBytes.{Appends};
ghost use Rattle.csv.specs.Records.{fields_of};
ghost use Rattle.house_rows.specs.Answers.{Reads};
ghost use Rattle.house_rows.specs.Keeping.{AreSound};
ghost use Rattle.house_rows.specs.Pages.{member_at};
ghost use Rattle.house_rows.specs.Taken.{MemberFitsAt};
ghost use Rattle.site.specs.Replies.{zone_of};
ghost use Rattle.site.specs.Histories.{Steps};
ghost use Rattle.steps.specs.Reading.{HasRead, records_of};
ghost use Rattle.office.specs.Faults.{IsLookUpFault};
ghost use Rattle.office.specs.Imports.{EndsAtLot, EndsAtRow, HasEnded, HasListed, HasOrdered};
ghost use Rattle.office.specs.Imports.{IsCut, IsDone, IsRow, IsReported, UnlessWrite, keep_of};
ghost use Rattle.office.specs.Lines.{fault_line, range_line, report_line, totals_line};
ghost use Rattle.office.specs.Listings.{IsListable};
ghost use Rattle.office.specs.Lots.{head};
ghost use Rattle.office.specs.Outcomes.{Fails, Tells};
ghost use Rattle.office.specs.Tallies.{sum_of};

use crate::column::Column;
use crate::fault::ImportFault;
use crate::lines::{print_fault, print_outcome, print_range, print_totals};
use crate::lister::{Lister, Room};
use crate::lot::{Lot, lot_of};
use crate::outcome::{Outcome, outcome_of};
use crate::records::{COLUMNS, next, plain_reader, read_head};
use crate::tally::Imported;
use csv::{ByteRecord, Reader};
use house_rows::Keep;
use site::Site;
use std::alloc::Global;
use std::io::{Read, Write};

/// Whether a member is registered, as it has to be before a lot of its own is listed: if not, that
/// is the fault `Member`. Damaged is answered only where the member's row doesn't fit.
pub fn check_member<K: Keep>(keep: &mut K, member: u64) -> Result<(), ImportFault>
    ensures known { K.is_honest keep.new → IsOk result
        → is_some (member_at (K.content keep.old).members member) ≡ true }
    ensures unknown { K.is_honest keep.new → IsErrOf result ImportFault.Member
        → is_some (member_at (K.content keep.old).members member) ≡ false }
    ensures store { IsErrOf result ImportFault.Store ↔ (K.is_failed keep.new ≡ true) }
    ensures damaged { K.is_honest keep.new → AreSound (K.content keep.old)
        → ¬ (IsErrOf result ImportFault.Damaged) }
    ensures undamaged { K.is_honest keep.new → MemberFitsAt member (K.content keep.old)
        → ¬ (IsErrOf result ImportFault.Damaged) }
    ensures fault { IfErr result IsLookUpFault }
    ensures read { Reads K.Keep keep.old keep.new }
{
    if keep.has_member(member)? {
        Ok(())
    } else {
        Err(ImportFault::Member)
    }
}

// Prints what the reply to a row's order says.
fn write_outcome<W: Write>(
    reply: &[u8],
    number: u64,
    output: &mut W,
) -> Result<Outcome, ImportFault>
    ensures report { IfOk result (λ outcome. Tells reply.now outcome
        × Appends (W.contents output.old) (W.contents output.new)
        (report_line number outcome reply.now)) }
    ensures failed { IfErr result (Fails reply.now) }
    ensures quiet { IfErr result (λ fault.
        UnlessWrite fault (W.contents output.new ≡ W.contents output.old)) }
{
    let outcome = outcome_of(reply)?;
    print_outcome(output, number, outcome, reply)?;
    Ok(outcome)
}

// Has the order of a row answered, and prints what the reply says.
fn ask<W: Write, K: Keep + Drop>(
    site: &mut Site<K>,
    message: &[u8],
    number: u64,
    output: &mut W,
) -> Result<Outcome, ImportFault>
    ensures report { IsReported
        (Steps K.Keep (zone_of site.old))
        (Appends (W.contents output.old) (W.contents output.new))
        message.now number result (keep_of site.old) (keep_of site.new) }
    ensures quiet { IfErr result (λ fault.
        UnlessWrite fault (W.contents output.new ≡ W.contents output.old)) }
    ensures zone { zone_of site.new ≡ zone_of site.old }
{
    let reply = site.reply(message);
    write_outcome(&reply, number, output)
}

// Refuses a row whose order would be too long.
fn refuse_long<W: Write>(output: &mut W, number: u64) -> Result<Outcome, ImportFault>
    ensures refused { IfOk result (λ outcome. outcome ≡ Outcome.Refused) }
    ensures line { OnOk result
        (Appends (W.contents output.old) (W.contents output.new) (range_line number)) }
    ensures fault { IfErr result (λ fault. fault ≡ ImportFault.Write) }
{
    print_range(output, number)?;
    Ok(Outcome::Refused)
}

// Refuses a row of which a field can't be read.
fn refuse_field<W: Write>(
    output: &mut W,
    number: u64,
    column: Column,
) -> Result<Outcome, ImportFault>
    ensures refused { IfOk result (λ outcome. outcome ≡ Outcome.Refused) }
    ensures line { OnOk result
        (Appends (W.contents output.old) (W.contents output.new) (fault_line number column)) }
    ensures fault { IfErr result (λ fault. fault ≡ ImportFault.Write) }
{
    print_fault(output, number, column)?;
    Ok(Outcome::Refused)
}

// Lists a lot, and prints what became of it.
fn list<W: Write, K: Keep + Drop>(
    room: &mut Room,
    site: &mut Site<K>,
    by: Lister,
    lot: &Lot<'_>,
    number: u64,
    output: &mut W,
) -> Result<Outcome, ImportFault>
    requires { IsListable lot.now }
    ensures done { IfOk result (λ outcome. (line : List ℕ) × IsDone
        (Steps K.Keep (zone_of site.old))
        by number lot.now outcome line (keep_of site.old) (keep_of site.new)
        × Appends (W.contents output.old) (W.contents output.new) line) }
    ensures ended { IfErr result (λ fault. EndsAtLot
        (Steps K.Keep (zone_of site.old))
        by number lot.now fault (keep_of site.old) (keep_of site.new)) }
    ensures quiet { IfErr result (λ fault.
        UnlessWrite fault (W.contents output.new ≡ W.contents output.old)) }
    ensures ordered { HasOrdered
        (Steps K.Keep (zone_of site.old))
        by (keep_of site.old) (keep_of site.new) }
    ensures zone { zone_of site.new ≡ zone_of site.old }
{
    if room.write(by, lot)? {
        ask(site, &room.text, number, output)
    } else {
        refuse_long(output, number)
    }
}

// Deals with a row, and prints what became of it.
fn import_row<W: Write, K: Keep + Drop>(
    room: &mut Room,
    site: &mut Site<K>,
    by: Lister,
    row: &ByteRecord,
    number: u64,
    output: &mut W,
) -> Result<Outcome, ImportFault>
    ensures row { IfOk result (λ outcome. (line : List ℕ) × IsRow
        (Steps K.Keep (zone_of site.old))
        by number (fields_of row.now) outcome line (keep_of site.old) (keep_of site.new)
        × Appends (W.contents output.old) (W.contents output.new) line) }
    ensures ended { IfErr result (λ fault. EndsAtRow
        (Steps K.Keep (zone_of site.old))
        by number (fields_of row.now) fault (keep_of site.old) (keep_of site.new)) }
    ensures quiet { IfErr result (λ fault.
        UnlessWrite fault (W.contents output.new ≡ W.contents output.old)) }
    ensures ordered { HasOrdered
        (Steps K.Keep (zone_of site.old))
        by (keep_of site.old) (keep_of site.new) }
    ensures zone { zone_of site.new ≡ zone_of site.old }
{
    if row.len() != COLUMNS {
        return Err(ImportFault::Csv);
    }
    match lot_of(row) {
        Ok(lot) => list(room, site, by, &lot, number, output),
        Err(column) => refuse_field(output, number, column),
    }
}

// Deals with the rows after the head, and counts them.
fn import_rows<R: Read + Drop, W: Write, K: Keep + Drop>(
    room: &mut Room,
    site: &mut Site<K>,
    by: Lister,
    reader: &mut Reader<R>,
    row: &mut ByteRecord,
    output: &mut W,
) -> Result<Imported, ImportFault>
    ensures imported { IfOk result (λ report. (text : List ℕ)
        → HasRead R.remaining reader.old (head ∷ []) text → HasListed
        (Steps K.Keep (zone_of site.old))
        (Appends (W.contents output.old) (W.contents output.new))
        by (records_of text) report (keep_of site.old) (keep_of site.new)) }
    ensures ended { IfErr result (λ fault. (text : List ℕ)
        → HasRead R.remaining reader.old (head ∷ []) text → IsCut
        (Steps K.Keep (zone_of site.old))
        (Appends (W.contents output.old) (W.contents output.new))
        by (records_of text) fault (keep_of site.old) (keep_of site.new)) }
    ensures ordered { HasOrdered
        (Steps K.Keep (zone_of site.old))
        by (keep_of site.old) (keep_of site.new) }
    ensures zone { zone_of site.new ≡ zone_of site.old }
{
    let mut report = Imported::none();
    for before in 0..u64::MAX {
        if !next(reader, row)? {
            return Ok(report);
        }
        let outcome = import_row(room, site, by, row, before + 1, output)?;
        report = report.with_outcome(outcome);
    }
    Err(ImportFault::Read)
}

/// Lists each row of a lot file for a member at a moment, one order a row through the site, prints
/// what became of each, and at the end how many became what.
///
/// The first record has to be the head of a lot file, and each other record needs as many fields.
/// At a fault the rows before it stay, and what was printed for them; their number isn't printed.
pub fn import<R: Read + Drop, W: Write, K: Keep + Drop>(
    alloc: Global,
    site: &mut Site<K>,
    by: Lister,
    lots: R,
    output: &mut W,
) -> Result<Imported, ImportFault>
    // The rows are those of the file, each was dealt with in turn, and their lines and the totals
    // were printed.
    ensures imported { IfOk result (λ report. (text : List ℕ) → R.remaining lots ≡ Some text
        → HasListed (Steps K.Keep (zone_of site.old))
        (λ printed. Appends (W.contents output.old) (W.contents output.new)
        (printed ++ totals_line report))
        by (records_of text) report (keep_of site.old) (keep_of site.new)) }
    ensures counted { IfOk result (λ report. (text : List ℕ) → R.remaining lots ≡ Some text
        → length (records_of text) ≡ sum_of report + 1) }
    // Before an error the same holds of the rows up to it, and the error says why it came.
    ensures ended { IfErr result (λ fault. (text : List ℕ) → R.remaining lots ≡ Some text
        → HasEnded (Steps K.Keep (zone_of site.old))
        (Appends (W.contents output.old) (W.contents output.new))
        by (records_of text) fault (keep_of site.old) (keep_of site.new)) }
    // However it ends, the keep is changed by orders of lots and nothing else.
    ensures ordered { HasOrdered
        (Steps K.Keep (zone_of site.old))
        by (keep_of site.old) (keep_of site.new) }
    ensures zone { zone_of site.new ≡ zone_of site.old }
{
    let mut reader = plain_reader(alloc, lots);
    let mut row = ByteRecord::new(alloc);
    let mut room = Room::new(alloc);
    read_head(&mut reader, &mut row)?;
    let report = import_rows(&mut room, site, by, &mut reader, &mut row, output)?;
    print_totals(output, report)?;
    Ok(report)
}
