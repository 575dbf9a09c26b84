//! `bands`: a band table that is set in the house in a file.
ghost use Rattle.auction_runs.specs.Lines.{IsReported};
ghost use Rattle.std.specs.Prelude.{◌≡◌, ◌≤◌, ◌⊎◌, Err, IfErr, IfOk, IsOk, OnOk};
ghost use Rattle.std.specs.Io.KnownBytes.{Appends, Keeps};
ghost use Rattle.house_rows.specs.declared.command.Command.TheVariants.{SetBands};
ghost use Rattle.auction_runs.specs.Printed.{edition_line};
ghost use Rattle.auction_runs.specs.Tabled.{HasSet, HasTabled, IsTable, IsTabled, IsTabledOver, IsUndone, IsUntabled, IsUntold, MayTable};

use crate::ended::outcome_after_end;
use crate::fault::{TaskFault, finish_run};
use device::Sink;
use house::decide;
use house_rows::{Command, Ends, Keep, Rows};
use std::io::Write;

// The number of the house as a caller.
const HOUSE: u64 = 0;

// Has the house set the table that a command asks for at a moment, and gives the newest edition
// after it. Whatever the tables are, the command's own change is made to them or nothing is.
fn set_bands<K: Keep>(keep: &mut K, moment: u64, command: &Command) -> Result<u32, TaskFault>
    requires table { IsTable command.now }
    ensures done { K.is_honest keep.new → IfOk result
        (IsTabled K.content K.may_leave moment command.now keep.old keep.new) }
    ensures fault { IfErr result
        (IsUndone K.content K.is_failed K.is_honest moment command.now keep.old keep.new) }
    ensures may { MayTable K.content K.is_honest K.may_leave moment command.now keep.old keep.new }
{
    // The fault is matched, since a `?` on what holds a change isn't covered by the borrow check.
    match decide(keep, moment, HOUSE, command) {
        Err(fault) => Err(fault.into()),
        Ok(Err(refusal)) => Err(TaskFault::Refused(refusal)),
        Ok(Ok(change)) => {
            keep.apply(&change)?;
            Ok(keep.editions()?.newest())
        }
    }
}

// Reports the edition of a table that was set.
fn write_edition<W: Write>(output: &mut W, edition: u32) -> Result<(), TaskFault>
    ensures report { OnOk result
        (Appends (W.contents output.old) (W.contents output.new) (edition_line edition)) }
    ensures fault { IfErr result (λ fault. fault ≡ TaskFault.Write) }
{
    match writeln!(output, "edition {edition}") {
        Ok(()) => Ok(()),
        Err(_) => Err(TaskFault::Write),
    }
}

// Sets the table, and ends the keep however that ended.
fn set<K: Keep + Ends>(
    mut keep: K,
    moment: u64,
    command: &Command,
) -> (Result<u32, TaskFault>, K::Left)
    requires table { IsTable command.now }
    ensures set { IfOk result.0 (HasSet K.content K.is_honest K.may_leave
        (λ last. K.is_ended last result.1) moment command.now keep) }
    ensures fault { IfErr result.0 (IsUntabled K.content K.is_failed K.is_honest K.may_leave
        (λ last. K.is_ended last result.1) (λ last. K.is_left last result.1) moment command.now
        keep) }
    ensures over { IsTabledOver K.content K.is_honest K.may_leave K.is_ended K.is_left moment
        command.now keep result.1 }
{
    let edition = set_bands(&mut keep, moment, command);
    let (ended, left) = keep.end();
    (outcome_after_end(edition, ended), left)
}

// Reports the edition of a table, once it is set.
fn write_outcome<W: Write>(output: &mut W, set: Result<u32, TaskFault>) -> Result<(), TaskFault>
    ensures report { OnOk result (IfOk set (λ edition.
        Appends (W.contents output.old) (W.contents output.new) (edition_line edition))) }
    ensures set { OnOk result (IsOk set) }
    ensures fault { IfErr result (λ fault.
        ((set ≡ Err fault) × Keeps (W.contents output.old) (W.contents output.new))
        ⊎ ((fault ≡ TaskFault.Write) × IsOk set)) }
{
    write_edition(output, set?)
}

/// Sets a band table in a house, ends its keep, reports the edition, and gives the exit status and
/// what is left of the keep. A fault is written in its line on `errors`, and so is the refusal of the
/// house. Whatever the tables are, nothing else is done to them.
pub fn bands_run<W: Write, E: Sink, K: Keep + Ends>(
    output: &mut W,
    errors: &mut E,
    keep: K,
    bands: Rows<(u64, u64)>,
    moment: u64,
) -> (u8, K::Left)
    ensures set { result.0 ≡ 0 → HasTabled K.content K.is_honest K.may_leave
        (λ last. K.is_ended last result.1) moment (SetBands bands)
        (W.contents output.old) (W.contents output.new) keep }
    ensures over { IsTabledOver K.content K.is_honest K.may_leave K.is_ended K.is_left moment
        (SetBands bands) keep result.1 }
    ensures reported { IsReported E.Sink
        (IsUntold K.content K.is_failed K.is_honest K.may_leave
        (λ last. K.is_ended last result.1) (λ last. K.is_left last result.1) moment
        (SetBands bands) (W.contents output.old) (W.contents output.new) keep)
        errors.old errors.new result.0 }
    ensures within { result.0 ≤ 1 }
{
    let command = Command::SetBands { bands };
    let (edition, left) = set(keep, moment, &command);
    let status = finish_run(errors, write_outcome(output, edition));
    (status, left)
}
