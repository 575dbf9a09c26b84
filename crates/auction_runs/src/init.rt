//! `init`: a new house in a file.
ghost use Rattle.auction_runs.specs.Faults.{IsOfEnd, IsOfEnded};
ghost use Rattle.auction_runs.specs.Lines.{IsReported};
ghost use Rattle.std.specs.Prelude.{◌≡◌, ◌≤◌, IfErr, IsOk, OnOk};
ghost use Rattle.std.specs.Io.KnownBytes.{Appends};
ghost use Rattle.auction_runs.specs.Over.{IsOver};
ghost use Rattle.auction_runs.specs.Printed.{created};

use crate::fault::{TaskFault, finish_run};
use device::Sink;
use house_rows::{Ends, KeepFault};
use std::io::Write;

// Reports that a house is made.
fn write_created<W: Write>(output: &mut W) -> Result<(), TaskFault>
    ensures report { OnOk result (Appends (W.contents output.old) (W.contents output.new) created) }
    ensures fault { IfErr result (λ fault. fault ≡ TaskFault.Write) }
{
    match writeln!(output, "created") {
        Ok(()) => Ok(()),
        Err(_) => Err(TaskFault::Write),
    }
}

// Reports that the house is made, where its keep was ended.
fn finish<W: Write>(output: &mut W, ended: Result<(), KeepFault>) -> Result<(), TaskFault>
    ensures report { OnOk result (Appends (W.contents output.old) (W.contents output.new) created) }
    ensures ended { OnOk result (IsOk ended) }
    ensures fault { IfErr result
        (IsOfEnded ended (W.contents output.old) (W.contents output.new)) }
{
    ended?;
    write_created(output)
}

/// Ends the keep of a new house, reports that it is made, and gives the exit status and what is left
/// of the keep. A fault is written in its line on `errors`.
pub fn init_run<W: Write, E: Sink, K: Ends>(
    output: &mut W,
    errors: &mut E,
    keep: K,
) -> (u8, K::Left)
    ensures done { result.0 ≡ 0 → Appends (W.contents output.old) (W.contents output.new) created }
    ensures ended { result.0 ≡ 0 → K.is_ended keep result.1 }
    ensures over { IsOver K.is_ended K.is_left keep result.1 }
    ensures reported { IsReported E.Sink (IsOfEnd K.is_ended K.is_left keep result.1
        (W.contents output.old) (W.contents output.new)) errors.old errors.new result.0 }
    ensures within { result.0 ≤ 1 }
{
    let (ended, left) = keep.end();
    let status = finish_run(errors, finish(output, ended));
    (status, left)
}
