//! `upgrade`: a house of version 1 in a file is made one of version 2.
ghost use Rattle.auction_runs.specs.Faults.{IsOfEnd, IsOfEnded};
ghost use Rattle.auction_runs.specs.Lines.{IsReported};
ghost use Rattle.std.specs.Prelude.{◌≡◌, ◌≤◌, IfErr, IsOk, OnOk};
ghost use Rattle.std.specs.Io.KnownBytes.{Appends};
ghost use Rattle.auction_runs.specs.Over.{IsOver};
ghost use Rattle.auction_runs.specs.Printed.{upgraded_line};

use crate::fault::{TaskFault, finish_run};
use device::Sink;
use house_rows::{Ends, KeepFault};
use std::io::Write;

// The line of a house that is upgraded, or of one that was of version 2 before. It is given to the
// output by one call, so that a process that is killed has written all of it or nothing.
fn line(upgraded: bool) -> &'static [u8]
    ensures { result.now ≡ upgraded_line upgraded }
{
    if upgraded {
        b"upgraded\n"
    } else {
        b"is version 2\n"
    }
}

// Reports whether the house is upgraded.
fn write_version<W: Write>(output: &mut W, upgraded: bool) -> Result<(), TaskFault>
    ensures report { OnOk result
        (Appends (W.contents output.old) (W.contents output.new) (upgraded_line upgraded)) }
    ensures fault { IfErr result (λ fault. fault ≡ TaskFault.Write) }
{
    match output.write_all(line(upgraded)) {
        Ok(()) => Ok(()),
        Err(_) => Err(TaskFault::Write),
    }
}

// Reports whether the house is upgraded, where its keep was ended.
fn finish<W: Write>(
    output: &mut W,
    ended: Result<(), KeepFault>,
    upgraded: bool,
) -> Result<(), TaskFault>
    ensures report { OnOk result
        (Appends (W.contents output.old) (W.contents output.new) (upgraded_line upgraded)) }
    ensures ended { OnOk result (IsOk ended) }
    ensures fault { IfErr result
        (IsOfEnded ended (W.contents output.old) (W.contents output.new)) }
{
    ended?;
    write_version(output, upgraded)
}

/// Ends the keep of a house that is upgraded, or was of version 2 before, reports which it is, and
/// gives the exit status and what is left of the keep. A fault is written in its line on `errors`.
pub fn upgrade_run<W: Write, E: Sink, K: Ends>(
    output: &mut W,
    errors: &mut E,
    keep: K,
    upgraded: bool,
) -> (u8, K::Left)
    ensures done { result.0 ≡ 0
        → Appends (W.contents output.old) (W.contents output.new) (upgraded_line upgraded) }
    ensures ended { result.0 ≡ 0 → K.is_ended keep result.1 }
    ensures over { IsOver K.is_ended K.is_left keep result.1 }
    ensures reported { IsReported E.Sink (IsOfEnd K.is_ended K.is_left keep result.1
        (W.contents output.old) (W.contents output.new)) errors.old errors.new result.0 }
    ensures within { result.0 ≤ 1 }
{
    let (ended, left) = keep.end();
    let status = finish_run(errors, finish(output, ended, upgraded));
    (status, left)
}
