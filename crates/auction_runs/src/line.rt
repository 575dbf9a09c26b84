//! The line of a fault on standard error.
ghost use Rattle.std.specs.Prelude.{◌≡◌, ◌++◌, ◌∷◌, [], true, OnOk, IsErr};
ghost use Rattle.std.specs.Io.KnownBytes.{Appends};
ghost use Rattle.auction_runs.specs.Lines.{bands_line, line_of};
ghost use Rattle.device.specs.Given.{AppendsBeginning};

use crate::fault::TaskFault;
use device::{Failure, Sink, give_all};
use itoa::Buffer;
use steps::BandsFault;

// Gives three texts in turn.
fn give_parts<E: Sink>(
    errors: &mut E,
    first: &[u8],
    second: &[u8],
    third: &[u8],
) -> Result<(), Failure>
    ensures whole { OnOk result (Appends (E.taken errors.old) (E.taken errors.new)
        (first.now ++ second.now ++ third.now)) }
    ensures part { AppendsBeginning (E.taken errors.old) (E.taken errors.new)
        (first.now ++ second.now ++ third.now) }
    ensures failed { IsErr result → E.has_failed errors.new ≡ true }
{
    give_all(errors, first)?;
    give_all(errors, second)?;
    give_all(errors, third)
}

// Gives the line of a fault of a band table, with its row where it has one.
fn give_bands<E: Sink>(errors: &mut E, fault: BandsFault) -> Result<(), Failure>
    ensures whole { OnOk result (Appends (E.taken errors.old) (E.taken errors.new)
        (bands_line fault ++ 10 ∷ [])) }
    ensures part { AppendsBeginning (E.taken errors.old) (E.taken errors.new)
        (bands_line fault ++ 10 ∷ []) }
    ensures failed { IsErr result → E.has_failed errors.new ≡ true }
{
    if fault == BandsFault::Memory {
        return give_all(errors, b"auction: memory\n");
    }
    give_parts(errors, b"auction: ", b"bands: ", fault.name().as_bytes())?;
    match fault.row() {
        None => give_all(errors, b"\n"),
        Some(row) => {
            let mut digits = Buffer::new();
            give_parts(errors, b" ", digits.format(row).as_bytes(), b"\n")
        }
    }
}

/// Gives the line of a fault.
pub(crate) fn give_line<E: Sink>(errors: &mut E, fault: TaskFault) -> Result<(), Failure>
    ensures whole { OnOk result (Appends (E.taken errors.old) (E.taken errors.new)
        (line_of fault ++ 10 ∷ [])) }
    ensures part { AppendsBeginning (E.taken errors.old) (E.taken errors.new)
        (line_of fault ++ 10 ∷ []) }
    ensures failed { IsErr result → E.has_failed errors.new ≡ true }
{
    match fault {
        TaskFault::Memory => give_all(errors, b"auction: memory\n"),
        TaskFault::Store => give_all(errors, b"auction: file: Store\n"),
        TaskFault::Damaged => give_all(errors, b"auction: file: Damaged\n"),
        TaskFault::Bands(fault) => give_bands(errors, fault),
        TaskFault::Zone => give_all(errors, b"auction: zone\n"),
        TaskFault::Read => give_all(errors, b"auction: input: Read\n"),
        TaskFault::Write => give_all(errors, b"auction: output: Write\n"),
        TaskFault::Socket => give_all(errors, b"auction: socket\n"),
        TaskFault::Date => give_all(errors, b"auction: date\n"),
        TaskFault::Order => give_all(errors, b"auction: order\n"),
        TaskFault::Member => give_all(errors, b"auction: no member\n"),
        TaskFault::Refused(refusal) => {
            give_parts(
                errors,
                b"auction: refused ",
                refusal.name().as_bytes(),
                b"\n",
            )
        }
        TaskFault::Head => give_all(errors, b"auction: lots: Head\n"),
        TaskFault::Csv => give_all(errors, b"auction: lots: Csv\n"),
        TaskFault::Broken(side) => {
            let side = side.name().as_bytes();
            give_parts(errors, b"auction: ", side, b" is no list of messages\n")
        }
    }
}
