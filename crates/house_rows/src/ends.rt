//! Keeps that can be ended.
ghost use Rattle.std.specs.Prelude.{IsErrOf, OnErr, OnOk};
ghost use Rattle.house_rows.specs.declared.fault.KeepFault.TheVariants.{Damaged};

use crate::fault::KeepFault;

/// A keep that can be ended: one in a file closes it.
pub trait Ends: Sized {
    /// What is left of the keep: of one in a file its files.
    type Left: Drop;

    /// What is so of what is left of a keep whose end went well.
    ghost is_ended: { Self → Self.Left → Type 0 };

    /// What is so of what is left of a keep whose end failed.
    ghost is_left: { Self → Self.Left → Type 0 };

    /// Ends the keep, and gives what is left of it. Whoever drops that closes the files.
    fn end(self) -> (Result<(), KeepFault>, Self::Left)
        ensures ended { OnOk result.0 (is_ended self result.1) }
        ensures left { OnErr result.0 (is_left self result.1) }
        ensures sound { ¬ (IsErrOf result.0 Damaged) };
}
