//! Why an import ends.
ghost use Rattle.std.specs.Prelude.{◌≡◌};

use house_rows::KeepFault;
use std::alloc::AllocError;

/// Why an import ended before the end of its file. What was printed before stays, and so does what
/// was listed.
#[derive(Clone, Copy)]
pub enum ImportFault {
    /// Memory was refused.
    Memory,
    /// The store failed.
    Store,
    /// A kept row doesn't fit.
    Damaged,
    /// Nobody has this number.
    Member,
    /// The first record isn't the head of a lot file, or there is none.
    Head,
    /// A record has another number of fields.
    Csv,
    /// The reader failed, or it gave more rows than can be counted.
    Read,
    /// The output failed.
    Write,
}

impl From<KeepFault> for ImportFault {
    ghost use Rattle.office.specs.Faults.{import_fault};

    ghost from_gives = { λ fault report. report ≡ import_fault fault };

    fn from(fault: KeepFault) -> ImportFault {
        match fault {
            KeepFault::Memory => ImportFault::Memory,
            KeepFault::Store => ImportFault::Store,
            KeepFault::Damaged => ImportFault::Damaged,
        }
    }
}

impl From<AllocError> for ImportFault {
    ghost use Rattle.office.specs.declared.fault.ImportFault.TheVariants.{Memory};

    ghost from_gives = { λ _ report. report ≡ Memory };

    fn from(_error: AllocError) -> ImportFault {
        ImportFault::Memory
    }
}
