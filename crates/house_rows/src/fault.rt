//! Why a keep doesn't answer.
ghost use Rattle.std.specs.Prelude.{◌≡◌};
ghost use Rattle.house_rows.specs.Names.{fault_number};
ghost use Rattle.house_rows.specs.declared.fault.KeepFault.TheVariants.{Memory};

use std::alloc::AllocError;
use thiserror::Error;

/// Why a keep doesn't answer.
#[derive(Clone, Copy, Debug, PartialEq, Eq, Error)]
pub enum KeepFault {
    /// Memory ran out. Nothing changed.
    #[error("memory is wanted")]
    Memory,
    /// The database failed, in this call or an earlier one. Every call answers this until the file is opened again.
    #[error("the store failed")]
    Store,
    /// A row doesn't fit its type, or the new key of a change other than a watch is taken. Nothing changed.
    #[error("the store is damaged")]
    Damaged,
}

impl From<AllocError> for KeepFault {
    ghost from_gives = { λ _ fault. fault ≡ Memory };

    fn from(_fault: AllocError) -> KeepFault {
        KeepFault::Memory
    }
}

impl KeepFault {
    /// The number of the fault, from 1 to 3.
    pub fn number(self) -> u32
        ensures { result ≡ fault_number self }
    {
        match self {
            KeepFault::Memory => 1,
            KeepFault::Store => 2,
            KeepFault::Damaged => 3,
        }
    }
}
