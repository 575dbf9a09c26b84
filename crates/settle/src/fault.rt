//! Why there is no day, no zone, no statement or no text of it.
ghost use Rattle.std.specs.Prelude.{◌≡◌};
ghost use Rattle.settle.specs.Fault.{number_of};

use device::Failure;
use std::alloc::AllocError;
use thiserror::Error;

/// Why a call of this crate failed.
#[derive(Clone, Copy, Debug, Error)]
pub enum SettleFault {
    /// The text is no day of 1970 to 2100, written `YYYY-MM-DD`.
    #[error("not a day of 1970 to 2100")]
    Date = 1,
    /// The period ends before it begins.
    #[error("the last day is before the first")]
    Order = 2,
    /// The text is no rule of a time zone.
    #[error("not a rule of a time zone")]
    Zone = 3,
    /// There was no memory.
    #[error("out of memory")]
    Memory = 4,
    /// The sink has failed. A beginning of the text may have gone out.
    #[error("the text could not be written")]
    Write = 5,
}

impl SettleFault {
    /// The number of the fault, from 1 to 5.
    pub fn number(self) -> u32
        ensures { result ≡ number_of self }
    {
        self as u32
    }
}

impl From<AllocError> for SettleFault {
    ghost use Rattle.settle.specs.declared.fault.SettleFault.TheVariants.{Memory};

    ghost from_gives = { λ _ fault. fault ≡ Memory };

    fn from(_error: AllocError) -> SettleFault {
        SettleFault::Memory
    }
}

impl From<Failure> for SettleFault {
    ghost use Rattle.settle.specs.declared.fault.SettleFault.TheVariants.{Write};

    ghost from_gives = { λ _ fault. fault ≡ Write };

    fn from(_failure: Failure) -> SettleFault {
        SettleFault::Write
    }
}
