//! Why the tree of a page or of the record isn't made.
ghost use Rattle.std.specs.Prelude.{◌≡◌};
ghost use Rattle.pages_text.specs.declared.fault.PageFault.TheVariants as fault;

use house_rows::KeepFault;
use std::alloc::AllocError;
use thiserror::Error;

/// Why the tree of a page or of the record isn't made.
#[derive(Clone, Copy, Debug, Error)]
pub enum PageFault {
    /// The keep didn't answer.
    #[error("{0}")]
    Keep(KeepFault),
    /// Memory for the tree ran out.
    #[error("memory is wanted")]
    Memory,
}

impl From<KeepFault> for PageFault {
    ghost from_gives = { λ cause page_fault. page_fault ≡ fault.Keep cause };

    fn from(cause: KeepFault) -> PageFault {
        PageFault::Keep(cause)
    }
}

impl From<AllocError> for PageFault {
    ghost from_gives = { λ _ page_fault. page_fault ≡ fault.Memory };

    fn from(_cause: AllocError) -> PageFault {
        PageFault::Memory
    }
}
