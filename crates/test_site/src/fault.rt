//! Why a script isn't played on.
use house_rows::KeepFault;
use pages::PageFault;
use std::alloc::AllocError;
use std::io;
use thiserror::Error;

/// Why a script isn't played on.
#[derive(Clone, Copy, Debug, Error)]
pub(crate) enum SiteFault {
    /// The script isn't text, or can't be read.
    #[error("the script can't be read")]
    Unread,
    /// A line has no meaning, or a command is refused that has to be accepted.
    #[error("a line is no part of a script")]
    Script,
    /// Memory ran out.
    #[error("memory is wanted")]
    Memory,
    /// The keep answered another fault than memory.
    #[error("the keep failed")]
    Keep,
    /// The two bodies of a page, or of the record, show different texts.
    #[error("a tree has another text")]
    Apart,
    /// A connection of the program with itself couldn't be made, or failed.
    #[error("a connection failed")]
    Socket,
    /// The reply isn't text, or couldn't be printed.
    #[error("the reply can't be written")]
    Output,
}

impl From<AllocError> for SiteFault {
    fn from(_: AllocError) -> SiteFault {
        SiteFault::Memory
    }
}

impl From<io::Error> for SiteFault {
    fn from(_: io::Error) -> SiteFault {
        SiteFault::Output
    }
}

impl From<KeepFault> for SiteFault {
    fn from(fault: KeepFault) -> SiteFault {
        match fault {
            KeepFault::Memory => SiteFault::Memory,
            KeepFault::Store | KeepFault::Damaged => SiteFault::Keep,
        }
    }
}

impl From<PageFault> for SiteFault {
    fn from(fault: PageFault) -> SiteFault {
        match fault {
            PageFault::Keep(fault) => fault.into(),
            PageFault::Memory => SiteFault::Memory,
        }
    }
}
