//! Why a script is not played on.
use house_rows::KeepFault;
use std::alloc::AllocError;
use std::io;
use std::num::ParseIntError;
use thiserror::Error;

/// Why a script isn't played on.
#[derive(Clone, Copy, Debug, Error)]
pub enum ScriptFault {
    /// The script isn't text, or can't be read.
    #[error("the script can't be read")]
    Unread,
    /// A line is neither a command nor a question.
    #[error("a line is no part of a script")]
    Script,
    /// Memory ran out.
    #[error("memory is wanted")]
    Memory,
    /// The keep answered another fault than memory.
    #[error("the keep failed")]
    Keep,
    /// What is answered couldn't be printed.
    #[error("the answers can't be written")]
    Output,
}

impl From<AllocError> for ScriptFault {
    fn from(_: AllocError) -> ScriptFault {
        ScriptFault::Memory
    }
}

impl From<ParseIntError> for ScriptFault {
    fn from(_: ParseIntError) -> ScriptFault {
        ScriptFault::Script
    }
}

/// Of what is printed: what is read has a fault of its own.
impl From<io::Error> for ScriptFault {
    fn from(_: io::Error) -> ScriptFault {
        ScriptFault::Output
    }
}

impl From<KeepFault> for ScriptFault {
    fn from(fault: KeepFault) -> ScriptFault {
        match fault {
            KeepFault::Memory => ScriptFault::Memory,
            KeepFault::Store | KeepFault::Damaged => ScriptFault::Keep,
        }
    }
}
