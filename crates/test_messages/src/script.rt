//! What a script is: sections, each of which begins with its line.
//!
//! `section frames`, `section routes` and `section asks` begin a section with nothing in it yet; the modules of these
//! names say what its lines may be. An empty line, and one that begins with `--`, has no answer.
use crate::asks::Asks;
use crate::frames::Frames;
use crate::{asks, frames, routes};
use site_request::Routes;
use std::alloc::{AllocError, Global};
use thiserror::Error;

/// Why a script isn't played on.
#[derive(Clone, Copy, Debug, Error)]
pub(crate) enum MessageFault {
    /// A line has no meaning, or the script isn't text.
    #[error("a line is no part of a script")]
    Script,
    /// Memory ran out.
    #[error("memory is wanted")]
    Memory,
    /// A stream has no end.
    #[error("a stream isn't read to its end")]
    Stream,
    /// What is answered couldn't be printed.
    #[error("the answers can't be written")]
    Output,
}

impl From<AllocError> for MessageFault {
    fn from(_: AllocError) -> MessageFault {
        MessageFault::Memory
    }
}

/// What the lines of a section work on.
#[derive(Drop)]
pub(crate) enum Stage {
    /// No section has begun.
    Start,
    /// A text, an inbox, and answers.
    Frames(Frames),
    /// The table of routes.
    Routes(Routes),
    /// A message.
    Asks(Asks),
}

impl Stage {
    // What a section begins with.
    fn new(alloc: Global, section: &str) -> Result<Stage, MessageFault> {
        match section {
            "frames" => Ok(Stage::Frames(Frames::new(alloc)?)),
            "routes" => Ok(Stage::Routes(Routes::new(alloc)?)),
            "asks" => Ok(Stage::Asks(Asks::new(alloc)?)),
            _ => Err(MessageFault::Script),
        }
    }
}

/// Plays a line, and gives what is answered to it, if anything is.
pub(crate) fn play(
    alloc: Global,
    stage: &mut Stage,
    line: &str,
) -> Result<Option<String>, MessageFault> {
    if line.is_empty() || line.starts_with("--") {
        return Ok(None);
    }
    if let Some(section) = line.strip_prefix("section ") {
        renew(alloc, stage, section)?;
        return Ok(None);
    }
    match stage {
        Stage::Start => Err(MessageFault::Script),
        Stage::Frames(frames) => frames::play(alloc, frames, line),
        Stage::Routes(routes) => Ok(Some(routes::answer(alloc, routes, line)?)),
        Stage::Asks(asks) => asks::play(alloc, asks, line),
    }
}

// Begins a section.
fn renew(alloc: Global, stage: &mut Stage, section: &str) -> Result<(), MessageFault> {
    *stage = Stage::new(alloc, section)?;
    Ok(())
}
