//! What a script is: sections, each of which begins with its line.
//!
//! `section devices`, `section bands` and `section accounts` begin a section with nothing in it yet; the modules of
//! these names say what its lines may be. An empty line, and one that begins with `--`, has no answer.
use crate::accounts::Accounts;
use crate::bands::Tables;
use crate::devices::Devices;
use crate::{accounts, bands, devices};
use std::alloc::{AllocError, Global};
use thiserror::Error;

/// Why a script isn't played on.
#[derive(Clone, Copy, Debug, Error)]
pub(crate) enum ValuesFault {
    /// A line has no meaning, or the script isn't text.
    #[error("a line is no part of a script")]
    Script,
    /// Memory ran out.
    #[error("memory is wanted")]
    Memory,
    /// Rows are a table by the one look, and none by the other.
    #[error("rows are a table, and are none")]
    Table,
    /// What is answered couldn't be printed.
    #[error("the answers can't be written")]
    Output,
}

impl From<AllocError> for ValuesFault {
    fn from(_: AllocError) -> ValuesFault {
        ValuesFault::Memory
    }
}

/// What the lines of a section work on.
#[derive(Drop)]
pub(crate) enum Stage {
    /// Sources, sinks and writers.
    Devices(Devices),
    /// A text, and the example table.
    Bands(Tables),
    /// A zone, sales and a statement.
    Accounts(Accounts),
    /// Nothing: no section has begun.
    Nothing,
}

impl Stage {
    // What a section begins with.
    fn new(alloc: Global, section: &str) -> Result<Stage, ValuesFault> {
        match section {
            "devices" => Ok(Stage::Devices(Devices::new(alloc)?)),
            "bands" => Ok(Stage::Bands(Tables::new(alloc)?)),
            "accounts" => Ok(Stage::Accounts(Accounts::new(alloc)?)),
            _ => Err(ValuesFault::Script),
        }
    }
}

/// Plays a line, and gives what is answered to it, if anything is.
pub(crate) fn play(
    alloc: Global,
    stage: &mut Stage,
    line: &str,
) -> Result<Option<String>, ValuesFault> {
    if line.is_empty() || line.starts_with("--") {
        return Ok(None);
    }
    if let Some(section) = line.strip_prefix("section ") {
        renew(alloc, stage, section)?;
        return Ok(None);
    }
    match stage {
        Stage::Devices(devices) => devices::play(alloc, devices, line),
        Stage::Bands(tables) => bands::play(alloc, tables, line),
        Stage::Accounts(accounts) => accounts::play(alloc, accounts, line),
        Stage::Nothing => Err(ValuesFault::Script),
    }
}

// Begins a section.
fn renew(alloc: Global, stage: &mut Stage, section: &str) -> Result<(), ValuesFault> {
    *stage = Stage::new(alloc, section)?;
    Ok(())
}
