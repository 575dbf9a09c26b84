//! What the command line says.
use house_script::ScriptFault;
use std::alloc::Global;
use std::env;
use std::io::ErrorKind;
use std::rt::Env;

/// What a script is of.
#[derive(Drop)]
pub(crate) enum Part {
    /// Sections, each of which says what it is of.
    Sections,
    /// Houses that lie in a place.
    Houses(Place),
    /// Lists of messages, some of which may be no text.
    Runs,
}

/// Where the house of a script lies.
#[derive(Drop)]
pub(crate) enum Place {
    /// In memory.
    Memory,
    /// In SQLite in memory.
    Sqlite,
    /// In a new file of this name.
    New(String),
    /// In a file of this name, where it is already.
    There(String),
}

/// The part that the command line names: none, `runs`, `memory`, `sqlite`, `make FILE` or `ask
/// FILE`.
pub(crate) fn named_part(rt: &(impl Env + AllocGlobal)) -> Result<Part, ScriptFault> {
    let mut words = env::args(rt).map_err(|error| match error.kind() {
        ErrorKind::OutOfMemory => ScriptFault::Memory,
        _ => ScriptFault::Script,
    })?;
    // The first word is the program's own name.
    let _ = words.next();
    let Some(word) = words.next() else {
        return Ok(Part::Sections);
    };
    match words.next() {
        None => part_of(word.as_str()),
        Some(path) => Ok(Part::Houses(place_at(word.as_str(), path)?)),
    }
}

// The part that a word names.
fn part_of(word: &str) -> Result<Part, ScriptFault> {
    match word {
        "runs" => Ok(Part::Runs),
        "memory" => Ok(Part::Houses(Place::Memory)),
        "sqlite" => Ok(Part::Houses(Place::Sqlite)),
        _ => Err(ScriptFault::Script),
    }
}

// The place that a word names with a path.
fn place_at(word: &str, path: String) -> Result<Place, ScriptFault> {
    match word {
        "make" => Ok(Place::New(path)),
        "ask" => Ok(Place::There(path)),
        _ => Err(ScriptFault::Script),
    }
}
