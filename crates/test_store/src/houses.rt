//! The section of houses: one command or one question a line, and one line of answer.
//!
//! `house_script` says what a line may be. The section is played on houses in memory up to the
//! comment `-- In SQLite.`, and after it on houses in SQLite in memory. A script of houses alone is
//! played in one place.
use crate::keeps::{Connects, Databases, InFile, InMemory, Lists, open_keep};
use crate::part::Place;
use house_script::{ScriptFault, ask, play};
use sqlite::Alter;
use std::alloc::Global;
use std::fs;

// What parts the section.
const MARK: &str = "-- In SQLite.\n";

/// Plays a section up to the mark on houses in memory, and after it in SQLite.
pub(crate) fn play_both(rt: &HostRuntime, alloc: Global, lines: &str) -> Result<(), ScriptFault> {
    let (first, rest) = lines.split_once(MARK).ok_or(ScriptFault::Script)?;
    play(rt, alloc, &Lists, first)?;
    print!(rt; "{MARK}")?;
    make(rt, alloc, &InMemory { alloc }, rest)
}

/// Plays a script on houses in a place.
pub(crate) fn play_in(
    rt: &HostRuntime,
    alloc: Global,
    place: &Place,
    script: &str,
) -> Result<(), ScriptFault> {
    match place {
        Place::Memory => play(rt, alloc, &Lists, script),
        Place::Sqlite => make(rt, alloc, &InMemory { alloc }, script),
        Place::New(path) => make(rt, alloc, &InFile::new(rt, path.as_str()), script),
        Place::There(path) if !is_there(rt, path.as_str()) => Err(ScriptFault::Keep),
        Place::There(path) => ask_there(rt, alloc, &InFile::new(rt, path.as_str()), script),
    }
}

// Plays a script on houses that are made in a place.
fn make<S: Alter + Drop, C: Connects<S>>(
    rt: &HostRuntime,
    alloc: Global,
    place: &C,
    script: &str,
) -> Result<(), ScriptFault> {
    play(rt, alloc, &Databases { place }, script)
}

// Asks the house that is in a place the questions of a script.
fn ask_there<S: Alter + Drop, C: Connects<S>>(
    rt: &HostRuntime,
    alloc: Global,
    place: &C,
    script: &str,
) -> Result<(), ScriptFault> {
    let mut keep = open_keep(alloc, place.connection()?)?;
    ask(rt, alloc, &mut keep, script)
}

// That a file is there which isn't empty: a connection would make a database of it.
fn is_there(rt: &HostRuntime, path: &str) -> bool {
    fs::metadata(rt, path).is_ok_and(|file| file.len() > 0)
}
