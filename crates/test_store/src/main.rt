//! Plays scripts on houses in memory and in SQLite: commands and questions, houses that are
//! stopped, and lists of messages.
//!
//! `test_store` plays a script of sections, each of which begins with its line, `> section houses`,
//! `> section stops` or `> section runs`. The modules of these names say what their lines may be,
//! after the mark of `transcript`. A word on the command line has a script played that is of one
//! part alone: `part` has these. The stored run is a test of the house's decisions, of the keep in
//! SQLite, and of what no clause says: that calls succeed, that a run answers as its messages one
//! by one, and what a stop leaves of a house in files. `stdin` has the script, `stdout` its
//! transcript, in which what has to be answered comes after each line, by the rules of the house
//! and by the formats.
#![tactic(auto)]

mod case;
mod files;
mod houses;
mod keeps;
mod list;
mod messages;
mod part;
mod replay;
mod run_player;
mod runs;
mod sessions;
mod stops;
mod tally;

use house_script::ScriptFault;
use part::{Part, named_part};
use std::alloc::Global;
use std::io::Read;
use std::process::ExitCode;

// What the line of a section begins with; its name comes after it.
const SECTION: &str = "> section ";

// All of the standard input.
fn read_all(rt: &impl Input, alloc: Global) -> Result<Vec<u8>, ScriptFault> {
    let mut bytes = Vec::new(alloc);
    match rt.reader().read_to_end(&mut bytes) {
        Ok(_) => Ok(bytes),
        Err(_) => Err(ScriptFault::Unread),
    }
}

// A script that is text.
fn text_of(script: &[u8]) -> Result<&str, ScriptFault> {
    match str::from_utf8(script) {
        Ok(text) => Ok(text),
        Err(_) => Err(ScriptFault::Unread),
    }
}

// Plays the sections of a script, which begins with the line of the first.
fn play_sections(rt: &HostRuntime, alloc: Global, script: &str) -> Result<(), ScriptFault> {
    let sections = script.strip_prefix(SECTION).ok_or(ScriptFault::Script)?;
    for section in sections.split(SECTION) {
        play_section(rt, alloc, section)?;
    }
    Ok(())
}

// Plays a section, from its name on.
fn play_section(rt: &HostRuntime, alloc: Global, section: &str) -> Result<(), ScriptFault> {
    let (name, lines) = section.split_once('\n').unwrap_or((section, ""));
    println!(rt; "{SECTION}{name}")?;
    match name {
        "houses" => houses::play_both(rt, alloc, lines),
        "stops" => stops::play(rt, alloc, lines),
        "runs" => runs::play(rt, alloc, lines.as_bytes()),
        _ => Err(ScriptFault::Script),
    }
}

// Plays a script of a part.
fn play_part(
    rt: &HostRuntime,
    alloc: Global,
    part: &Part,
    script: &[u8],
) -> Result<(), ScriptFault> {
    match part {
        Part::Sections => play_sections(rt, alloc, text_of(script)?),
        Part::Houses(place) => houses::play_in(rt, alloc, place, text_of(script)?),
        Part::Runs => runs::play(rt, alloc, script),
    }
}

// Plays the script as the command line says.
fn start(rt: &HostRuntime, alloc: Global) -> Result<(), ScriptFault> {
    let part = named_part(rt)?;
    let script = read_all(rt, alloc)?;
    play_part(rt, alloc, &part, &script)
}

fn main(rt: HostRuntime) -> ExitCode {
    match start(&rt, rt.alloc()) {
        Ok(()) => ExitCode::SUCCESS,
        Err(fault) => {
            let _ = eprintln!(rt; "test_store: {fault}");
            ExitCode::FAILURE
        }
    }
}
