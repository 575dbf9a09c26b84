//! Plays a script on houses in memory: what pages show, and streams over devices that fail, over a
//! connection, and as connections in turn.
//!
//! The stored run is a test of what no clause says: that calls succeed, that both bodies of the
//! pages mean what the formats say, and that a fault is reported where a device failed and nowhere
//! else. `stdin` has the script, `stdout` its transcript. It has sections, each of which begins
//! with its line, `> section pages` or `> section streams`. In that of pages each page comes after
//! its line, made by `tests/program/plain_pages.py`, which knows the rules and the formats alone; in
//! that of streams is what has to be reported, written by hand. Read `page_script` and
//! `stream_script` first, which say what a line may be, after the mark of `transcript`.
#![tactic(auto)]

mod bodies;
mod failures;
mod fault;
mod fixed_bytes;
mod message;
mod page_script;
mod player;
mod reader;
mod server;
mod socket;
mod stream;
mod stream_script;
mod turns;

use fault::SiteFault;
use std::alloc::Global;
use std::io;
use std::process::ExitCode;

// What the line of a section begins with; its name comes after it.
const SECTION: &str = "> section ";

// Plays the script.
fn play(rt: &HostRuntime, alloc: Global) -> Result<(), SiteFault> {
    match io::read_to_string(alloc, rt.reader()) {
        Ok(script) => play_sections(rt, alloc, script.as_str()),
        Err(_) => Err(SiteFault::Unread),
    }
}

// Plays the sections of a script, which begins with the line of the first.
fn play_sections(rt: &HostRuntime, alloc: Global, script: &str) -> Result<(), SiteFault> {
    let sections = script.strip_prefix(SECTION).ok_or(SiteFault::Script)?;
    for section in sections.split(SECTION) {
        play_section(rt, alloc, section)?;
    }
    Ok(())
}

// Plays a section, from its name on.
fn play_section(rt: &HostRuntime, alloc: Global, section: &str) -> Result<(), SiteFault> {
    let (name, lines) = section.split_once('\n').unwrap_or((section, ""));
    println!(rt; "{SECTION}{name}")?;
    match name {
        "pages" => page_script::play(rt, alloc, lines),
        "streams" => stream_script::play(rt, alloc, lines),
        _ => Err(SiteFault::Script),
    }
}

fn main(rt: HostRuntime) -> ExitCode {
    match play(&rt, rt.alloc()) {
        Ok(()) => ExitCode::SUCCESS,
        Err(fault) => {
            let _ = eprintln!(rt; "test_site: {fault}");
            ExitCode::FAILURE
        }
    }
}
