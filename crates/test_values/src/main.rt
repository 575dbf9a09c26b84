//! Plays a script on what is below the site: devices, band tables, amounts, days and statements.
//!
//! The stored run is a test of what no clause says: that calls succeed, what comes of readers and
//! writers that fail, how often a writer is called, and that the clauses mean what people were
//! promised and write. `stdin` has the script, `stdout` its transcript, in which what has to be
//! answered comes after each line, worked out by hand, but for the days of moments, which are the C
//! library's. Read `script` first, which says what a line may be, after the mark of `transcript`.
//! Commands, changes and rows are made by `test_store`.
#![tactic(auto)]

mod accounts;
mod amounts;
mod bands;
mod days;
mod devices;
mod readers;
mod sales;
mod script;
mod sinks;
mod statements;
mod tables;
mod words;
mod writers;

use script::{Stage, ValuesFault};
use std::alloc::Global;
use std::io;
use std::process::ExitCode;
use transcript::echo;

// Plays the script.
fn play(rt: &(impl Input + Print), alloc: Global) -> Result<(), ValuesFault> {
    let script = io::read_to_string(alloc, rt.reader()).map_err(|_| ValuesFault::Script)?;
    let mut stage = Stage::Nothing;
    play_lines(rt, alloc, &mut stage, script.as_str())
}

// Plays the lines of the script, and prints what is answered.
fn play_lines(
    rt: &impl Print,
    alloc: Global,
    stage: &mut Stage,
    script: &str,
) -> Result<(), ValuesFault> {
    for line in script.lines() {
        let line = echo(rt, line).map_err(|_| ValuesFault::Output)?;
        if let Some(answer) = script::play(alloc, stage, line)? {
            println!(rt; "{answer}").map_err(|_| ValuesFault::Output)?;
        }
    }
    Ok(())
}

fn main(rt: HostRuntime) -> ExitCode {
    match play(&rt, rt.alloc()) {
        Ok(()) => ExitCode::SUCCESS,
        Err(fault) => {
            let _ = eprintln!(rt; "test_values: {fault}");
            ExitCode::FAILURE
        }
    }
}
