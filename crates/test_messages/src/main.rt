//! Plays a script on messages: texts as frames, streams through an inbox, answers, routes, and what messages ask.
//!
//! The stored run is a test of what no clause says: that calls succeed, that the table of routes
//! can be made, and that the clauses mean what RFC 9110 and RFC 9112 say, what real clients send
//! (`tests/program/clients` has how those were captured), and what the house's routes, fields and
//! faults are said to be. `stdin` has the script, `stdout` its transcript, in which what has to be
//! answered comes after each line, written by hand. Read `script` first, which says what a line may
//! be, after the mark of `transcript`.
#![tactic(auto)]

mod asks;
mod commands;
mod frames;
mod messages;
mod responses;
mod routes;
mod runs;
mod script;
mod streams;
mod words;

use script::{MessageFault, Stage};
use std::alloc::Global;
use std::io;
use std::process::ExitCode;
use transcript::echo;

// Plays the script.
fn play(rt: &(impl Input + Print), alloc: Global) -> Result<(), MessageFault> {
    let script = io::read_to_string(alloc, rt.reader()).map_err(|_| MessageFault::Script)?;
    let mut stage = Stage::Start;
    play_lines(rt, alloc, &mut stage, script.as_str())
}

// Plays the lines of the script, and prints what is answered.
fn play_lines(
    rt: &impl Print,
    alloc: Global,
    stage: &mut Stage,
    script: &str,
) -> Result<(), MessageFault> {
    for line in script.lines() {
        let line = echo(rt, line).map_err(|_| MessageFault::Output)?;
        if let Some(answer) = script::play(alloc, stage, line)? {
            println!(rt; "{answer}").map_err(|_| MessageFault::Output)?;
        }
    }
    Ok(())
}

fn main(rt: HostRuntime) -> ExitCode {
    match play(&rt, rt.alloc()) {
        Ok(()) => ExitCode::SUCCESS,
        Err(fault) => {
            let _ = eprintln!(rt; "test_messages: {fault}");
            ExitCode::FAILURE
        }
    }
}
