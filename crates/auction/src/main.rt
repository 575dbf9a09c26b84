//! The auction house's program: `auction init` makes a house in a file, `auction serve` answers
//! connections over it, `auction import` lists the rows of a file in it, `auction bands` sets a band
//! table in it, and `auction statement` prints what a member sold and bought. `auction upgrade` makes
//! a house of version 1 one of version 2. `auction replay` answers the messages on its standard input over a new house in memory,
//! `auction audit` compares two lists of messages as one member sees them, and `auction surplus` one
//! list with itself after a sealed bid in it is raised.
//!
//! Promised: each fault has its line on standard error and its exit status, and the program ends
//! with 0 where there is none. Here words become a house, a reader and a writer: `auction_words`
//! reads what the words say, `tcp` brings connections, and a run of `auction_runs` does what they
//! ask for. Read `program` first, then a file of one subcommand or two, such as `service`, and then
//! `houses` and `files`.
#![tactic(auto)]

mod accounts;
mod audit;
mod copies;
mod files;
mod houses;
mod input;
mod lots;
mod program;
mod remains;
mod replay;
mod service;
mod stores;
mod upkeep;

use std::process::ExitCode;

fn main(rt: HostRuntime) -> ExitCode {
    ExitCode::from(program::run(&rt))
}
