//! The result of an accepted command, found before its change is made.
//!
//! Promised: for every history whose tables a keep has, the result is what the definition gives for
//! the command once it is entered; the tables stay. Read `results` first; the other files find
//! the numbers that a change doesn't carry.
#![tactic(auto)]

mod bands;
mod bidding;
mod close;
mod listing;
mod people;
mod results;
mod settlement;

pub use results::tell;
