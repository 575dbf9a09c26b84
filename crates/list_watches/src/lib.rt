//! What members watch, in memory.
//!
//! Promised: a `Watches` is the plain list of what members watch, by member and item. Read `watches`.
//!
//! A call costs in the watches of one member alone, but that a member's first watch makes the blocks
//! up to its number, each of them once.
#![tactic(auto)]

mod watches;

pub use watches::Watches;
