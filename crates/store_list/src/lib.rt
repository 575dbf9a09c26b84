//! The tables of the house in memory.
//!
//! Promised: a `ListKeep` meets every clause of `Keep`. Its tables are always sound, so that no
//! look-up answers Damaged; a change is made whole or not at all, and Store is never answered. Read
//! `keep` first, and then `changes`, whose calls make one change each.
#![tactic(auto)]

mod bids;
mod changes;
mod keep;
mod tables;
mod watches;

pub use keep::ListKeep;
