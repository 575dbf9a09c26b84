//! Bids in memory, and what each member has bid on each item.
//!
//! Promised: a `Bids` is the plain list of all bids, by item and number; a bid is placed whole or
//! not at all. Read `bids`.
//!
//! What a member has bid is answered without a look at others' bids, which no clause says.
#![tactic(auto)]

mod bids;
mod places;
mod tally;

pub use bids::Bids;
pub use tally::Tally;
