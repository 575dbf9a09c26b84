//! Bids in SQLite, and what a member has bid.
//!
//! Promised: each look-up and list answers what the house's definitions find in the tables that the
//! database holds, and a bid is made whole, with the standing of its item, in one transaction that
//! commits before the call answers Ok, or not at all. Read `bidding` first.
//!
//! What a write asks of the stored row is looked up before the transaction, and where it isn't so
//! the answer is Damaged.
#![tactic(auto)]

mod bid_lists;
mod bid_pages;
mod bidding;
mod look_ups;
mod member_bids;
mod own;

pub use bid_pages::own_bids;
pub use bidding::bid;
pub use own::own_best;
