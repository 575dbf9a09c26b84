//! Items listed, bought, closed and settled in SQLite, and what a close would sell.
//!
//! Promised: a listing, a purchase, a close and a settlement are made whole, each in one
//! transaction that commits before the call answers Ok, or not at all, and what a close would sell
//! is what the house's definitions find in the tables that the database holds. Read
//! `specs/Sales.antt` first, then `settlement`, the plainest of the changes.
//!
//! What a write asks of the stored row is looked up before the transaction, and where it isn't so
//! the answer is Damaged.
#![tactic(auto)]

mod auction_end;
mod due_items;
mod listing;
mod purchase;
mod settlement;
mod sold_rule;

pub use auction_end::close;
pub use due_items::due;
pub use listing::list;
pub use purchase::buy;
pub use settlement::settle;
