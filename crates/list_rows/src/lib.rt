//! Rows in memory: copies of them, and lists of rows in blocks.
//!
//! Promised: a table in blocks is the plain list that its blocks are one after the other, and each
//! call does to it what it does to that list. Read `copies` first, which says how a row that holds
//! texts is copied, and then `blocks`.
#![tactic(auto)]

mod blocks;
mod copies;
mod entries;
mod keyed;
mod places;

pub use blocks::{Changes, block, cut, put, row, update};
pub use copies::{Copied, chosen, clone_found, copies_of, push, push_copy, share_text};
pub use entries::{BidEntry, WatchEntry};
pub use keyed::{Keyed, RowKey};
