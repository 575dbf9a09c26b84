//! The items of the house in memory, with their standings.
//!
//! Promised: clauses see an `Items` as the plain list of its rows, and each call answers what a
//! search of that list would, or leaves what a change of each row would. Read `items` first, and
//! then `specs/Indexed.antt`, which says what the indexes know.
//!
//! Inside, calls go by number, by lot, by category, by seller, by buyer and by end. So they cost in
//! what they answer or change, and in all items only by the depth of the trees, which grows with the
//! logarithm; `all` alone goes over every row. No clause says so.
#![tactic(auto)]

mod close;
mod entry;
mod groups;
mod items;
mod listing;
mod lots;
mod numbers;
mod sale;

pub use entry::ItemEntry;
pub use items::Items;
