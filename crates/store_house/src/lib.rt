//! A house in SQLite: found, its members and categories, and how many rows it has.
//!
//! Promised: each look-up and list answers what the house's definitions find in the tables that the
//! database holds. `register` and `add_category` are made whole, in one transaction that commits before
//! the call answers Ok, or not at all. A count is that of a table's rows. `house_by_names` and
//! `either_by_names` hand out a connection that shows the tables of a house in their order, wherever
//! they lie in its store, as SQLite's `VACUUM` or `.dump` leave them, or give the store back.
//!
//! Everything is said wherever the disk was honest. Not promised: when an error is `Memory` or `Store`.
//! Read `specs/Opening.antt` first, then `members` and `registration`, and `specs/Named.antt` before
//! `by_names`.
#![tactic(auto)]

mod by_names;
mod categories;
mod found;
mod look_ups;
mod members;
mod numbers;
mod places;
mod registration;
mod same;
mod schemas;

pub use by_names::{either_by_names, house_by_names, names_find_tables};
pub use categories::{all_categories, category_at, category_named};
pub use look_ups::{has_category, has_member};
pub use members::{all_members, member_at, member_named};
pub use numbers::read_counts;
pub use registration::{add_category, register};
