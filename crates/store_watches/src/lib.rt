//! What members watch, in SQLite.
//!
//! Promised: each look-up and list answers what the house's definitions find in the tables that the
//! database holds, and a watch is put or cut whole, in one transaction that commits before the call
//! answers Ok, or not at all; neither is ever `Damaged`. Read `watch_rows` first.
//!
//! Not promised: when an error is `Memory` or `Store`.
#![tactic(auto)]

mod list;
mod look_up;
mod rows;
mod watch_rows;
mod watched_items;

pub use look_up::is_watched;
pub use watch_rows::{unwatch, watch};
pub use watched_items::{items_watched, watch_count};
