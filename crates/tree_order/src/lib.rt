//! A store that gives the trees of another one other numbers.
//!
//! A file of SQLite numbers its trees by their places in `sqlite_schema`, and a file that was
//! compacted lists its tables before its indexes. `Renumbered` shows such a file's trees in the
//! order that a program knows, and changes no byte for it.
//! Read `specs/Renumbered.antt` first, which says what it shows.
#![tactic(auto)]

mod alter;
mod numbers;
mod renumbered;
mod rows;

pub use numbers::Numbers;
pub use renumbered::Renumbered;
