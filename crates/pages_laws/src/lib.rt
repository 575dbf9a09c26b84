//! Laws of pages: what the tables of a history show is what the history shows, and members to whom
//! two histories look alike are shown the same.
//!
//! Promised: each law, as the clause of a function that does nothing. Read `specs/ByTables.antt`
//! first, which says every page by the tables, and then `specs/Laws.antt`.
#![tactic(auto)]

mod laws;

pub use laws::pages_are_same_by_tables;
