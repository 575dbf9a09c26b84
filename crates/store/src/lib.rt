//! The keep of a house in SQLite.
//!
//! Promised: a `SqlKeep` meets every clause of `Keep`. Wherever the disk was honest, each call answers
//! what its definition in `house_rows` finds in the tables that the connection holds, and a change is
//! made whole or not at all. After Memory or Damaged the tables are as before. Once a call has answered
//! Store every call does, and what a crash then leaves is the tables as they were before that call or
//! as its change makes them. A keep over files is ended with its house alone in the database file.
//!
//! Read `specs/Kept.antt` first, which says what the tables of a keep are and what it knows of them
//! without asking: settings, counts and the clock are kept beside the connection. Then read `keep`,
//! `changes` for what a change leaves, and `close`. How houses in files are made, opened and upgraded
//! is in `store_files`.
#![tactic(auto)]

mod after;
mod change_rows;
mod changes;
mod close;
mod keep;
mod numbers;
mod openings;
mod settled;

pub use close::{close_connection, close_files};
pub use keep::SqlKeep;
