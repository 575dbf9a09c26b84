//! A house in SQLite, made in SQLite's own order.
//!
//! Promised: `make_house` leaves a database that lists its tables first and then its indexes, as SQLite's
//! `VACUUM` leaves it, and in which the names find the tables of a house with no history; a crash finds
//! this or what it could find before. It is `Damaged` exactly where something is listed already or a
//! transaction is open. A house that an opening by names shows of it has these tables.
//!
//! Everything is said wherever the disk was honest. Not promised: when an error is `Memory` or `Store`.
//! Read `specs/Made.antt` first, then `make`.
#![tactic(auto)]

mod laws;
mod make;
mod put;
mod tables;

pub use laws::{made_houses_are_found, made_houses_are_held};
pub use make::make_house;
