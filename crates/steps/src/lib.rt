//! Band tables: from an amount on, the step by which a price rises.
//!
//! Promised: a `Bands` is always a valid table, its step and least next amount are those that the
//! table defines, and a text is read exactly if it spells a valid table, and else answered by its
//! first fault. Read `specs/Table.antt` and `specs/Records.antt` first, which say this, and then
//! `bands`.
#![tactic(auto)]

mod bands;
mod fault;
mod judged;
mod laws;
mod reading;

pub use bands::Bands;
pub use fault::BandsFault;
pub use laws::{valid_tables_are_reported, valid_tables_rise};
