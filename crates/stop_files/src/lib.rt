//! Files in memory that stop at a call, as a database's disk has them: for tests of what a crash leaves.
//!
//! A `Plate` is a file. Promised: it answers as an honest file does for so many calls, refuses each one after, and
//! what it may hold when the machine comes back is what was written, without what is lost. A `Drive` is a plate as
//! `Modelled` of `sqlite_disk` asks for it, and notes each call with its answer. A `Pair` has two, the log and the
//! database file; what its cells hold no clause says. Read `plate` first.
#![tactic(auto)]

mod drive;
mod pair;
mod plate;
mod record;

pub use drive::{Drive, Stopping};
pub use pair::{Image, Pair, Side};
pub use plate::{Loss, Plate};
