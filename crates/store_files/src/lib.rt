//! Keeps of a house in a log and a database file whose trees lie in any order.
//!
//! Promised: an opening takes a sound house whatever the order of its trees in the file, and has
//! the tables that their names find. A making fills files that hold no table. An upgrade keeps the
//! tables of a house of version 1, leaves one of version 2 as it is, and tells which it found. As long
//! as the disk was honest, an opening of what a crash leaves of such a keep's files finds, by the names
//! of the tables, what the crash may leave of the keep. A house in files is also opened over copies of
//! these in memory: such a keep has the tables that the files hold, and nothing is written into them.
//!
//! Read `specs/InOrder.antt` first, then `openings`, `creations` and `upgrades`, and `reopenings`
//! for what a crash does.
#![tactic(auto)]

mod copied_files;
mod copies;
mod creations;
mod laws;
mod openings;
mod reopenings;
mod upgrades;

pub use copied_files::copy_files;
pub use copies::{InMemory, open_copies};
pub use creations::create_files;
pub use laws::{
    crashes_leave_databases, houses_lie_in_any_order, openings_find_what_crashes_leave,
};
pub use openings::open_files;
pub use reopenings::reopen_after_crash;
pub use upgrades::upgrade_files;
