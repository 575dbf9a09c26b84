//! The house in a file, opened and upgraded, and its band tables.
//!
//! Promised: `open_house` takes any connection, and hands out one that holds a house of version 2
//! whose row fits, with what its settings, its band tables, its reserves, its counts and its clock
//! are. The names of its tables find it, in whatever order they lie. It is never `Damaged` of a sound
//! house, which `HoldsSound` of `store_house` defines. `upgrade_house` opens such a house as it is,
//! and makes one of version 1 into it, whole or not at all. `set_bands` writes one band table more
//! and a new clock, in one transaction. Read `open.rt` first, then `upgrade.rt` and `new_bands.rt`.
//!
//! Everything is said wherever the disk was honest. An opening that fails gives the store back, which
//! shows in some order what it held. So does an upgrade, except that after `Store` a crash may find
//! the house upgraded.
//! Not promised: when an error is `Memory` or `Store`, and that rows of other tables than the house,
//! its band tables and its reserves fit: an opening does not read them.
#![tactic(auto)]

mod edition_rows;
mod editions;
mod house;
mod new_bands;
mod open;
mod reserves;
mod upgrade;

pub use editions::table_of;
pub use house::Opened;
pub use new_bands::set_bands;
pub use open::{open_house, opened_house};
pub use upgrade::upgrade_house;
