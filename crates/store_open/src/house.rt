//! What an opening hands out.

use house_rows::{Counts, Editions};
use sqlite::{Alter, Connection};
use store_rows::Reserves;

/// A house that was opened.
#[derive(Drop)]
pub struct Opened<S: Alter> {
    /// The connection, which holds a house.
    pub conn: Connection<S>,
    /// What it is set up with, and its band tables.
    pub editions: Editions,
    /// Its reserves.
    pub reserves: Reserves,
    /// How many members, categories and items it has.
    pub counts: Counts,
    /// Its clock, in seconds since 1970-01-01T00:00:00Z.
    pub clock: u64,
}
