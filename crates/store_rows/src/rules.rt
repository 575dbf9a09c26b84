//! What a reader of items goes by, beside the rows of the table of items.
use crate::reserves::Reserves;
use house_rows::Editions;

/// The band tables and the reserves of a house.
#[derive(Drop)]
pub struct Rules {
    /// The band tables, with what the house was set up with.
    pub editions: Editions,
    /// The reserves.
    pub reserves: Reserves,
}
