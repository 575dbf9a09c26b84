//! Editions of the band table that the house has set.
use steps::Bands;

/// A band table that the house has set. The table that the house was set up with is edition 1.
#[derive(Drop)]
pub struct Edition {
    /// Its number, from 2 to 100, in the order in which they were set.
    pub edition: u32,
    /// The number that the next item got: the least number of an item that goes by it, if no later
    /// edition has the same.
    pub first: u32,
    /// The band table.
    pub bands: Bands,
}
