//! The result of a caller's command.
use crate::rating::Rating;
use cents::Cents;

/// The result of an accepted command.
#[derive(Clone, Copy)]
pub enum CommandResult {
    /// A member came.
    Registered {
        /// Its number.
        member: u32,
    },
    /// A category came.
    Added {
        /// Its number.
        category: u32,
    },
    /// An item was listed.
    Listing {
        /// Its number.
        item: u32,
    },
    /// A bid was taken, and the item has this standing.
    Placed {
        /// How many bids were accepted on the item.
        count: u32,
        /// The least maximum that is taken of others from now on, in cents.
        floor: u64,
        /// The number of the member that leads.
        leader: Option<u32>,
        /// The public price.
        price: Cents,
    },
    /// An item was bought.
    Bought {
        /// Its number.
        item: u32,
        /// What the buyer pays.
        price: Cents,
    },
    /// Every item that was due was closed.
    Closed {
        /// How many were left sold.
        sold: u64,
        /// How many were left unsold.
        unsold: u64,
    },
    /// A sale was settled.
    Settlement {
        /// What the seller pays to the house, in cents.
        fee: u64,
        /// The number of the item.
        item: u32,
        /// What is left to the seller, in cents.
        net: u64,
        /// What the buyer pays.
        price: Cents,
    },
    /// The caller watches an item, or watches it no longer.
    Watched {
        /// Its number.
        item: u32,
        /// Whether it is watched.
        watched: bool,
    },
    /// A question was asked or answered.
    Question {
        /// The number of the member that asked.
        asker: u32,
        /// The number of the item.
        item: u32,
        /// The number among this asker's questions on this item.
        number: u32,
    },
    /// A party of a sale rated the other.
    Rated {
        /// The number of the item.
        item: u32,
        /// The rating.
        rating: Rating,
        /// The number of the member that is rated.
        to: u32,
    },
    /// A band table came.
    Edition {
        /// Its number.
        edition: u32,
    },
    /// There is no such item, or no such rating. An accepted command never has this result.
    Nothing,
}
