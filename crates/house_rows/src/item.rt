//! Items as everybody sees them, and what a member has of its own on them. No sealed amount of
//! another is here.
use crate::state::State;
use crate::text::Text;
use cents::Cents;

/// All of an item but its texts.
#[derive(Clone, Copy)]
pub struct Terms {
    /// The number of the item, from 1 to 1000000, in order of listing.
    pub item: u32,
    /// The number of the member that sells it.
    pub seller: u32,
    /// The number of its category.
    pub category: u32,
    /// The price that bidding begins with, of at least one cent.
    pub start: Cents,
    /// The price for which it may be bought at once, until the first bid; at least the start.
    pub buy_now: Option<Cents>,
    /// When it ends, in whole seconds since 1970-01-01T00:00:00Z, at most 4102444800.
    pub end: u64,
    /// Its state.
    pub state: State,
    /// When it closed: at its end, or at the moment of its purchase.
    pub closed: Option<u64>,
    /// The public price.
    pub price: Cents,
    /// The number of the member that leads or has bought it.
    pub leader: Option<u32>,
    /// How many bids were accepted, at most 10000.
    pub count: u32,
    /// Whether its reserve is met; none where it has none.
    pub met: Option<bool>,
}

/// An item.
#[derive(Drop)]
pub struct Item {
    /// All but the texts.
    pub terms: Terms,
    /// The seller's own code for it: 1 to 20 letters, digits and `-`. The seller has no other item with it.
    pub lot: Text,
    /// The title, of 1 to 80 bytes.
    pub title: Text,
    /// The description, of at most 2000 bytes.
    pub text: Text,
}

/// An item as pages show it.
#[derive(Drop)]
pub struct ItemShown {
    /// The item.
    pub item: Item,
    /// The edition of its band table, that of its listing.
    pub edition: u32,
    /// The least maximum that is taken of who doesn't lead, in cents; none unless the item is open.
    pub floor: Option<u64>,
}

/// What a member has bid on one item.
#[derive(Clone, Copy)]
pub struct OwnBest {
    /// The greatest of its maxima.
    pub maximum: Cents,
    /// The number of its bids.
    pub mine: u64,
}

/// An item on which a member has bid.
#[derive(Clone, Copy)]
pub struct OwnBid {
    /// The number of the item.
    pub item: u32,
    /// Whether the member is the item's leader.
    pub leading: bool,
    /// The greatest of its maxima.
    pub maximum: Cents,
    /// The number of its bids.
    pub mine: u64,
    /// The public price.
    pub price: Cents,
    /// The item's state.
    pub state: State,
}

/// A reserve of a member on an item that it sells.
#[derive(Clone, Copy)]
pub struct OwnReserve {
    /// The number of the item.
    pub item: u32,
    /// Whether the reserve is met.
    pub met: bool,
    /// The reserve.
    pub reserve: Cents,
}

/// How many items a close takes.
#[derive(Clone, Copy)]
pub struct Due {
    /// How many it leaves sold.
    pub sold: u64,
    /// How many it leaves unsold.
    pub unsold: u64,
}
