//! What an accepted command changes.
use crate::rating::Rating;
use crate::text::Text;
use cents::Cents;
use proxy::{Bid, Standing};

/// A new item, as its seller lists it. The end is in whole seconds since 1970-01-01T00:00:00Z.
#[derive(Clone, Copy)]
pub struct NewItem<'c> {
    /// The number of the member that sells it.
    pub seller: u32,
    /// The number of its category.
    pub category: u32,
    /// The seller's own code for it.
    pub lot: &'c Text,
    /// The title.
    pub title: &'c Text,
    /// The description.
    pub text: &'c Text,
    /// The price that bidding begins with.
    pub start: Cents,
    /// The price for which it may be bought at once.
    pub buy_now: Option<Cents>,
    /// When it ends.
    pub end: u64,
    /// The least for which it is sold, which is sealed.
    pub reserve: Option<Cents>,
}

/// What an accepted command changes, whole. Texts are those of the command. Moments are in whole
/// seconds since 1970-01-01T00:00:00Z.
#[derive(Clone, Copy)]
pub enum Change<'c> {
    /// A member comes, with the next number.
    Register {
        moment: u64,
        name: &'c Text,
    },
    /// A category comes, with the next number.
    AddCategory {
        moment: u64,
        name: &'c Text,
    },
    /// An item comes, with the next number.
    List {
        moment: u64,
        item: NewItem<'c>,
    },
    /// A bid was placed, and the item has this standing.
    Bid {
        moment: u64,
        item: u32,
        placed: Bid,
        standing: Standing,
    },
    /// An item was bought.
    Buy {
        moment: u64,
        item: u32,
        buyer: u32,
        price: Cents,
    },
    /// Every open item whose end is at or before the moment closes.
    Close {
        moment: u64,
    },
    /// A sale was settled.
    Settle {
        moment: u64,
        item: u32,
    },
    /// A member watches an item, if it doesn't yet.
    Watch {
        member: u32,
        item: u32,
    },
    /// A member watches an item no longer.
    Unwatch {
        member: u32,
        item: u32,
    },
    /// A question was asked.
    Ask {
        item: u32,
        asker: u32,
        number: u32,
        text: &'c Text,
    },
    /// A question was answered.
    Answer {
        moment: u64,
        item: u32,
        asker: u32,
        number: u32,
        text: &'c Text,
    },
    /// A party of a sale rated the other.
    Feedback {
        moment: u64,
        item: u32,
        from: u32,
        to: u32,
        rating: Rating,
        text: &'c Text,
    },
    /// A band table comes, as the next edition. Each row is (at, step) in cents.
    SetBands {
        moment: u64,
        bands: &'c [(u64, u64)],
    },
}
