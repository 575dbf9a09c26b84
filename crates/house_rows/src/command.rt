//! The commands.
use crate::rating::Rating;
use crate::rows::Rows;
use crate::text::Text;

/// What a caller asks the house to do. Numbers, amounts and texts are as they were asked for, in range or
/// not; amounts are in cents, and moments in whole seconds since 1970-01-01T00:00:00Z.
#[derive(Drop)]
pub enum Command {
    /// The house registers a member.
    Register {
        /// Its name.
        name: Text,
    },
    /// The house adds a category.
    AddCategory {
        /// Its name.
        name: Text,
    },
    /// The caller lists an item for sale.
    List {
        /// The number of the category.
        category: u64,
        /// The seller's own code for the item.
        lot: Text,
        /// The title.
        title: Text,
        /// The description.
        text: Text,
        /// The price that bidding begins with.
        start: u64,
        /// The price for which it may be bought at once.
        buy_now: Option<u64>,
        /// When it ends.
        end: u64,
        /// The least for which the caller sells, which is sealed.
        reserve: Option<u64>,
    },
    /// The caller bids.
    Bid {
        /// The number of the item.
        item: u64,
        /// The sealed maximum.
        maximum: u64,
    },
    /// The caller buys an item at once.
    Buy {
        /// The number of the item.
        item: u64,
    },
    /// The house closes every item that is due.
    Close,
    /// The house settles a sale.
    Settle {
        /// The number of the item.
        item: u64,
    },
    /// The caller watches an item.
    Watch {
        /// The number of the item.
        item: u64,
    },
    /// The caller watches an item no longer.
    Unwatch {
        /// The number of the item.
        item: u64,
    },
    /// The caller asks the seller of an item.
    Ask {
        /// The number of the item.
        item: u64,
        /// The question.
        text: Text,
    },
    /// The seller of an item answers a question.
    Answer {
        /// The number of the item.
        item: u64,
        /// Who asked.
        asker: u64,
        /// The number of the question among the asker's on the item.
        number: u64,
        /// The answer.
        text: Text,
    },
    /// A party of a sale rates the other.
    Feedback {
        /// The number of the item.
        item: u64,
        /// The rating; none where it was asked for with a number that is no rating.
        rating: Option<Rating>,
        /// The text.
        text: Text,
    },
    /// The house sets a new band table. Items that are listed keep theirs.
    SetBands {
        /// The rows, each as (at, step) in cents.
        bands: Rows<(u64, u64)>,
    },
}
