//! An item as a bid finds it.
use crate::item::Terms;
use proxy::Standing;

/// An item without its texts, with the standing of its bids, whose maxima are sealed.
#[derive(Clone, Copy)]
pub struct Auction {
    /// All of the item but its texts.
    pub terms: Terms,
    /// The standing of its bids; of a bought item that of none.
    pub standing: Standing,
}
