//! The paths of commands.

/// The path of a command, with its numbers. The rest of a command is in its body.
#[derive(Clone, Copy, Debug)]
pub enum CommandPath {
    /// The house registers a member.
    Register,
    /// The house adds a category.
    AddCategory,
    /// The caller lists an item for sale.
    List,
    /// The caller bids.
    Bid {
        /// The number of the item.
        item: u64,
    },
    /// The caller buys an item at once.
    Buy {
        /// The number of the item.
        item: u64,
    },
    /// The house closes every item that is due.
    Close,
    /// The house settles a sale.
    Settle {
        /// The number of the item.
        item: u64,
    },
    /// The caller watches an item.
    Watch {
        /// The number of the item.
        item: u64,
    },
    /// The caller watches an item no longer.
    Unwatch {
        /// The number of the item.
        item: u64,
    },
    /// The caller asks the seller of an item.
    Ask {
        /// The number of the item.
        item: u64,
    },
    /// The seller of an item answers a question.
    Answer {
        /// The number of the item.
        item: u64,
        /// Who asked.
        asker: u64,
        /// The number of the question among the asker's on the item.
        number: u64,
    },
    /// A party of a sale rates the other.
    Feedback {
        /// The number of the item.
        item: u64,
    },
    /// The house sets a band table.
    SetBands,
}
