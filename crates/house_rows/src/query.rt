//! The reads.
use settle::Day;

/// What a caller asks the house to show. A list that begins at a number shows at most 50 entries.
#[derive(Clone, Copy, Debug)]
pub enum Query {
    /// The house's counts, clock, rate and zone.
    House,
    /// The newest band table.
    Bands,
    /// The band table of an edition.
    BandsOf {
        /// The number of the edition.
        edition: u64,
    },
    /// All categories.
    Categories,
    /// The items of a category, from a number on.
    ItemsIn {
        /// The number of the category.
        category: u64,
        /// The least number of an item.
        from: u64,
    },
    /// One item.
    Item {
        /// Its number.
        item: u64,
    },
    /// The published questions on an item, from an asker on.
    Questions {
        /// The number of the item.
        item: u64,
        /// The least number of an asker.
        from: u64,
    },
    /// One member and its ratings.
    Member {
        /// Its number.
        member: u64,
    },
    /// The feedback to a member, from an item on.
    FeedbackTo {
        /// The number of the member.
        member: u64,
        /// The least number of an item.
        from: u64,
    },
    /// The items on which the caller has bid, from a number on.
    MyBids {
        /// The least number of an item.
        from: u64,
    },
    /// The caller's reserves, from an item on.
    MyReserves {
        /// The least number of an item.
        from: u64,
    },
    /// The items that the caller watches.
    MyWatches,
    /// The caller's own questions, from an item on.
    MyQuestions {
        /// The least number of an item.
        from: u64,
    },
    /// The first fifty questions that wait for the caller's answer.
    MyWaiting,
    /// The statement of the caller's sales and purchases in a period.
    MyStatement {
        /// Its first day.
        from: Day,
        /// Its last day.
        to: Day,
    },
}
