//! Rows that no reader is shown.
use proxy::Bid;
use std::marker::Model;

/// A bid and its item. Clauses see a `BidRow`.
#[derive(Clone, Copy)]
pub struct BidEntry {
    /// The number of the item.
    pub item: u32,
    /// The bid.
    pub bid: Bid,
}

impl Model for BidEntry {
    ghost use Rattle.house_rows.specs.Bids.{BidRow};

    ghost Value = { BidRow };

    ghost view = { λ e. record { item = e.item; bid = e.bid } };

    ghost inverse = { λ row. record { item = row.item; bid = row.bid } };
}

/// That a member watches an item. Clauses see a `WatchRow`.
#[derive(Clone, Copy)]
pub struct WatchEntry {
    /// The number of the member.
    pub member: u32,
    /// The number of the item.
    pub item: u32,
}

impl Model for WatchEntry {
    ghost use Rattle.house_rows.specs.Watches.{WatchRow};

    ghost Value = { WatchRow };

    ghost view = { λ e. record { member = e.member; item = e.item } };

    ghost inverse = { λ row. record { member = row.member; item = row.item } };
}
