//! Keys of rows.
ghost use Rattle.std.specs.Prelude.{◌≡◌};
ghost use Rattle.house_rows.specs.Bids.{bid_key};
ghost use Rattle.house_rows.specs.Changed.{question_key};
ghost use Rattle.house_rows.specs.Ratings.{feedback_key};
ghost use Rattle.house_rows.specs.Watches.{watch_key};
ghost use Rattle.house_rows.specs.History.{Key, is_less};
ghost use Rattle.list_rows.specs.Blocks.{order_of, same_key};

use crate::entries::{BidEntry, WatchEntry};
use house_rows::{Feedback, Question};
use std::cmp::Ordering;
use std::marker::Model;

/// A key of up to three numbers; those that a table doesn't have are 0. Clauses see a `Key`.
#[derive(Clone, Copy)]
pub struct RowKey {
    first: u64,
    second: u64,
    third: u64,
}

impl Model for RowKey {
    ghost use Rattle.house_rows.specs.History.{Key};

    ghost Value = { Key };

    ghost view = { λ k. record { first = k.first; second = k.second; third = k.third } };

    ghost inverse = { λ k. record { first = k.first; second = k.second; third = k.third } };
}

impl RowKey {
    /// The key of three numbers.
    pub fn new(first: u64, second: u64, third: u64) -> RowKey
        ensures { result ≡ record { first = first; second = second; third = third } }
    {
        RowKey {
            first,
            second,
            third,
        }
    }

    /// The first number, which is that of the row's block.
    pub fn first(self) -> u64
        ensures { result ≡ self.first }
    {
        self.first
    }

    /// How it stands to another: by the first number, then the second, then the third.
    pub fn order(self, other: RowKey) -> Ordering
        ensures { result ≡ order_of self other }
    {
        if self.is_less(other) {
            Ordering::Less
        } else if self.is_same(other) {
            Ordering::Equal
        } else {
            Ordering::Greater
        }
    }

    // Whether it comes before another.
    fn is_less(self, other: RowKey) -> bool
        ensures { result ≡ is_less self other }
    {
        self.first < other.first
            || (self.first == other.first
                && (self.second < other.second
                    || (self.second == other.second && self.third < other.third)))
    }

    // Whether it is another.
    fn is_same(self, other: RowKey) -> bool
        ensures { result ≡ same_key self other }
    {
        self.first == other.first && self.second == other.second && self.third == other.third
    }
}

/// A row with a key.
pub trait Keyed {
    /// The key.
    ghost key: { Self → Key };

    /// The key of a row.
    fn row_key(&self) -> RowKey
        ensures { result ≡ key self.now };
}

impl Keyed for BidEntry {
    ghost key = { bid_key };

    fn row_key(&self) -> RowKey {
        RowKey::new(u64::from(self.item), u64::from(self.bid.no), 0)
    }
}

impl Keyed for WatchEntry {
    ghost key = { watch_key };

    fn row_key(&self) -> RowKey {
        RowKey::new(u64::from(self.member), u64::from(self.item), 0)
    }
}

impl Keyed for Question {
    ghost key = { question_key };

    fn row_key(&self) -> RowKey {
        RowKey::new(
            u64::from(self.item),
            u64::from(self.asker),
            u64::from(self.number),
        )
    }
}

impl Keyed for Feedback {
    ghost key = { feedback_key };

    fn row_key(&self) -> RowKey {
        RowKey::new(u64::from(self.item), u64::from(self.from), 0)
    }
}
