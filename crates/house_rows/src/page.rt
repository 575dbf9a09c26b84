//! What a read shows.
use crate::item::{ItemShown, OwnBid, OwnReserve};
use crate::people::{Category, Counts, Member, Ratings};
use crate::refusal::Refusal;
use crate::rows::Rows;
use crate::settings::Rate;
use crate::talk::{Feedback, Question};
use crate::text::Text;
use settle::{Day, Sold};

/// What a read shows, or why it shows nothing.
#[derive(Drop)]
pub enum Page {
    /// The read is refused.
    Refused(Refusal),
    /// The house.
    House {
        /// How many members, categories and items there are.
        counts: Counts,
        /// The moment of the last command that moved the clock, in whole seconds since
        /// 1970-01-01T00:00:00Z; 0 before the first.
        clock: u64,
        /// The rate of the fee.
        rate: Rate,
        /// The rule of the zone by which days are counted.
        zone: Text,
    },
    /// A band table, each row as (at, step) in cents.
    Bands(Rows<(u64, u64)>),
    /// Categories, by number.
    Categories(Rows<Category>),
    /// Items, by number.
    Items(Rows<ItemShown>),
    /// One item.
    OneItem(ItemShown),
    /// Questions, by item, asker and number.
    Questions(Rows<Question>),
    /// One member.
    OneMember {
        /// The member.
        member: Member,
        /// How often it was rated.
        ratings: Ratings,
    },
    /// Feedback, by item and giver.
    Feedbacks(Rows<Feedback>),
    /// The items on which the caller has bid, by number.
    Bids(Rows<OwnBid>),
    /// The caller's reserves, by item.
    Reserves(Rows<OwnReserve>),
    /// The caller's statement of a period.
    Statement {
        /// The number of the caller.
        member: u64,
        /// The first day of the period.
        from: Day,
        /// The last day of the period.
        to: Day,
        /// The rate of the fee.
        rate: Rate,
        /// Every sale to which the caller is a party, of the period or not, by item.
        sales: Rows<Sold>,
    },
}
