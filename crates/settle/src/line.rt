//! A line of a statement.
ghost use Rattle.std.specs.Prelude.{◌≡◌, ◌≢◌, ◌≤◌, ◌&&◌, Some, None, IfSome, if◌then◌else◌};
ghost use Rattle.settle.specs.Statement.{is_party, is_within, line_of};

use crate::day::Day;
use crate::sale::{Sold, fee};
use crate::zone::{LAST_MOMENT, Zone};
use cents::Cents;

/// What a member reads of one sale.
#[derive(Clone, Copy)]
pub struct Line {
    /// The civil day on which the sale closed.
    pub day: Day,
    /// The number of the item.
    pub item: u32,
    /// Whether the member sold the item; else it bought it.
    pub sell: bool,
    /// The number of the other party.
    pub other: u32,
    /// The price of the item.
    pub price: Cents,
    /// The fee that the member owes, in cents: 0 where it bought.
    pub fee: u64,
    /// The price without the fee, in cents.
    pub net: u64,
}

impl Line {
    ghost use Rattle.settle.specs.Lines.{IsSplit};

    /// What the member reads of a sale, if it is a party and the civil day lies in the period.
    pub fn of(sale: &Sold, member: u32, from: Day, to: Day, zone: &Zone, rate: u64) -> Option<Line>
        requires closed { sale.now.closed ≤ LAST_MOMENT }
        requires rate { rate ≤ 2000 }
        ensures line { result ≡ (if is_party member sale.now && is_within from to zone.now sale.now
            then Some (line_of member zone.now rate sale.now) else None) }
        ensures split { IfSome result IsSplit }
    {
        if sale.seller != member && sale.buyer != member {
            return None;
        }
        let day = zone.day(sale.closed)?;
        if day < from || to < day {
            return None;
        }
        let sell = sale.seller == member;
        let owed = if sell { fee(sale.price, rate) } else { 0 };
        Some(Line {
            day,
            item: sale.item,
            sell,
            other: if sell { sale.buyer } else { sale.seller },
            price: sale.price,
            fee: owed,
            net: sale.price.value() - owed,
        })
    }
}
