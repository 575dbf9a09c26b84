//! A row that holds more than what everybody sees.
ghost use Rattle.std.specs.Prelude.{◌≡◌, ◌==◌, ◌&&◌};
ghost use Rattle.house_rows.specs.Changed.{with_close, with_purchase, with_settlement, with_standing};
ghost use Rattle.house_rows.specs.Text.{same_text};
ghost use Rattle.list_items.specs.Closing.{close_at};
ghost use Rattle.list_items.specs.Reserves.{reserve_with};

use crate::close::close_sells;
use cents::Cents;
use house_rows::{Item, OwnReserve, State};
use proxy::Standing;
use std::marker::Model;

/// An item with the standing of its bids, whose maxima are sealed. Clauses see an `ItemRow`.
#[derive(Drop)]
pub struct ItemEntry {
    pub(crate) item: Item,
    pub(crate) standing: Standing,
}

impl Model for ItemEntry {
    ghost use Rattle.house_rows.specs.Tables.{ItemRow};

    ghost Value = { ItemRow };

    ghost view = { λ e. record { item = e.item; standing = e.standing } };
}

impl ItemEntry {
    /// What everybody sees of it.
    pub fn item(&self) -> &Item
        ensures { result.now ≡ self.now.item }
    {
        &self.item
    }

    /// The reserve on it, where the member sells it and its number is not below another.
    pub(crate) fn reserve_with(&self, member: u64, from: u64) -> Option<OwnReserve>
        ensures { result ≡ reserve_with member from self.now }
    {
        let terms = &self.item.terms;
        if u64::from(terms.seller) != member || u64::from(terms.item) < from {
            return None;
        }
        let reserve = self.standing.reserve()?;
        Some(OwnReserve {
            item: terms.item,
            met: terms.met.unwrap_or(false),
            reserve,
        })
    }

    /// The standing of the item of that number is now that of its bids.
    pub(crate) fn stand(&mut self, item: u32, standing: Standing)
        ensures { self.new ≡ with_standing item standing self.old }
    {
        if self.item.terms.item == item {
            self.item.terms.price = standing.price();
            self.item.terms.leader = standing.leader();
            self.item.terms.count = standing.count();
            self.item.terms.met = standing.is_reserve_met();
            self.standing = standing;
        }
    }

    /// The item of that number is bought at once.
    pub(crate) fn buy(&mut self, item: u32, buyer: u32, price: Cents, moment: u64)
        ensures { self.new ≡ with_purchase item buyer price moment self.old }
    {
        if self.item.terms.item == item {
            self.item.terms.state = State::Sold;
            self.item.terms.closed = Some(moment);
            self.item.terms.price = price;
            self.item.terms.leader = Some(buyer);
            self.item.terms.met = self.item.terms.met.map(|_| true);
        }
    }

    /// An item that is due is closed at its end.
    pub(crate) fn close(&mut self, moment: u64)
        ensures { self.new ≡ with_close moment self.old }
    {
        let terms = self.item.terms;
        if terms.state == State::Open && terms.end <= moment {
            self.item.terms.state = if close_sells(&terms) {
                State::Sold
            } else {
                State::Unsold
            };
            self.item.terms.closed = Some(terms.end);
        }
    }

    /// The item of that number is closed at its end, if it is due.
    pub(crate) fn close_if(&mut self, item: u32, moment: u64)
        ensures { self.new ≡ close_at item moment self.old }
    {
        if self.item.terms.item == item {
            self.close(moment);
        }
    }

    /// The item of that number is settled.
    pub(crate) fn settle(&mut self, item: u32)
        ensures { self.new ≡ with_settlement item self.old }
    {
        if self.item.terms.item == item {
            self.item.terms.state = State::Settled;
        }
    }
}
