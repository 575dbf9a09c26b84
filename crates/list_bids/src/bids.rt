//! The bids of all items.
ghost use Rattle.std.specs.Prelude.{◌≡◌, ◌==◌, ◌&&◌, [], false};
ghost use Rattle.std.specs.List.{list_any};
ghost use Rattle.house_rows.specs.Bids.{bid_key};
ghost use Rattle.house_rows.specs.Found.{best_of};
ghost use Rattle.house_rows.specs.History.{put_by};
ghost use Rattle.house_rows.specs.Tables.{Tables};
ghost use Rattle.list_rows.specs.Makes.{Makes};
ghost use Rattle.list_bids.specs.Tallies.{AreTallies};

use crate::places;
use crate::tally::Tally;
use house_rows::{KeepFault, OwnBest};
use list_rows::{BidEntry, block};
use proxy::Bid;
use std::alloc::Global;
use std::marker::Model;

/// All bids. Clauses see the list of them, by item and number.
#[derive(Drop)]
pub struct Bids {
    // In blocks by item.
    bids: Vec<Vec<BidEntry>>,
    // What each member has bid on each item, in blocks by member.
    tallies: Vec<Vec<Tally>>,
}

impl Model for Bids {
    ghost use Rattle.std.specs.Prelude.{List};
    ghost use Rattle.house_rows.specs.Bids.{BidRow};
    ghost use Rattle.list_rows.specs.Blocks.{rows_of};
    ghost use Rattle.list_bids.specs.Tallies.{AreTallied};

    ghost Value = { List BidRow };

    ghost view = { λ b. rows_of b.bids.items };

    ghost invariant = { λ b. AreTallied b.bids.items b.tallies.items };
}

impl Bids {
    /// No bids. Takes no memory.
    pub fn new(alloc: Global) -> Bids
        ensures { result ≡ [] }
    {
        Bids {
            bids: Vec::new(alloc),
            tallies: Vec::new(alloc),
        }
    }

    /// What a member has bid on an item.
    pub fn best(&self, member: u64, item: u64) -> OwnBest
        ensures { (t : Tables) → t.bids ≡ self.now → result ≡ best_of t member item }
    {
        places::best_at(&self.tallies, member, item)
    }

    /// A bid was placed.
    pub fn place(&mut self, alloc: Global, item: u32, bid: Bid) -> Result<(), KeepFault>
        ensures { Makes result self.old self.new
            (put_by bid_key (record { item = item; bid = bid }) self.old)
            (list_any (λ b. (b.item == item) && (b.bid.no == bid.no)) self.old ≡ false) }
    {
        places::place(alloc, &mut self.bids, &mut self.tallies, item, bid)
    }

    /// A member's tallies, by item: one for each item on which it has bid. A tally may be of no
    /// bid.
    pub fn tallies_of(&self, member: u64) -> &[Tally]
        ensures { (t : Tables) → t.bids ≡ self.now → AreTallies t member result.now }
    {
        block(&self.tallies, member)
    }
}
