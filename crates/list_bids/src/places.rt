//! Where a bid goes: to the bids of its item and to the tally of its bidder there.
ghost use Rattle.std.specs.Prelude.{◌≡◌, ◌+◌, ◌<◌, ◌^◌, ◌==◌, ◌&&◌, IfOk, OnOk, find, is_some, max, option_map, false, true};
ghost use Rattle.std.specs.List.{list_any};
ghost use Rattle.house_rows.specs.Bids.{bid_key};
ghost use Rattle.house_rows.specs.History.{put_by};
ghost use Rattle.list_rows.specs.Blocks.{IsBlocked, rows_of};
ghost use Rattle.list_rows.specs.Makes.{Makes};
ghost use Rattle.list_bids.specs.declared.tally.Tally.{Tally};
ghost use Rattle.list_bids.specs.Tallies.{AreTallied, fault_of, is_tally, no_best, tally_in, tally_key};

use crate::tally::{Better, Tally};
use cents::Cents;
use house_rows::{KeepFault, OwnBest};
use list_rows::{BidEntry, RowKey, put, row, update};
use proxy::Bid;
use std::alloc::Global;

/// What the tallies say of a member and an item.
pub(crate) fn best_at(tallies: &[Vec<Tally>], member: u64, item: u64) -> OwnBest
    requires { IsBlocked tally_key tallies.now }
    ensures { result ≡ tally_in (rows_of tallies.now) member item }
{
    match best_there(tallies, member, item) {
        Some(best) => best,
        None => none(),
    }
}

// The same, if there is a tally of them.
fn best_there(tallies: &[Vec<Tally>], member: u64, item: u64) -> Option<OwnBest>
    requires { IsBlocked tally_key tallies.now }
    ensures { result ≡ option_map (λ (tally : Tally). tally.best) (find (is_tally member item) (rows_of tallies.now)) }
{
    match row(tallies, RowKey::new(member, item, 0)) {
        Some(tally) => Some(tally.best),
        None => None,
    }
}

// No bid.
fn none() -> OwnBest
    ensures { result ≡ no_best }
{
    OwnBest {
        maximum: Cents::new(0).unwrap(),
        mine: 0,
    }
}

/// Places a bid.
pub(crate) fn place(
    alloc: Global,
    bids: &mut Vec<Vec<BidEntry>>,
    tallies: &mut Vec<Vec<Tally>>,
    item: u32,
    bid: Bid,
) -> Result<(), KeepFault>
    requires { AreTallied bids.old.items tallies.old.items }
    ensures made { Makes result (rows_of bids.old.items) (rows_of bids.new.items)
        (put_by bid_key (record { item = item; bid = bid }) (rows_of bids.old.items))
        (list_any (λ b. (b.item == item) && (b.bid.no == bid.no)) (rows_of bids.old.items) ≡ false) }
    ensures tallied { AreTallied bids.new.items tallies.new.items }
{
    let (member, maximum) = (bid.member, bid.maximum);
    // A tally of no bid may stay, where the bid is then not put.
    let Ok(best) = open_tally(alloc, tallies, member, item) else {
        return Err(fault(bids, item, bid.no));
    };
    let best = better(best, maximum);
    if let Err(fault) = put(alloc, bids, BidEntry { item, bid }) {
        return Err(fault);
    }
    let key = RowKey::new(u64::from(member), u64::from(item), 0);
    update(tallies, key, Better { best });
    Ok(())
}

// The fault of a bid for which memory was refused: `Damaged` where its item has a bid of its number.
fn fault(bids: &[Vec<BidEntry>], item: u32, no: u32) -> KeepFault
    requires { IsBlocked bid_key bids.now }
    ensures { result ≡ fault_of (list_any (λ b. (b.item == item) && (b.bid.no == no)) (rows_of bids.now)) }
{
    match row(bids, RowKey::new(u64::from(item), u64::from(no), 0)) {
        Some(_) => KeepFault::Damaged,
        None => KeepFault::Memory,
    }
}

// What a member has bid with one bid more.
fn better(best: OwnBest, maximum: Cents) -> OwnBest
    requires { best.mine + 1 < 2 ^ 64 }
    ensures { result ≡ record { maximum = max best.maximum maximum; mine = best.mine + 1 } }
{
    OwnBest {
        maximum: best.maximum.max(maximum),
        mine: best.mine + 1,
    }
}

// What the tallies say of a member and an item; where these have none, a tally of no bid is put.
fn open_tally(
    alloc: Global,
    tallies: &mut Vec<Vec<Tally>>,
    member: u32,
    item: u32,
) -> Result<OwnBest, KeepFault>
    requires { IsBlocked tally_key tallies.old.items }
    ensures value { IfOk result (λ best. best ≡ tally_in (rows_of tallies.old.items) member item) }
    ensures blocked { IsBlocked tally_key tallies.new.items }
    ensures same { (m i : _) → tally_in (rows_of tallies.new.items) m i ≡ tally_in (rows_of tallies.old.items) m i }
    ensures there { OnOk result (is_some (find (is_tally member item) (rows_of tallies.new.items)) ≡ true) }
{
    if let Some(best) = best_there(tallies, u64::from(member), u64::from(item)) {
        return Ok(best);
    }
    let best = none();
    put(alloc, tallies, Tally { member, item, best })?;
    Ok(none())
}
