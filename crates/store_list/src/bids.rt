//! What a member has bid, item by item.
ghost use Rattle.std.specs.Prelude.{if◌then◌else◌, ◌≡◌, ◌<◌, ℕ, true, nat_le, nat_lt, filter, option_map, None, IfOk, IfErr};
ghost use Rattle.house_rows.specs.Found.{best_of, own_bid, own_bids, row_at};
ghost use Rattle.house_rows.specs.Keeping.{AreInTurn};
ghost use Rattle.house_rows.specs.Tables.{ItemRow, Tables};
ghost use Rattle.house_rows.specs.declared.fault.KeepFault.TheVariants as fault;
ghost use Rattle.list_bids.specs.Tallies.{AreRisingFrom, numbers_in};
ghost use Rattle.list_items.specs.Indexed.{number_of};
ghost use Rattle.list_items.specs.Rising.{is_among};

use house_rows::{KeepFault, MOST_SHOWN, OwnBid};
use list_bids::{Bids, Tally};
use list_items::Items;
use list_rows::push;
use std::alloc::Global;

/// The items on which a member has bid, from a number on; at most fifty.
pub(crate) fn own_bids(
    alloc: Global,
    items: &Items,
    bids: &Bids,
    member: u64,
    from: u64,
) -> Result<Vec<OwnBid>, KeepFault>
    requires in_turn { AreInTurn number_of 1 items.now }
    ensures value { (t : Tables)
        → t.items ≡ items.now
        → t.bids ≡ bids.now
        → IfOk result (λ v. v.items ≡ own_bids t member from) }
    ensures memory { IfErr result (λ e. e ≡ fault.Memory) }
{
    let tallies = tallies_from(bids.tallies_of(member), from);
    let mut found = Vec::new(alloc);
    for tally in tallies {
        if found.len() >= MOST_SHOWN {
            return Ok(found);
        }
        if let Some(bid) = own_bid(items, tally, member) {
            push(&mut found, bid)?;
        }
    }
    Ok(found)
}

/// Numbers of items; those on which a member has bid are among them.
pub(crate) fn bid_on(alloc: Global, bids: &Bids, member: u64) -> Result<Vec<u32>, KeepFault>
    ensures value { (t : Tables) (item : ℕ)
        → t.bids ≡ bids.now
        → 0 < (best_of t member item).mine
        → IfOk result (λ v. is_among v.items item ≡ true) }
    ensures memory { IfErr result (λ e. e ≡ fault.Memory) }
{
    let mut numbers = Vec::new(alloc);
    for tally in bids.tallies_of(member) {
        push(&mut numbers, tally.item)?;
    }
    Ok(numbers)
}

// Those of rising tallies whose items' numbers aren't below a number.
fn tallies_from(tallies: &[Tally], from: u64) -> &[Tally]
    ensures { AreRisingFrom 0 (numbers_in tallies.now)
        → result.now ≡ filter (λ tally. nat_le from tally.item) tallies.now }
{
    let first = tallies.partition_point(|tally| u64::from(tally.item) < from);
    &tallies[first..]
}

// What a member's tally says of its item, if the member has bid there.
fn own_bid(items: &Items, tally: &Tally, member: u64) -> Option<OwnBid>
    ensures { (t : Tables) → t.items ≡ items.now → tally.now.best ≡ best_of t member tally.now.item
        → result ≡ (if nat_lt 0 tally.now.best.mine
        then option_map (λ (row : ItemRow). own_bid t member row.item) (row_at t tally.now.item)
        else None) }
{
    if tally.best.mine == 0 {
        return None;
    }
    let terms = items.terms(u64::from(tally.item))?;
    Some(OwnBid {
        item: terms.item,
        leading: terms
            .leader
            .is_some_and(|leader| u64::from(leader) == member),
        maximum: tally.best.maximum,
        mine: tally.best.mine,
        price: terms.price,
        state: terms.state,
    })
}
