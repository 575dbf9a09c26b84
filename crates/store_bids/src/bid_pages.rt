//! The items on which a member has bid. Of its bids fifty are read at a time, and no more than a full
//! list needs.
ghost use Rattle.std.specs.Prelude.{◌≡◌, ◌≤◌, ◌<◌, ◌^◌, ℕ, length, take, IfOk, OnOk, IsErrOf};
ghost use Rattle.std.specs.List.{AllByRecursion};
ghost use Rattle.sqlite.specs.Held.{state};
ghost use Rattle.house_rows.specs.Fits.{OwnBidFits};
ghost use Rattle.house_rows.specs.Found.{own_bids};
ghost use Rattle.house_rows.specs.Limits.{most_shown};
ghost use Rattle.house_rows.specs.declared.fault.KeepFault.TheVariants.{Damaged};
ghost use Rattle.store_rows.specs.House.{ServesBy};
ghost use Rattle.store_rows.specs.Tables.{tables_in};
ghost use Rattle.store_bids.specs.OwnBids.{rest_after, found_from, numbers_from};
ghost use Rattle.house_rows.specs.Reached.{FitsSoFar};
ghost use Rattle.store_bids.specs.Reached.{FitFrom};
ghost use Rattle.store_rows.specs.Frames.{Finds};
ghost use Rattle.store_bids.specs.Listed.{AreOwnBids, GoesOnAt};

use crate::bid_lists::add_own_bids;
use crate::look_ups::{items_bid_on, no_item};
use house_rows::{KeepFault, MOST_SHOWN, OwnBid};
use list_rows::push;
use sqlite::{Alter, Connection};
use std::alloc::Global;
use store_rows::Rules;

// One more than the last number of 32 bits.
const BEHIND_ALL: u64 = 4_294_967_296;

// Of some items those from a number on; of rising ones each once.
fn numbers_from(alloc: Global, items: &[u32], from: u64) -> Result<Vec<u32>, KeepFault>
    ensures value { IfOk result (λ numbers. numbers.items ≡ numbers_from from items.now) }
    ensures memory { ¬ (IsErrOf result Damaged) }
{
    let mut numbers = Vec::new(alloc);
    let mut least = from;
    for item in items {
        let item = *item;
        if least <= u64::from(item) {
            push(&mut numbers, item)?;
            least = u64::from(item) + 1;
        }
    }
    Ok(numbers)
}

// Where to go on: after the last of some items, which so many bids were on. After fewer than fifty
// there is no further one.
fn next_after(numbers: &[u32], bids: usize) -> u64
    ensures last { bids < most_shown → result ≡ 2 ^ 32 }
    ensures next { most_shown ≤ bids → 0 < length numbers.now → result ≡ rest_after 0 numbers.now }
    ensures rises { (from : ℕ) → from < 2 ^ 32 → AllByRecursion (λ n. from ≤ n) numbers.now
        → from < result }
    ensures top { result ≤ 2 ^ 32 }
{
    match numbers.last() {
        Some(last) if bids >= MOST_SHOWN => u64::from(*last) + 1,
        _ => BEHIND_ALL,
    }
}

// Adds what a member has bid on the items from a number on, of fifty bids at most, until there are
// fifty items. The result is where to go on.
fn add_next_bids<S: Alter>(
    alloc: Global,
    conn: &mut Connection<S>,
    rules: &Rules,
    member: u32,
    from: u32,
    found: &mut Vec<OwnBid>,
) -> Result<u64, KeepFault>
    requires serves { ServesBy rules.now.reserves (state S.Store conn.old) }
    requires few { length found.old.items ≤ most_shown }
    ensures finds { Finds S.Store conn.old conn.new result
        (λ db next. GoesOnAt rules.now.editions member from found.old.items db next
        found.new.items)
        (λ db. FitFrom rules.now.editions db member (length found.old.items) from) }
    ensures few { OnOk result (length found.new.items ≤ most_shown) }
    ensures rises { IfOk result (λ next. from < next) }
    ensures top { IfOk result (λ next. next ≤ 2 ^ 32) }
    ensures fits { AllByRecursion OwnBidFits found.old.items
        → OnOk result (AllByRecursion OwnBidFits found.new.items) }
{
    let items = items_bid_on(alloc, conn, member, from)?;
    let numbers = numbers_from(alloc, &items, u64::from(from))?;
    add_own_bids(alloc, conn, rules, &numbers, member, found)?;
    Ok(next_after(&numbers, items.len()))
}

// What a member has bid, by the items of its bids from a number on; at most fifty.
fn own_bids_from<S: Alter>(
    alloc: Global,
    conn: &mut Connection<S>,
    rules: &Rules,
    member: u32,
    from: u64,
) -> Result<Vec<OwnBid>, KeepFault>
    requires { ServesBy rules.now.reserves (state S.Store conn.old) }
    ensures finds { Finds S.Store conn.old conn.new result
        (λ db found. AreOwnBids rules.now.editions db found.items
        (take most_shown (found_from db member from)))
        (λ db. FitFrom rules.now.editions db member 0 from) }
    ensures fits { IfOk result (λ found. AllByRecursion OwnBidFits found.items) }
{
    let mut found = Vec::new(alloc);
    let mut next = from;
    'bids: while found.len() < MOST_SHOWN && next < BEHIND_ALL {
        next = add_next_bids(alloc, conn, rules, member, next as u32, &mut found)?;
    }
    Ok(found)
}

/// The items on which a member has bid, from a number on; at most fifty. They are damaged only where
/// an item has no number of ours, or where the row of one of them doesn't fit or a bid of the
/// member's there.
pub fn own_bids<S: Alter>(
    alloc: Global,
    conn: &mut Connection<S>,
    rules: &Rules,
    member: u32,
    from: u64,
) -> Result<Vec<OwnBid>, KeepFault>
    requires { ServesBy rules.now.reserves (state S.Store conn.old) }
    ensures finds { Finds S.Store conn.old conn.new result
        (λ db found. AreOwnBids rules.now.editions db found.items
        (own_bids (tables_in db) member from))
        (λ db. FitsSoFar rules.now.editions (tables_in db) member from) }
    ensures fits { IfOk result (λ found. AllByRecursion OwnBidFits found.items) }
{
    no_item(alloc, conn, "SELECT id FROM item WHERE id < 0 ORDER BY id")?;
    let found = own_bids_from(alloc, conn, rules, member, from)?;
    if found.len() >= MOST_SHOWN {
        return Ok(found);
    }
    no_item(
        alloc,
        conn,
        "SELECT id FROM item WHERE id > 4294967295 ORDER BY id",
    )?;
    Ok(found)
}
