//! The list of a member's bids, an item a row.
ghost use Rattle.std.specs.Prelude.{◌≡◌, ◌≤◌, ◌+◌, ◌++◌, length, filter, flat_map, nat_lt, option_map, take, IfOk, IfSome, OnOk};
ghost use Rattle.std.specs.List.{AllByRecursion};
ghost use Rattle.sqlite.specs.Held.{state};
ghost use Rattle.house_rows.specs.Fits.{OwnBidFits, TermsFit};
ghost use Rattle.house_rows.specs.Limits.{most_shown};
ghost use Rattle.store_rows.specs.House.{ServesBy};
ghost use Rattle.store_rows.specs.Tables.{tables_in};
ghost use Rattle.store_rows.specs.Joined.{found_of};
ghost use Rattle.store_bids.specs.OwnBids.{bid_reported, own_found};
ghost use Rattle.house_rows.specs.Reached.{FitsAt};
ghost use Rattle.store_bids.specs.Reached.{FitInTurn};
ghost use Rattle.store_rows.specs.Frames.{Finds};
ghost use Rattle.store_bids.specs.Listed.{BecomesOwnBids, IsOwnBid};

use crate::own::own_best;
use house_rows::{KeepFault, MOST_SHOWN, OwnBest, OwnBid, Terms};
use list_rows::push;
use sqlite::{Alter, Connection};
use std::alloc::Global;
use store_items::terms_at;
use store_rows::Rules;

// What a member has bid on the item of these terms, if it is there and the member has bid on it.
fn own_bid(terms: Option<Terms>, best: OwnBest, member: u32) -> Option<OwnBid>
    ensures value { found_of result ≡ filter (λ b. nat_lt 0 b.mine)
        (found_of (option_map (bid_reported member best) terms)) }
    ensures fits { IfSome terms TermsFit → IfSome result OwnBidFits }
{
    let terms = terms?;
    if best.mine == 0 {
        return None;
    }
    Some(OwnBid {
        item: terms.item,
        leading: terms.leader.is_some_and(|leader| leader == member),
        maximum: best.maximum,
        mine: best.mine,
        price: terms.price,
        state: terms.state,
    })
}

// What a member has bid on an item, if it is there and the member has bid on it.
fn own_bid_at<S: Alter>(
    alloc: Global,
    conn: &mut Connection<S>,
    rules: &Rules,
    item: u32,
    member: u32,
) -> Result<Option<OwnBid>, KeepFault>
    requires { ServesBy rules.now.reserves (state S.Store conn.old) }
    ensures finds { Finds S.Store conn.old conn.new result
        (IsOwnBid rules.now.editions member item)
        (λ db. FitsAt rules.now.editions (tables_in db) member item) }
    ensures fits { IfOk result (λ bid. IfSome bid OwnBidFits) }
{
    let terms = terms_at(conn, rules, item)?;
    let best = own_best(alloc, conn, item, member)?;
    Ok(own_bid(terms, best, member))
}

// Adds what a member has bid on an item to what was found, if it has.
fn add_own_bid<S: Alter>(
    alloc: Global,
    conn: &mut Connection<S>,
    rules: &Rules,
    item: u32,
    member: u32,
    found: &mut Vec<OwnBid>,
) -> Result<(), KeepFault>
    requires { ServesBy rules.now.reserves (state S.Store conn.old) }
    ensures finds { Finds S.Store conn.old conn.new result
        (λ db _. BecomesOwnBids rules.now.editions db found.old.items found.new.items
        (found.old.items ++ own_found (tables_in db) member item))
        (λ db. FitsAt rules.now.editions (tables_in db) member item) }
    ensures few { OnOk result (length found.new.items ≤ length found.old.items + 1) }
    ensures fits { AllByRecursion OwnBidFits found.old.items
        → OnOk result (AllByRecursion OwnBidFits found.new.items) }
{
    match own_bid_at(alloc, conn, rules, item, member)? {
        Some(bid) => push(found, bid),
        None => Ok(()),
    }
}

/// The same of some items in turn, until there are fifty.
pub(crate) fn add_own_bids<S: Alter>(
    alloc: Global,
    conn: &mut Connection<S>,
    rules: &Rules,
    numbers: &[u32],
    member: u32,
    found: &mut Vec<OwnBid>,
) -> Result<(), KeepFault>
    requires serves { ServesBy rules.now.reserves (state S.Store conn.old) }
    requires few { length found.old.items ≤ most_shown }
    ensures finds { Finds S.Store conn.old conn.new result
        (λ db _. BecomesOwnBids rules.now.editions db found.old.items found.new.items
        (take most_shown (found.old.items
        ++ flat_map (own_found (tables_in db) member) numbers.now)))
        (λ db. FitInTurn rules.now.editions (tables_in db) member (length found.old.items)
        numbers.now) }
    ensures few { OnOk result (length found.new.items ≤ most_shown) }
    ensures fits { AllByRecursion OwnBidFits found.old.items
        → OnOk result (AllByRecursion OwnBidFits found.new.items) }
{
    for number in numbers {
        if found.len() >= MOST_SHOWN {
            return Ok(());
        }
        add_own_bid(alloc, conn, rules, *number, member, found)?;
    }
    Ok(())
}
