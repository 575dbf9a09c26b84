//! The items that a member watches, and how many they are.
ghost use Rattle.std.specs.Prelude.{◌≡◌, ◌<◌, ◌^◌, ◌++◌, IfOk, OnOk, flat_map};
ghost use Rattle.std.specs.List.{AllByRecursion};
ghost use Rattle.sqlite.specs.Held.{state};
ghost use Rattle.sqlite.specs.State.{HasCleanDisk};
ghost use Rattle.house_rows.specs.Fits.{ItemFits};
ghost use Rattle.house_rows.specs.Found.{items_watched, watch_count};
ghost use Rattle.store_rows.specs.House.{Serves, ServesBy};
ghost use Rattle.store_rows.specs.Tables.{tables_in};
ghost use Rattle.store_items.specs.ConsistentRows.{IsKeptAt, RowFitsAt};
ghost use Rattle.store_rows.specs.Frames.{Finds};
ghost use Rattle.store_watches.specs.Watched.{AreConsistent, AreItems, AreKept, WatchedFit, WatchesFit, item_found};

use crate::list::watched_by;
use house_rows::{Item, KeepFault};
use list_rows::push;
use sqlite::{Alter, Connection};
use std::alloc::Global;
use store_items::item_at;
use store_rows::Rules;

/// How many items a member watches.
pub fn watch_count<S: Alter>(
    alloc: Global,
    conn: &mut Connection<S>,
    member: u32,
) -> Result<u64, KeepFault>
    requires { Serves (state S.Store conn.old) }
    ensures { Finds S.Store conn.old conn.new result
        (λ db count. count ≡ watch_count (tables_in db) member) (WatchesFit member) }
{
    let items = watched_by(alloc, conn, member)?;
    Ok(items.len() as u64)
}

// Adds the item with a number to those found, if it is there.
#[tactic(auto, using(store_items::proofs::ConsistentRows::ok_so))]
fn add_item<S: Alter>(
    conn: &mut Connection<S>,
    rules: &Rules,
    number: u32,
    items: &mut Vec<Item>,
) -> Result<(), KeepFault>
    requires { ServesBy rules.now.reserves (state S.Store conn.old) }
    ensures finds { Finds S.Store conn.old conn.new result
        (λ db _. items.new.items ≡ items.old.items ++ item_found db number)
        (λ db. RowFitsAt rules.now.editions db number) }
    ensures fits { AllByRecursion ItemFits items.old.items
        → OnOk result (AllByRecursion ItemFits items.new.items) }
    ensures is_consistent { AreConsistent rules.now.editions items.old.items
        → OnOk result (AreConsistent rules.now.editions items.new.items) }
    ensures kept { HasCleanDisk (state S.Store conn.new) → OnOk result
        (IsKeptAt rules.now.editions (state S.Store conn.old).now.trees number) }
{
    match item_at(conn, rules, number)? {
        Some(item) => push(items, item),
        None => Ok(()),
    }
}

// The items with some numbers, in the order of these.
fn items_at<S: Alter>(
    alloc: Global,
    conn: &mut Connection<S>,
    rules: &Rules,
    numbers: &[u32],
) -> Result<Vec<Item>, KeepFault>
    requires { ServesBy rules.now.reserves (state S.Store conn.old) }
    ensures finds { Finds S.Store conn.old conn.new result
        (λ db items. items.items ≡ flat_map (item_found db) numbers.now)
        (λ db. AllByRecursion (RowFitsAt rules.now.editions db) numbers.now) }
    ensures fits { IfOk result (λ items. AreItems rules.now.editions items.items) }
    ensures kept { HasCleanDisk (state S.Store conn.new) → OnOk result (AllByRecursion
        (IsKeptAt rules.now.editions (state S.Store conn.old).now.trees) numbers.now) }
    ensures small { AllByRecursion (λ n. n < 2 ^ 64) numbers.now }
{
    let mut items = Vec::new(alloc);
    for number in numbers {
        add_item(conn, rules, *number, &mut items)?;
    }
    Ok(items)
}

/// The items that a member watches, by number.
pub fn items_watched<S: Alter>(
    alloc: Global,
    conn: &mut Connection<S>,
    rules: &Rules,
    member: u32,
) -> Result<Vec<Item>, KeepFault>
    requires { ServesBy rules.now.reserves (state S.Store conn.old) }
    ensures finds { Finds S.Store conn.old conn.new result
        (λ db items. items.items ≡ items_watched (tables_in db) member)
        (WatchedFit rules.now.editions member) }
    ensures fits { IfOk result (λ items. AreItems rules.now.editions items.items) }
    ensures kept { HasCleanDisk (state S.Store conn.new) → OnOk result
        (AreKept rules.now.editions member (state S.Store conn.old).now.trees) }
{
    let numbers = watched_by(alloc, conn, member)?;
    items_at(alloc, conn, rules, &numbers)
}
