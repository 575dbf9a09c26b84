//! Look-ups in the table of items.
ghost use Rattle.std.specs.Prelude.{◌≡◌, ◌<◌, ◌^◌, find, map, option_map, IfOk, IfSome, OnOk, Some};
ghost use Rattle.sqlite.specs.Held.{state};
ghost use Rattle.sqlite.specs.State.{HasCleanDisk};
ghost use Rattle.house_rows.specs.Changed.{is_item};
ghost use Rattle.house_rows.specs.Found.{auction_of};
ghost use Rattle.house_rows.specs.Tables.{ItemRow};
ghost use Rattle.std.specs.List.{AllByRecursion};
ghost use Rattle.house_rows.specs.Fits.{ItemFits, StandingFits, TermsFit};
ghost use Rattle.house_rows.specs.Keeping.{FitsBy, IsConsistentBy, IsKeptItemBy, IsKeptRowBy};
ghost use Rattle.store_rows.specs.House.{Serves, ServesBy};
ghost use Rattle.store_rows.specs.ItemRows.{items_in};
ghost use Rattle.store_items.specs.ConsistentRows.{IsKeptAt, RowFitsAt};
ghost use Rattle.store_rows.specs.Frames.{Finds};
ghost use Rattle.store_items.specs.LookUps.{ItemFitsThere, number_with_lot};

use crate::reads::{first_auction, first_item, item_list};
use house_rows::{Auction, Item, KeepFault, Terms};
use sqlite::{Alter, Connection, params};
use std::alloc::Global;
use store_rows::{Rules, first_of, rows_shown};

/// The item with a number. A row that isn't consistent with its band table is damaged.
pub fn item_at<S: Alter>(
    conn: &mut Connection<S>,
    rules: &Rules,
    number: u32,
) -> Result<Option<Item>, KeepFault>
    requires { ServesBy rules.now.reserves (state S.Store conn.old) }
    ensures finds { Finds S.Store conn.old conn.new result
        (λ db found. found ≡ option_map (λ (row : ItemRow). row.item)
        (find (is_item number) (items_in db))) (λ db. RowFitsAt rules.now.editions db number) }
    ensures fits { IfOk result (λ found. IfSome found ItemFits) }
    ensures is_consistent { IfOk result (λ found. IfSome found
        (λ it. IsConsistentBy rules.now.editions it.terms)) }
    ensures kept { HasCleanDisk (state S.Store conn.new) → OnOk result
        (IsKeptAt rules.now.editions (state S.Store conn.old).now.trees number) }
{
    let rows = rows_shown(
        conn,
        "SELECT id, seller, category, start, buy_now, ending, state, closed, price, leader, \
        count, lot, title, body, top, second FROM item WHERE id = ?1 ORDER BY id",
        params![number],
    )?;
    first_item(rules, &rows)
}

/// The item with a number, without its texts, with the standing of its bids; of a bought item that
/// of none. A row that isn't consistent with its band table is damaged.
pub fn auction_at<S: Alter>(
    conn: &mut Connection<S>,
    rules: &Rules,
    number: u32,
) -> Result<Option<Auction>, KeepFault>
    requires { ServesBy rules.now.reserves (state S.Store conn.old) }
    ensures finds { Finds S.Store conn.old conn.new result
        (λ db found. found ≡ option_map auction_of (find (is_item number) (items_in db)))
        (λ db. RowFitsAt rules.now.editions db number) }
    ensures fits { IfOk result (λ found. IfSome found
        (λ a. TermsFit a.terms × StandingFits a.standing)) }
    ensures is_consistent { IfOk result (λ found. IfSome found
        (λ a. IsConsistentBy rules.now.editions a.terms)) }
    ensures kept { IfOk result (λ found. IfSome found
        (λ a. IsKeptItemBy rules.now.editions a.terms a.standing)) }
{
    let rows = rows_shown(
        conn,
        "SELECT id, seller, category, start, buy_now, ending, state, closed, price, leader, \
        count, top, second FROM item WHERE id = ?1 ORDER BY id",
        params![number],
    )?;
    first_auction(rules, &rows)
}

/// The item with a number, without its texts. A row that isn't consistent with its band table is
/// damaged.
#[tactic(auto, using(crate::proofs::Auctions::terms_some, crate::proofs::Auctions::terms_none))]
pub fn terms_at<S: Alter>(
    conn: &mut Connection<S>,
    rules: &Rules,
    number: u32,
) -> Result<Option<Terms>, KeepFault>
    requires { ServesBy rules.now.reserves (state S.Store conn.old) }
    ensures finds { Finds S.Store conn.old conn.new result
        (λ db found. found ≡ option_map (λ (row : ItemRow). row.item.terms)
        (find (is_item number) (items_in db))) (λ db. RowFitsAt rules.now.editions db number) }
    ensures fits { IfOk result (λ found. IfSome found TermsFit) }
    ensures is_consistent { IfOk result (λ found. IfSome found (IsConsistentBy rules.now.editions)) }
    ensures kept { HasCleanDisk (state S.Store conn.new) → OnOk result
        (IsKeptAt rules.now.editions (state S.Store conn.old).now.trees number) }
{
    match auction_at(conn, rules, number)? {
        Some(auction) => Ok(Some(auction.terms)),
        None => Ok(None),
    }
}

/// The number of a seller's item with a lot.
pub fn item_with_lot<S: Alter>(
    conn: &mut Connection<S>,
    seller: u32,
    lot: &str,
) -> Result<Option<u32>, KeepFault>
    requires { Serves (state S.Store conn.old) }
    ensures { Finds S.Store conn.old conn.new result
        (λ db found. found ≡ number_with_lot seller lot.now db)
        (λ db. IfSome (number_with_lot seller lot.now db) (λ n. n < 2 ^ 32)) }
{
    let rows = rows_shown(
        conn,
        "SELECT id FROM item WHERE seller = ?1 AND lot = ?2 ORDER BY id",
        params![seller, lot],
    )?;
    first_of(&rows)
}

/// All items, by number. A row that isn't consistent with its band table is damaged.
pub fn all_items<S: Alter>(
    alloc: Global,
    conn: &mut Connection<S>,
    rules: &Rules,
) -> Result<Vec<Item>, KeepFault>
    requires { ServesBy rules.now.reserves (state S.Store conn.old) }
    ensures finds { Finds S.Store conn.old conn.new result
        (λ db items. items.items ≡ map (λ (row : ItemRow). row.item) (items_in db))
        (λ db. AllByRecursion (FitsBy rules.now.editions) (items_in db)) }
    ensures fits { IfOk result (λ items. AllByRecursion ItemFits items.items) }
    ensures is_consistent { IfOk result (λ items. AllByRecursion
        (λ it. IsConsistentBy rules.now.editions it.terms) items.items) }
    ensures kept { HasCleanDisk (state S.Store conn.new) → OnOk result (AllByRecursion
        (IsKeptRowBy rules.now.editions) (items_in (state S.Store conn.old).now.trees)) }
{
    let rows = rows_shown(
        conn,
        "SELECT id, seller, category, start, buy_now, ending, state, closed, price, leader, \
        count, lot, title, body, top, second FROM item ORDER BY id",
        &[],
    )?;
    item_list(alloc, rules, &rows)
}

/// An item without its texts, with the standing of its bids; Damaged where there is none, or where
/// its row isn't consistent with its band table.
pub(crate) fn auction_there<S: Alter>(
    conn: &mut Connection<S>,
    rules: &Rules,
    item: u32,
) -> Result<Auction, KeepFault>
    requires { ServesBy rules.now.reserves (state S.Store conn.old) }
    ensures finds { Finds S.Store conn.old conn.new result
        (λ db a. option_map auction_of (find (is_item item) (items_in db)) ≡ Some a)
        (ItemFitsThere rules.now.editions item) }
    ensures fits { IfOk result (λ a. TermsFit a.terms) }
    ensures is_consistent { IfOk result (λ a. IsConsistentBy rules.now.editions a.terms) }
    ensures kept { IfOk result (λ a. IsKeptItemBy rules.now.editions a.terms a.standing) }
{
    match auction_at(conn, rules, item) {
        Ok(Some(auction)) => Ok(auction),
        Ok(None) => Err(KeepFault::Damaged),
        Err(fault) => Err(fault),
    }
}
