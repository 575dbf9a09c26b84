//! A bid.
ghost use Rattle.std.specs.Prelude.{◌≡◌, ◌≢◌, ◌<◌, ◌^◌, ◌==◌, ◌&&◌, true, false, is_some, OnOk, IsErrOf, IsTrue};
ghost use Rattle.std.specs.List.{list_any};
ghost use Rattle.sqlite.specs.State.{HasCleanDisk, Survives};
ghost use Rattle.sqlite.specs.Held.{state};
ghost use Rattle.proxy.specs.Kept.{opening_of};
ghost use Rattle.proxy.specs.Rows.{is_standing};
ghost use Rattle.house_rows.specs.Editions.{bands_in};
ghost use Rattle.house_rows.specs.Tables.{band_tables};
ghost use Rattle.house_rows.specs.Asks.{ChangeFits, IsFree};
ghost use Rattle.house_rows.specs.declared.change.Change.TheVariants as change;
ghost use Rattle.house_rows.specs.declared.fault.KeepFault.TheVariants.{Damaged};
ghost use Rattle.store_rows.specs.House.{IsBegun, IsHouse, KeepsCommitted, ServesBy, AddsBid};
ghost use Rattle.store_items.specs.Items.{OfItem, StartsAt};
ghost use Rattle.store_items.specs.Seen.{IsSeen};
ghost use Rattle.store_rows.specs.Rows.{reserves_in};
ghost use Rattle.store_rows.specs.Tables.{Changes, IsNumbered, Rests, tables_in};
ghost use Rattle.store_items.specs.ConsistentRows.{HasStandingItem, RowFitsAt};
ghost use Rattle.store_rows.specs.Frames.{Finds, WritesMany, WritesOnce};
ghost use Rattle.store_rows.specs.Commits.{Commits};
ghost use Rattle.store_bids.specs.Judged.{BeginsThere, BidFitsThere};

use crate::look_ups::has_bid;
use house_rows::{Auction, KeepFault};
use proxy::{Bid, Standing};
use sqlite::{Alter, Connection, Transaction, params};
use store_items::{auction_seen, set_standing};
use store_rows::{Rules, commit, is_still_open, run, set_clock, stored_moment};

// Whether a standing begins where the item's bids do; Damaged where it doesn't.
fn check_standing<S: Alter>(
    conn: &mut Connection<S>,
    rules: &Rules,
    seen: &Option<Auction>,
    item: u32,
    standing: &Standing,
) -> Result<(), KeepFault>
    requires serves { ServesBy rules.now.reserves (state S.Store conn.old) }
    requires seen { IsSeen rules.now.editions seen.now (state S.Store conn.old) }
    ensures finds { Finds S.Store conn.old conn.new result
        (λ db _. BeginsThere rules.now.editions item (opening_of standing.now) db)
        (BidFitsThere rules.now.editions item standing.now) }
    ensures led { OnOk result (is_some standing.now.top ≡ is_some standing.now.leader) }
    ensures is_consistent { OnOk result (is_standing (bands_in rules.now.editions item) standing.now
        ≡ true) }
{
    let terms = auction_seen(conn, rules, seen, item)?.terms;
    let bands = rules.editions.bands_for(u64::from(item));
    let reserve = rules.reserves.amount(u64::from(terms.item));
    let begun = Standing::of_row(
        terms.start,
        reserve,
        bands,
        standing.price(),
        standing.leader(),
        standing.top(),
        standing.second(),
        standing.count(),
    );
    // Only of_row gives the start and the reserve that a standing has.
    if begun == Some(*standing) {
        Ok(())
    } else {
        Err(KeepFault::Damaged)
    }
}

// Adds the bid, sets the item's standing and the clock, within a transaction.
fn write_bid<S: Alter>(
    tx: &mut Transaction<'_, S>,
    moment: u32,
    item: u32,
    placed: Bid,
    standing: &Standing,
) -> Result<(), KeepFault>
    requires begun { IsBegun (state S.Store tx.old.conn.now) }
    requires numbered { HasCleanDisk (state S.Store tx.old.conn.now)
        → IsNumbered (state S.Store tx.old.conn.now).now.trees }
    requires fits { HasCleanDisk (state S.Store tx.old.conn.now)
        → OfItem item (StartsAt (opening_of standing.now)) (state S.Store tx.old.conn.now).now }
    requires led { is_some standing.now.top ≡ is_some standing.now.leader }
    ensures same_reference { tx.new.conn.ghost_name ≡ tx.old.conn.ghost_name }
    ensures ok { HasCleanDisk (state S.Store tx.new.conn.now)
        → OnOk result (Changes (change.Bid moment item placed standing.now)
        (state S.Store tx.old.conn.now).now (state S.Store tx.new.conn.now).now) }
    ensures free { HasCleanDisk (state S.Store tx.new.conn.now)
        → OnOk result (list_any (λ b. (b.item == item) && (b.bid.no == placed.no))
        (tables_in (state S.Store tx.old.conn.now).now.trees).bids ≡ false) }
    ensures sound { ¬ (IsErrOf result Damaged) }
    ensures write { WritesMany (state S.Store tx.old.conn.now)
        (state S.Store tx.new.conn.now) result }
{
    put_bid(tx, item, placed)?;
    set_standing(tx, item, standing)?;
    set_clock(tx, moment)
}

// Places the bid in a transaction of its own. A number that is taken breaks UNIQUE, which is
// reported as a failure of the store.
fn commit_bid<S: Alter>(
    conn: &mut Connection<S>,
    moment: u32,
    item: u32,
    placed: Bid,
    standing: &Standing,
) -> Result<(), KeepFault>
    requires rests { Rests (state S.Store conn.old) }
    requires mode { conn.old.in_transaction ≡ false }
    requires fits { HasCleanDisk (state S.Store conn.old)
        → OfItem item (StartsAt (opening_of standing.now)) (state S.Store conn.old).now }
    requires led { is_some standing.now.top ≡ is_some standing.now.leader }
    ensures commit { Commits (change.Bid moment item placed standing.now) (state S.Store conn.old)
        (state S.Store conn.new) result }
    ensures free { HasCleanDisk (state S.Store conn.new)
        → OnOk result (list_any (λ b. (b.item == item) && (b.bid.no == placed.no))
        (tables_in (state S.Store conn.old).now.trees).bids ≡ false) }
    ensures sound { ¬ (IsErrOf result Damaged) }
{
    let mut tx = conn.transaction();
    write_bid(&mut tx, moment, item, placed, standing)?;
    commit(tx)
}

// Why a bid was not placed: its number is taken, or else what failed.
fn placing_fault<S: Alter>(
    conn: &mut Connection<S>,
    item: u32,
    number: u32,
    fault: KeepFault,
) -> KeepFault
    requires { HasCleanDisk (state S.Store conn.old)
        → IsTrue (state S.Store conn.old).is_open → IsHouse (state S.Store conn.old).now }
    ensures taken { HasCleanDisk (state S.Store conn.new)
        → fault ≢ Damaged
        → result ≡ Damaged
        → IsTrue (state S.Store conn.old).is_open
        × (list_any (λ b. (b.item == item) && (b.bid.no == number))
        (tables_in (state S.Store conn.old).now.trees).bids ≡ true) }
    ensures kept { HasCleanDisk (state S.Store conn.new)
        → KeepsCommitted (state S.Store conn.old) (state S.Store conn.new) }
    ensures mode { conn.old.in_transaction ≡ false → conn.new.in_transaction ≡ false }
    ensures crash { Survives (state S.Store conn.old) (state S.Store conn.new) (λ _. ⊥) }
{
    if !is_still_open(conn) {
        return fault;
    }
    match has_bid(conn, item, number) {
        Ok(is_taken) => { if is_taken { KeepFault::Damaged } else { fault } }
        Err(_) => fault,
    }
}

/// Places a bid on an item, which then has the given standing. The moment is in seconds since
/// 1970-01-01T00:00:00Z, the band tables are those of the house. What was seen of the item last is
/// not looked up again. Damaged where the bid's number is taken, where there is no such item, where
/// its terms don't fit or aren't consistent, where the standing has another start or reserve than
/// the item or amounts that don't go together, or where the moment has more than 32 bits.
pub fn bid<S: Alter>(
    conn: &mut Connection<S>,
    rules: &Rules,
    seen: &Option<Auction>,
    moment: u64,
    item: u32,
    placed: Bid,
    standing: &Standing,
) -> Result<(), KeepFault>
    requires rests { Rests (state S.Store conn.old) }
    requires mode { conn.old.in_transaction ≡ false }
    requires editions { HasCleanDisk (state S.Store conn.old)
        → rules.now.editions ≡ band_tables (tables_in (state S.Store conn.old).now.trees) }
    requires reserves { HasCleanDisk (state S.Store conn.old)
        → rules.now.reserves ≡ reserves_in (state S.Store conn.old).now.trees }
    requires seen { IsSeen rules.now.editions seen.now (state S.Store conn.old) }
    ensures commit { Commits (change.Bid moment item placed standing.now) (state S.Store conn.old)
        (state S.Store conn.new) result }
    ensures there { HasCleanDisk (state S.Store conn.new)
        → OnOk result (HasStandingItem rules.now.editions (state S.Store conn.old).now.trees item) }
    ensures start { HasCleanDisk (state S.Store conn.new)
        → OnOk result (OfItem item (StartsAt (opening_of standing.now))
        (state S.Store conn.old).now) }
    ensures is_consistent { OnOk result (is_standing (bands_in rules.now.editions item) standing.now
        ≡ true) }
    ensures moment { OnOk result (moment < 2 ^ 32) }
    ensures taken { HasCleanDisk (state S.Store conn.new)
        → OnOk result (IsFree (tables_in (state S.Store conn.old).now.trees)
        (change.Bid moment item placed standing.now)) }
    ensures damaged { HasCleanDisk (state S.Store conn.new)
        → RowFitsAt rules.now.editions (state S.Store conn.old).now.trees item
        → ChangeFits (tables_in (state S.Store conn.old).now.trees)
        (change.Bid moment item placed standing.now)
        → IsFree (tables_in (state S.Store conn.old).now.trees)
        (change.Bid moment item placed standing.now)
        → ¬ (IsErrOf result Damaged) }
{
    let moment = stored_moment(moment)?;
    check_standing(conn, rules, seen, item, standing)?;
    let number = placed.no;
    match commit_bid(conn, moment, item, placed, standing) {
        Ok(()) => Ok(()),
        Err(fault) => Err(placing_fault(conn, item, number, fault)),
    }
}

/// Adds a bid on an item within a transaction. A number that is taken breaks UNIQUE, so it fails.
pub(crate) fn put_bid<S: Alter>(
    tx: &mut Transaction<'_, S>,
    item: u32,
    bid: Bid,
) -> Result<(), KeepFault>
    requires { IsBegun (state S.Store tx.old.conn.now) }
    ensures same_reference { tx.new.conn.ghost_name ≡ tx.old.conn.ghost_name }
    ensures ok { HasCleanDisk (state S.Store tx.new.conn.now)
        → OnOk result (AddsBid (record { item = item; bid = bid })
        (state S.Store tx.old.conn.now).now (state S.Store tx.new.conn.now).now) }
    ensures free { HasCleanDisk (state S.Store tx.new.conn.now)
        → OnOk result (list_any (λ b. (b.item == item) && (b.bid.no == bid.no))
        (tables_in (state S.Store tx.old.conn.now).now.trees).bids ≡ false) }
    ensures sound { ¬ (IsErrOf result Damaged) }
    ensures write { WritesOnce (state S.Store tx.old.conn.now)
        (state S.Store tx.new.conn.now) result }
{
    let maximum = bid.maximum.value() as u32;
    run(
        tx,
        "INSERT INTO bid (item, no, member, maximum) VALUES (?1, ?2, ?3, ?4)",
        params![item, bid.no, bid.member, maximum],
    )
}
