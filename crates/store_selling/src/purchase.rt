//! A purchase at once.
ghost use Rattle.std.specs.Prelude.{◌≡◌, ◌<◌, ◌^◌, ◌==◌, ◌&&◌, false, is_some, not, OnOk, IsErrOf};
ghost use Rattle.sqlite.specs.State.{HasCleanDisk};
ghost use Rattle.sqlite.specs.Held.{state};
ghost use Rattle.house_rows.specs.Tables.{band_tables};
ghost use Rattle.house_rows.specs.Asks.{ChangeFits};
ghost use Rattle.house_rows.specs.declared.change.Change.TheVariants.{Buy};
ghost use Rattle.house_rows.specs.declared.fault.KeepFault.TheVariants.{Damaged};
ghost use Rattle.store_rows.specs.House.{IsBegun, ServesBy};
ghost use Rattle.store_items.specs.Items.{OfItem};
ghost use Rattle.store_rows.specs.Rows.{reserves_in};
ghost use Rattle.store_rows.specs.Tables.{Changes, IsNumbered, Rests, tables_in};
ghost use Rattle.store_items.specs.ConsistentRows.{HasStandingItem, RowFitsAt};
ghost use Rattle.store_items.specs.Seen.{IsSeen};
ghost use Rattle.store_selling.specs.Sales.{IsUnbid};
ghost use Rattle.store_rows.specs.Frames.{Finds, WritesMany};
ghost use Rattle.store_rows.specs.Commits.{Commits};
ghost use Rattle.store_selling.specs.LookUps.{HasUnbidItem, PurchaseFitsThere};

use cents::Cents;
use house_rows::{Auction, KeepFault};
use sqlite::{Alter, Connection, Transaction};
use store_items::{auction_seen, set_bought};
use store_rows::{Rules, commit, set_clock, stored_moment};

// Whether nobody has bid. Of an item that was bought the standing is that of no bids, too.
fn is_unbid(auction: &Auction) -> bool
    ensures { result ≡ ((auction.now.standing.price == auction.now.terms.start)
        && not (is_some auction.now.standing.leader) && not (is_some auction.now.standing.top)) }
{
    let standing = &auction.standing;
    standing.price() == auction.terms.start
        && standing.leader().is_none()
        && standing.top().is_none()
}

// Whether nobody has bid on an item; Damaged where somebody has.
fn check_unbid<S: Alter>(
    conn: &mut Connection<S>,
    rules: &Rules,
    seen: &Option<Auction>,
    item: u32,
) -> Result<(), KeepFault>
    requires serves { ServesBy rules.now.reserves (state S.Store conn.old) }
    requires seen { IsSeen rules.now.editions seen.now (state S.Store conn.old) }
    ensures { Finds S.Store conn.old conn.new result
        (λ db _. HasUnbidItem rules.now.editions item db)
        (PurchaseFitsThere rules.now.editions item) }
{
    let auction = auction_seen(conn, rules, seen, item)?;
    if is_unbid(&auction) {
        Ok(())
    } else {
        Err(KeepFault::Damaged)
    }
}

// Sells the item at once and sets the clock, within a transaction.
fn write_purchase<S: Alter>(
    tx: &mut Transaction<'_, S>,
    moment: u32,
    item: u32,
    buyer: u32,
    price: Cents,
) -> Result<(), KeepFault>
    requires begun { IsBegun (state S.Store tx.old.conn.now) }
    requires numbered { HasCleanDisk (state S.Store tx.old.conn.now)
        → IsNumbered (state S.Store tx.old.conn.now).now.trees }
    requires fits { HasCleanDisk (state S.Store tx.old.conn.now)
        → OfItem item (IsUnbid) (state S.Store tx.old.conn.now).now }
    ensures same_reference { tx.new.conn.ghost_name ≡ tx.old.conn.ghost_name }
    ensures ok { HasCleanDisk (state S.Store tx.new.conn.now)
        → OnOk result (Changes (Buy moment item buyer price) (state S.Store tx.old.conn.now).now
        (state S.Store tx.new.conn.now).now) }
    ensures sound { ¬ (IsErrOf result Damaged) }
    ensures write { WritesMany (state S.Store tx.old.conn.now)
        (state S.Store tx.new.conn.now) result }
{
    set_bought(tx, item, buyer, price, moment)?;
    set_clock(tx, moment)
}

/// Sells an item at once for its buy-now price. The moment is in seconds since
/// 1970-01-01T00:00:00Z, the band tables are those of the house. What was seen of the item last is
/// not looked up again. Damaged where there is no such item, where somebody has bid on it, where its
/// terms don't fit or aren't consistent, or where the moment has more than 32 bits.
pub fn buy<S: Alter>(
    conn: &mut Connection<S>,
    rules: &Rules,
    seen: &Option<Auction>,
    moment: u64,
    item: u32,
    buyer: u32,
    price: Cents,
) -> Result<(), KeepFault>
    requires rests { Rests (state S.Store conn.old) }
    requires mode { conn.old.in_transaction ≡ false }
    requires editions { HasCleanDisk (state S.Store conn.old)
        → rules.now.editions ≡ band_tables (tables_in (state S.Store conn.old).now.trees) }
    requires reserves { HasCleanDisk (state S.Store conn.old)
        → rules.now.reserves ≡ reserves_in (state S.Store conn.old).now.trees }
    requires seen { IsSeen rules.now.editions seen.now (state S.Store conn.old) }
    ensures commit { Commits (Buy moment item buyer price) (state S.Store conn.old)
        (state S.Store conn.new) result }
    ensures there { HasCleanDisk (state S.Store conn.new)
        → OnOk result (HasStandingItem rules.now.editions (state S.Store conn.old).now.trees item) }
    ensures unbid { HasCleanDisk (state S.Store conn.new)
        → OnOk result (OfItem item IsUnbid (state S.Store conn.old).now) }
    ensures moment { OnOk result (moment < 2 ^ 32) }
    ensures damaged { HasCleanDisk (state S.Store conn.new)
        → RowFitsAt rules.now.editions (state S.Store conn.old).now.trees item
        → ChangeFits (tables_in (state S.Store conn.old).now.trees) (Buy moment item buyer price)
        → ¬ (IsErrOf result Damaged) }
{
    let moment = stored_moment(moment)?;
    check_unbid(conn, rules, seen, item)?;
    let mut tx = conn.transaction();
    write_purchase(&mut tx, moment, item, buyer, price)?;
    commit(tx)
}
