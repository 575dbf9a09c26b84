//! The table of items: what is written.
ghost use Rattle.std.specs.Prelude.{◌≡◌, ◌<◌, ◌^◌, IfSome, None, if◌then◌else◌, OnOk, IsErrOf};
ghost use Rattle.sqlite.specs.State.{HasCleanDisk};
ghost use Rattle.sqlite.specs.Held.{state};
ghost use Rattle.house_rows.specs.Changed.{new_item};
ghost use Rattle.house_rows.specs.declared.fault.KeepFault.TheVariants.{Damaged};
ghost use Rattle.store_rows.specs.House.{IsBegun};
ghost use Rattle.store_items.specs.Items.{AddsItem, SetsBought, SetsClosed, SetsSettled, SetsStanding};
ghost use Rattle.store_rows.specs.Frames.{WritesOnce};

use cents::Cents;
use house_rows::{KeepFault, NewItem, Text};
use proxy::Standing;
use sqlite::{Alter, Transaction, params};
use store_rows::run;

// An amount as a parameter.
fn stored_cents(amount: Cents) -> u32
    ensures value { result ≡ amount }
    ensures small { amount < 2 ^ 32 }
{
    amount.value() as u32
}

// An amount that may be missing.
fn stored_maybe_cents(amount: Option<Cents>) -> Option<u32>
    ensures value { result ≡ amount }
    ensures small { IfSome amount (λ n. n < 2 ^ 32) }
{
    match amount {
        Some(amount) => Some(stored_cents(amount)),
        None => None,
    }
}

// A number as a parameter.
fn stored_number(number: u32) -> u32
    ensures value { result ≡ number }
    ensures small { number < 2 ^ 32 }
{
    number
}

// A number that may be missing.
fn stored_maybe_number(number: Option<u32>) -> Option<u32>
    ensures value { result ≡ number }
    ensures small { IfSome number (λ n. n < 2 ^ 32) }
{
    number
}

// A text as a parameter.
fn stored_text(text: &Text) -> &str
    ensures { result.now ≡ text.now }
{
    text.as_str()
}

/// Adds an item with a number and an end, open, with no bid and without its reserve, within a
/// transaction.
pub fn put_item<S: Alter>(
    tx: &mut Transaction<'_, S>,
    number: u32,
    item: &NewItem<'_>,
    end: u32,
) -> Result<(), KeepFault>
    requires { IsBegun (state S.Store tx.old.conn.now) }
    ensures same_reference { tx.new.conn.ghost_name ≡ tx.old.conn.ghost_name }
    ensures ok { HasCleanDisk (state S.Store tx.new.conn.now)
        → OnOk result (AddsItem (new_item number (record item.now { end = end; reserve = None }))
        (state S.Store tx.old.conn.now).now (state S.Store tx.new.conn.now).now) }
    ensures sound { ¬ (IsErrOf result Damaged) }
    ensures write { WritesOnce (state S.Store tx.old.conn.now)
        (state S.Store tx.new.conn.now) result }
{
    let seller = stored_number(item.seller);
    let category = stored_number(item.category);
    let lot = stored_text(item.lot);
    let title = stored_text(item.title);
    let text = stored_text(item.text);
    let start = stored_cents(item.start);
    let buy_now = stored_maybe_cents(item.buy_now);
    run(
        tx,
        "INSERT INTO item (id, seller, category, lot, title, body, start, buy_now, ending, state, \
        closed, price, leader, top, second, count) VALUES (?1, ?2, ?3, ?4, ?5, ?6, ?7, ?8, ?9, 0, \
        NULL, ?7, NULL, NULL, NULL, 0)",
        params![
            number, seller, category, lot, title, text, start, buy_now, end,
        ],
    )
}

/// Sets the standing of the bids on an item within a transaction.
pub fn set_standing<S: Alter>(
    tx: &mut Transaction<'_, S>,
    item: u32,
    standing: &Standing,
) -> Result<(), KeepFault>
    requires { IsBegun (state S.Store tx.old.conn.now) }
    ensures same_reference { tx.new.conn.ghost_name ≡ tx.old.conn.ghost_name }
    ensures ok { HasCleanDisk (state S.Store tx.new.conn.now)
        → OnOk result (SetsStanding item standing.now (state S.Store tx.old.conn.now).now
        (state S.Store tx.new.conn.now).now) }
    ensures sound { ¬ (IsErrOf result Damaged) }
    ensures write { WritesOnce (state S.Store tx.old.conn.now)
        (state S.Store tx.new.conn.now) result }
{
    let price = stored_cents(standing.price());
    let leader = stored_maybe_number(standing.leader());
    let top = stored_maybe_cents(standing.top());
    let second = stored_maybe_cents(standing.second());
    let count = standing.count();
    run(
        tx,
        "UPDATE item SET price = ?2, leader = ?3, top = ?4, second = ?5, count = ?6 WHERE id = ?1",
        params![item, price, leader, top, second, count],
    )
}

/// Sells an item at once, within a transaction. The moment is in seconds since
/// 1970-01-01T00:00:00Z.
pub fn set_bought<S: Alter>(
    tx: &mut Transaction<'_, S>,
    item: u32,
    buyer: u32,
    price: Cents,
    moment: u32,
) -> Result<(), KeepFault>
    requires { IsBegun (state S.Store tx.old.conn.now) }
    ensures same_reference { tx.new.conn.ghost_name ≡ tx.old.conn.ghost_name }
    ensures ok { HasCleanDisk (state S.Store tx.new.conn.now)
        → OnOk result (SetsBought item buyer price moment (state S.Store tx.old.conn.now).now
        (state S.Store tx.new.conn.now).now) }
    ensures sound { ¬ (IsErrOf result Damaged) }
    ensures write { WritesOnce (state S.Store tx.old.conn.now)
        (state S.Store tx.new.conn.now) result }
{
    let price = stored_cents(price);
    run(
        tx,
        "UPDATE item SET state = 1, closed = ?2, price = ?3, leader = ?4 WHERE id = ?1",
        params![item, moment, price, buyer],
    )
}

// A closed state as it is stored.
fn closed_state(is_sold: bool) -> u32
    ensures { result ≡ if is_sold then 1 else 2 }
{
    if is_sold { 1 } else { 2 }
}

/// Closes an item at its end within a transaction, as sold or unsold.
pub fn set_closed<S: Alter>(
    tx: &mut Transaction<'_, S>,
    item: u32,
    is_sold: bool,
) -> Result<(), KeepFault>
    requires { IsBegun (state S.Store tx.old.conn.now) }
    ensures same_reference { tx.new.conn.ghost_name ≡ tx.old.conn.ghost_name }
    ensures ok { HasCleanDisk (state S.Store tx.new.conn.now)
        → OnOk result (SetsClosed item is_sold (state S.Store tx.old.conn.now).now
        (state S.Store tx.new.conn.now).now) }
    ensures sound { ¬ (IsErrOf result Damaged) }
    ensures write { WritesOnce (state S.Store tx.old.conn.now)
        (state S.Store tx.new.conn.now) result }
{
    let state = closed_state(is_sold);
    run(
        tx,
        "UPDATE item SET state = ?2, closed = ending WHERE id = ?1",
        params![item, state],
    )
}

/// Settles the sale of an item within a transaction.
pub fn set_settled<S: Alter>(tx: &mut Transaction<'_, S>, item: u32) -> Result<(), KeepFault>
    requires { IsBegun (state S.Store tx.old.conn.now) }
    ensures same_reference { tx.new.conn.ghost_name ≡ tx.old.conn.ghost_name }
    ensures ok { HasCleanDisk (state S.Store tx.new.conn.now)
        → OnOk result (SetsSettled item (state S.Store tx.old.conn.now).now
        (state S.Store tx.new.conn.now).now) }
    ensures sound { ¬ (IsErrOf result Damaged) }
    ensures write { WritesOnce (state S.Store tx.old.conn.now)
        (state S.Store tx.new.conn.now) result }
{
    run(tx, "UPDATE item SET state = 3 WHERE id = ?1", params![item])
}
