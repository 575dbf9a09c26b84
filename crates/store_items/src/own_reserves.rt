//! The reserves that a member has sealed. Of an item that has none to show the number alone is read,
//! and nothing of those after a full list.
ghost use Rattle.std.specs.Prelude.{◌≡◌, ◌<◌, ◌^◌, ◌++◌, filter, flat_map, is_some, true, take, IfOk, OnOk, IsErrOf};
ghost use Rattle.std.specs.List.{AllByRecursion};
ghost use Rattle.sqlite.specs.Held.{state};
ghost use Rattle.sqlite.specs.State.{HasCleanDisk};
ghost use Rattle.sqlite_value.specs.Order.{column};
ghost use Rattle.house_rows.specs.Fits.{OwnReserveFits};
ghost use Rattle.house_rows.specs.Found.{own_reserves};
ghost use Rattle.house_rows.specs.Keeping.{IsKeptRowBy};
ghost use Rattle.house_rows.specs.Limits.{most_shown};
ghost use Rattle.house_rows.specs.Taken.{has_own_reserve, up_to};
ghost use Rattle.house_rows.specs.declared.fault.KeepFault.TheVariants.{Damaged};
ghost use Rattle.store_rows.specs.Frames.{Finds};
ghost use Rattle.store_rows.specs.House.{ServesBy};
ghost use Rattle.store_rows.specs.ItemRows.{items_in};
ghost use Rattle.store_rows.specs.Rows.{number_in};
ghost use Rattle.store_rows.specs.Tables.{tables_in};
ghost use Rattle.store_items.specs.OwnReserves.{reserve_in, reserve_shown};
ghost use Rattle.store_items.specs.Standing.{IsShownKept, TermsHold};
ghost use Rattle.store_items.specs.LookUps.{ReservesFit};

use crate::reads::terms_read;
use cents::Cents;
use house_rows::{KeepFault, MOST_SHOWN, OwnReserve};
use list_rows::push;
use sqlite::{Alter, Connection, Row, params};
use std::alloc::Global;
use store_rows::{Rules, number_at, rows_shown};

// The reserve of the item of a row, if it has one and its number is not below another.
fn reserve_in(rules: &Rules, row: &Row, from: u64) -> Result<Option<Cents>, KeepFault>
    ensures value { IfOk result (λ r. r ≡ reserve_in rules.now.reserves from row.now) }
    ensures damaged { number_in (column row.now 0) < 2 ^ 32 → ¬ (IsErrOf result Damaged) }
{
    let item = u64::from(number_at(row, 0)?);
    if item < from {
        return Ok(None);
    }
    Ok(rules.reserves.amount(item))
}

// Adds it to those found. Of an item without one the row is read no further.
fn add_reserve(
    rules: &Rules,
    row: &Row,
    from: u64,
    found: &mut Vec<OwnReserve>,
) -> Result<(), KeepFault>
    ensures value { OnOk result (found.new.items ≡ found.old.items
        ++ reserve_shown rules.now.reserves from row.now) }
    ensures fits { AllByRecursion OwnReserveFits found.old.items
        → OnOk result (AllByRecursion OwnReserveFits found.new.items) }
    ensures kept { OnOk result (is_some (reserve_in rules.now.reserves from row.now) ≡ true
        → IsShownKept rules.now.editions rules.now.reserves row.now) }
    ensures damaged { number_in (column row.now 0) < 2 ^ 32
        → (is_some (reserve_in rules.now.reserves from row.now) ≡ true
        → TermsHold rules.now.editions rules.now.reserves row.now)
        → ¬ (IsErrOf result Damaged) }
{
    let Some(reserve) = reserve_in(rules, row, from)? else {
        return Ok(());
    };
    let terms = terms_read(rules, row)?;
    push(
        found,
        OwnReserve {
            item: terms.item,
            met: terms.met.unwrap_or(false),
            reserve,
        },
    )
}

// The first fifty reserves of the items of some rows, from a number on.
fn first_reserves(
    alloc: Global,
    rules: &Rules,
    rows: &[Row],
    from: u64,
) -> Result<Vec<OwnReserve>, KeepFault>
    ensures value { IfOk result (λ found. found.items ≡ take most_shown
        (flat_map (reserve_shown rules.now.reserves from) rows.now)) }
    ensures fits { IfOk result (λ found. AllByRecursion OwnReserveFits found.items) }
    ensures kept { OnOk result (AllByRecursion (IsShownKept rules.now.editions rules.now.reserves)
        (take most_shown
        (filter (λ row. is_some (reserve_in rules.now.reserves from row)) rows.now))) }
    ensures damaged { AllByRecursion (λ row. number_in (column row 0) < 2 ^ 32) (up_to most_shown
        (λ row. is_some (reserve_in rules.now.reserves from row)) rows.now)
        → AllByRecursion (TermsHold rules.now.editions rules.now.reserves) (take most_shown
        (filter (λ row. is_some (reserve_in rules.now.reserves from row)) rows.now))
        → ¬ (IsErrOf result Damaged) }
{
    let mut found = Vec::new(alloc);
    for row in rows {
        if found.len() >= MOST_SHOWN {
            return Ok(found);
        }
        add_reserve(rules, row, from, &mut found)?;
    }
    Ok(found)
}

/// The reserves of a member on what it sells, from an item on; at most fifty. They are damaged only
/// where an item of the member up to the last one shown has no number of ours, or where the row of
/// one that is shown doesn't fit.
pub fn reserves_of<S: Alter>(
    alloc: Global,
    conn: &mut Connection<S>,
    rules: &Rules,
    member: u32,
    from: u64,
) -> Result<Vec<OwnReserve>, KeepFault>
    requires { ServesBy rules.now.reserves (state S.Store conn.old) }
    ensures finds { Finds S.Store conn.old conn.new result
        (λ db found. found.items ≡ own_reserves (tables_in db) member from)
        (ReservesFit rules.now.editions member from) }
    ensures fits { IfOk result (λ found. AllByRecursion OwnReserveFits found.items) }
    ensures kept { HasCleanDisk (state S.Store conn.new) → OnOk result (AllByRecursion
        (IsKeptRowBy rules.now.editions) (take most_shown (filter (has_own_reserve member from)
        (items_in (state S.Store conn.old).now.trees)))) }
{
    let rows = rows_shown(
        conn,
        "SELECT id, seller, category, start, buy_now, ending, state, closed, price, leader, \
        count, top, second FROM item WHERE seller = ?1 ORDER BY id",
        params![member],
    )?;
    first_reserves(alloc, rules, &rows, from)
}
