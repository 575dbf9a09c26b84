//! Items without their texts, by number.
ghost use Rattle.std.specs.Prelude.{◌≡◌, ◌==◌, filter, map, IfOk, OnOk};
ghost use Rattle.std.specs.List.{AllByRecursion};
ghost use Rattle.sqlite.specs.Held.{state};
ghost use Rattle.sqlite.specs.State.{HasCleanDisk};
ghost use Rattle.proxy.specs.Bids.{is_leader};
ghost use Rattle.house_rows.specs.Fits.{TermsFit};
ghost use Rattle.house_rows.specs.Items.{is_due};
ghost use Rattle.house_rows.specs.Keeping.{IsConsistentBy};
ghost use Rattle.house_rows.specs.Tables.{ItemRow};
ghost use Rattle.store_rows.specs.House.{ServesBy};
ghost use Rattle.store_rows.specs.ItemRows.{items_in};
ghost use Rattle.store_rows.specs.Frames.{Finds};
ghost use Rattle.store_items.specs.ConsistentRows.{RowsAreKept};
ghost use Rattle.store_items.specs.LookUps.{ItemsFitBy};

use crate::reads::terms_list;
use house_rows::{KeepFault, Terms};
use sqlite::{Alter, Connection, params};
use std::alloc::Global;
use store_rows::{Rules, rows_shown};

/// The items that a member sells, without their texts.
pub fn terms_of_seller<S: Alter>(
    alloc: Global,
    conn: &mut Connection<S>,
    rules: &Rules,
    seller: u32,
) -> Result<Vec<Terms>, KeepFault>
    requires { ServesBy rules.now.reserves (state S.Store conn.old) }
    ensures finds { Finds S.Store conn.old conn.new result
        (λ db terms. terms.items ≡ map (λ (row : ItemRow). row.item.terms)
        (filter (λ row. row.item.terms.seller == seller) (items_in db)))
        (ItemsFitBy rules.now.editions (λ row. row.item.terms.seller == seller)) }
    ensures fits { IfOk result (λ terms. AllByRecursion TermsFit terms.items) }
    ensures is_consistent { IfOk result (λ terms. AllByRecursion
        (IsConsistentBy rules.now.editions) terms.items) }
    ensures kept { HasCleanDisk (state S.Store conn.new)
        → OnOk result (RowsAreKept rules.now.editions (λ row. row.item.terms.seller == seller)
        (state S.Store conn.old).now.trees) }
{
    let rows = rows_shown(
        conn,
        "SELECT id, seller, category, start, buy_now, ending, state, closed, price, leader, \
        count, top, second FROM item WHERE seller = ?1 ORDER BY id",
        params![seller],
    )?;
    terms_list(alloc, rules, &rows)
}

/// The items that a member leads, or has bought, without their texts.
pub(crate) fn terms_led_by<S: Alter>(
    alloc: Global,
    conn: &mut Connection<S>,
    rules: &Rules,
    member: u32,
) -> Result<Vec<Terms>, KeepFault>
    requires { ServesBy rules.now.reserves (state S.Store conn.old) }
    ensures finds { Finds S.Store conn.old conn.new result
        (λ db terms. terms.items ≡ map (λ (row : ItemRow). row.item.terms)
        (filter (λ row. is_leader row.item.terms.leader member) (items_in db)))
        (ItemsFitBy rules.now.editions (λ row. is_leader row.item.terms.leader member)) }
    ensures fits { IfOk result (λ terms. AllByRecursion TermsFit terms.items) }
    ensures is_consistent { IfOk result (λ terms. AllByRecursion
        (IsConsistentBy rules.now.editions) terms.items) }
    ensures kept { HasCleanDisk (state S.Store conn.new)
        → OnOk result (RowsAreKept rules.now.editions
        (λ row. is_leader row.item.terms.leader member) (state S.Store conn.old).now.trees) }
{
    let rows = rows_shown(
        conn,
        "SELECT id, seller, category, start, buy_now, ending, state, closed, price, leader, \
        count, top, second FROM item WHERE leader = ?1 ORDER BY id",
        params![member],
    )?;
    terms_list(alloc, rules, &rows)
}

/// The open items whose end is at or before a moment, without their texts. The moment is in seconds
/// since 1970-01-01T00:00:00Z.
pub fn due_terms<S: Alter>(
    alloc: Global,
    conn: &mut Connection<S>,
    rules: &Rules,
    moment: u32,
) -> Result<Vec<Terms>, KeepFault>
    requires { ServesBy rules.now.reserves (state S.Store conn.old) }
    ensures finds { Finds S.Store conn.old conn.new result
        (λ db terms. terms.items ≡ map (λ (row : ItemRow). row.item.terms)
        (filter (λ row. is_due moment row.item.terms) (items_in db)))
        (ItemsFitBy rules.now.editions (λ row. is_due moment row.item.terms)) }
    ensures fits { IfOk result (λ terms. AllByRecursion TermsFit terms.items) }
    ensures is_consistent { IfOk result (λ terms. AllByRecursion
        (IsConsistentBy rules.now.editions) terms.items) }
    ensures kept { HasCleanDisk (state S.Store conn.new)
        → OnOk result (RowsAreKept rules.now.editions (λ row. is_due moment row.item.terms)
        (state S.Store conn.old).now.trees) }
{
    // An end below 0 is none of ours, so it never comes.
    let rows = rows_shown(
        conn,
        "SELECT id, seller, category, start, buy_now, ending, state, closed, price, leader, \
        count, top, second FROM item WHERE state = 0 AND ending >= 0 AND ending <= ?1 ORDER BY id",
        params![moment],
    )?;
    terms_list(alloc, rules, &rows)
}
