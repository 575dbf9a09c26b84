//! Lists of items.
ghost use Rattle.std.specs.Prelude.{◌≡◌, ◌==◌, ◌&&◌, filter, map, nat_le, take, IfOk, OnOk};
ghost use Rattle.std.specs.List.{AllByRecursion};
ghost use Rattle.house_rows.specs.Fits.{ItemFits};
ghost use Rattle.house_rows.specs.Found.{items_in};
ghost use Rattle.house_rows.specs.Keeping.{IsConsistentBy};
ghost use Rattle.house_rows.specs.Taken.{start_of};
ghost use Rattle.house_rows.specs.Limits.{most_shown};
ghost use Rattle.house_rows.specs.Tables.{ItemRow};
ghost use Rattle.sqlite.specs.Held.{state};
ghost use Rattle.sqlite.specs.State.{HasCleanDisk};
ghost use Rattle.store_rows.specs.House.{ServesBy};
ghost use Rattle.store_rows.specs.ItemRows as stored;
ghost use Rattle.store_rows.specs.Tables.{tables_in};
ghost use Rattle.store_rows.specs.Frames.{Finds};
ghost use Rattle.store_items.specs.LookUps.{PageFits, PageIsKept};

use crate::reads::item_list;
use house_rows::{Item, KeepFault};
use sqlite::{Alter, Connection, params};
use std::alloc::Global;
use store_rows::{Rules, bound_of, page_rows};

// The items of a category, from a number on; at most fifty. It is damaged only where one of the rows
// that it shows doesn't fit.
fn items_from<S: Alter>(
    alloc: Global,
    conn: &mut Connection<S>,
    rules: &Rules,
    category: u32,
    from: u32,
) -> Result<Vec<Item>, KeepFault>
    requires { ServesBy rules.now.reserves (state S.Store conn.old) }
    ensures finds { Finds S.Store conn.old conn.new result
        (λ db items. items.items ≡ take most_shown
        (filter (λ it. (it.terms.category == category) && nat_le from it.terms.item)
        (map (λ (row : ItemRow). row.item) (stored.items_in db))))
        (PageFits rules.now.editions category from) }
    ensures fits { IfOk result (λ items. AllByRecursion ItemFits items.items) }
    ensures is_consistent { IfOk result (λ items. AllByRecursion
        (λ it. IsConsistentBy rules.now.editions it.terms) items.items) }
    ensures kept { HasCleanDisk (state S.Store conn.new) → OnOk result
        (PageIsKept rules.now.editions category from (state S.Store conn.old).now.trees) }
{
    let rows = page_rows(
        alloc,
        conn,
        "SELECT id FROM item WHERE category = ?1 AND id < 0 ORDER BY id",
        params![category],
        "SELECT id, seller, category, start, buy_now, ending, state, closed, price, leader, \
        count, lot, title, body, top, second FROM item WHERE category = ?1 AND id >= ?2 \
        ORDER BY id",
        params![category, from],
    )?;
    item_list(alloc, rules, &rows)
}

/// The items of a category, from a number on; at most fifty.
pub fn items_in<S: Alter>(
    alloc: Global,
    conn: &mut Connection<S>,
    rules: &Rules,
    category: u32,
    from: u64,
) -> Result<Vec<Item>, KeepFault>
    requires { ServesBy rules.now.reserves (state S.Store conn.old) }
    ensures finds { Finds S.Store conn.old conn.new result
        (λ db items. items.items ≡ items_in (tables_in db) category from)
        (PageFits rules.now.editions category (start_of from)) }
    ensures fits { IfOk result (λ items. AllByRecursion ItemFits items.items) }
    ensures is_consistent { IfOk result (λ items. AllByRecursion
        (λ it. IsConsistentBy rules.now.editions it.terms) items.items) }
    ensures kept { HasCleanDisk (state S.Store conn.new) → OnOk result
        (PageIsKept rules.now.editions category (start_of from)
        (state S.Store conn.old).now.trees) }
{
    items_from(alloc, conn, rules, category, bound_of(from))
}
