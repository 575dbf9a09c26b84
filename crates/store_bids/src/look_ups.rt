//! Whether a bid is there, and on which items a member has bid.
ghost use Rattle.std.specs.Prelude.{◌≡◌, ◌==◌, ◌&&◌, ⊤, [], filter, nat_le, take, IsErrOf, OnOk};
ghost use Rattle.std.specs.List.{list_any};
ghost use Rattle.sqlite.specs.State.{HasCleanDisk, Shown};
ghost use Rattle.sqlite.specs.Held.{state};
ghost use Rattle.house_rows.specs.Limits.{most_shown};
ghost use Rattle.house_rows.specs.declared.fault.KeepFault.TheVariants.{Damaged};
ghost use Rattle.store_rows.specs.House.{Serves};
ghost use Rattle.store_rows.specs.First.{ShowsSome};
ghost use Rattle.store_rows.specs.Sorted.{sorted_bids};
ghost use Rattle.store_rows.specs.Frames.{Finds, OnlyReads};
ghost use Rattle.store_bids.specs.OwnBids.{items_bid_on};
ghost use Rattle.store_rows.specs.Statements.{AlwaysFinite, AlwaysPlain};

use house_rows::{KeepFault, MOST_SHOWN};
use sqlite::{Alter, Connection, params};
use std::alloc::Global;
use store_rows::{all_of, first_rows, rows_shown};

/// Whether an item has a bid with a number.
pub(crate) fn has_bid<S: Alter>(
    conn: &mut Connection<S>,
    item: u32,
    number: u32,
) -> Result<bool, KeepFault>
    requires { Serves (state S.Store conn.old) }
    ensures finds { Finds S.Store conn.old conn.new result
        (λ db is. is ≡ list_any (λ b. (b.item == item) && (b.bid.no == number)) (sorted_bids db))
        (λ _. ⊤) }
    ensures sound { ¬ (IsErrOf result Damaged) }
{
    let rows = rows_shown(
        conn,
        "SELECT no FROM bid WHERE item = ?1 AND no = ?2",
        params![item, number],
    )?;
    Ok(!rows.is_empty())
}

/// The items of a member's bids, from a number on, as often as it has bid on each; at most fifty.
pub(crate) fn items_bid_on<S: Alter>(
    alloc: Global,
    conn: &mut Connection<S>,
    member: u32,
    from: u32,
) -> Result<Vec<u32>, KeepFault>
    requires { Serves (state S.Store conn.old) }
    ensures { Finds S.Store conn.old conn.new result
        (λ db items. items.items ≡ take most_shown (filter (nat_le from)
        (items_bid_on (sorted_bids db) member))) (λ _. ⊤) }
{
    let rows = first_rows(
        alloc,
        conn,
        "SELECT item FROM bid WHERE member = ?1 AND item >= ?2 AND item <= 4294967295 ORDER BY item",
        params![member, from],
        MOST_SHOWN,
    )?;
    all_of(alloc, &rows)
}

/// Reports that a query shows no item. Where it shows one the answer is `Damaged`.
pub(crate) fn no_item<S: Alter>(
    alloc: Global,
    conn: &mut Connection<S>,
    sql: &str,
) -> Result<(), KeepFault>
    requires serves { Serves (state S.Store conn.old) }
    requires plain { AlwaysPlain sql.now }
    requires finite { AlwaysFinite sql.now }
    ensures none { HasCleanDisk (state S.Store conn.new)
        → OnOk result (Shown sql.now [] (state S.Store conn.old) (state S.Store conn.new) []) }
    ensures damaged { HasCleanDisk (state S.Store conn.new)
        → IsErrOf result Damaged
        → ShowsSome sql.now [] (state S.Store conn.old) (state S.Store conn.new) }
    ensures read { OnlyReads (state S.Store conn.old) (state S.Store conn.new) result }
{
    let shown = first_rows(alloc, conn, sql, &[], 1)?;
    if shown.is_empty() {
        Ok(())
    } else {
        Err(KeepFault::Damaged)
    }
}
