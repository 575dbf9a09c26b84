//! A member's bids on an item.
ghost use Rattle.std.specs.Prelude.{◌≡◌, ◌==◌, ◌&&◌, map, filter, IfOk};
ghost use Rattle.std.specs.List.{AllByRecursion};
ghost use Rattle.sqlite.specs.Held.{state};
ghost use Rattle.house_rows.specs.Bids.{BidRow};
ghost use Rattle.store_rows.specs.Fitting.{BidFits};
ghost use Rattle.store_rows.specs.House.{Serves};
ghost use Rattle.store_rows.specs.Sorted.{sorted_bids};
ghost use Rattle.store_rows.specs.Frames.{Finds};
ghost use Rattle.store_bids.specs.Listed.{OwnBidsFit};

use house_rows::KeepFault;
use proxy::Bid;
use sqlite::{Alter, Connection, params};
use std::alloc::Global;
use store_rows::{all_of, rows_shown};

/// A member's bids on an item. They are damaged only where one of them doesn't fit.
pub(crate) fn bids_of_on<S: Alter>(
    alloc: Global,
    conn: &mut Connection<S>,
    member: u32,
    item: u32,
) -> Result<Vec<Bid>, KeepFault>
    requires { Serves (state S.Store conn.old) }
    ensures finds { Finds S.Store conn.old conn.new result
        (λ db bids. bids.items ≡ map (λ (b : BidRow). b.bid)
        (filter (λ b. (b.bid.member == member) && (b.item == item)) (sorted_bids db)))
        (λ db. OwnBidsFit member item (sorted_bids db)) }
    ensures fits { IfOk result (λ bids. AllByRecursion BidFits bids.items) }
{
    let rows = rows_shown(
        conn,
        "SELECT item, no, member, maximum FROM bid WHERE member = ?1 AND item = ?2 ORDER BY item, no",
        params![member, item],
    )?;
    all_of(alloc, &rows)
}
