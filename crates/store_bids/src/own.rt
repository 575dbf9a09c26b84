//! A member's greatest maximum on an item, and the number of its bids there.
ghost use Rattle.std.specs.Prelude.{◌≡◌};
ghost use Rattle.sqlite.specs.Held.{state};
ghost use Rattle.proxy.specs.Bids.{greatest_of, maxima};
ghost use Rattle.house_rows.specs.Found.{best_of};
ghost use Rattle.store_rows.specs.House.{Serves};
ghost use Rattle.store_rows.specs.Tables.{tables_in};
ghost use Rattle.store_rows.specs.Frames.{Finds};
ghost use Rattle.store_bids.specs.Listed.{OwnBidsFit};

use crate::member_bids::bids_of_on;
use cents::Cents;
use house_rows::{KeepFault, OwnBest};
use proxy::Bid;
use sqlite::{Alter, Connection};
use std::alloc::Global;

// The greatest of the maxima, or 0.
fn greatest(bids: &[Bid]) -> Cents
    ensures { result ≡ greatest_of (maxima bids.now) }
{
    let mut greatest = Cents::new(0).unwrap();
    for bid in bids {
        greatest = greatest.max(bid.maximum);
    }
    greatest
}

/// A member's greatest maximum on an item, or 0, and the number of its bids there. They are damaged
/// only where one of these bids doesn't fit.
pub fn own_best<S: Alter>(
    alloc: Global,
    conn: &mut Connection<S>,
    item: u32,
    member: u32,
) -> Result<OwnBest, KeepFault>
    requires { Serves (state S.Store conn.old) }
    ensures { Finds S.Store conn.old conn.new result
        (λ db best. best ≡ best_of (tables_in db) member item)
        (λ db. OwnBidsFit member item (tables_in db).bids) }
{
    let bids = bids_of_on(alloc, conn, member, item)?;
    Ok(OwnBest {
        maximum: greatest(&bids),
        mine: bids.len() as u64,
    })
}
