//! The reserves of a house as it is opened.
ghost use Rattle.std.specs.Prelude.{◌≡◌, nat_le};
ghost use Rattle.std.specs.List.{list_all};
ghost use Rattle.sqlite.specs.Held.{state};
ghost use Rattle.store_rows.specs.Frames.{Finds};
ghost use Rattle.store_rows.specs.House.{Serves};
ghost use Rattle.store_house.specs.Opening.{AreReservedTo, HasReservesTo};

use house_rows::KeepFault;
use sqlite::{Alter, Connection};
use std::alloc::Global;
use store_rows::{ReserveRow, Reserves, all_reserves};

// Whether no item of a reserve has a number over this one.
fn are_within(rows: &[ReserveRow], most: u32) -> bool
    ensures { result ≡ list_all (λ r. nat_le r.item most) rows.now }
{
    rows.iter().all(|row| row.item <= most)
}

/// The reserves of a house; `Damaged` where one doesn't fit, or where its item has a number over how
/// many items there are.
// Rows that fit rise in their items, since these are their keys.
pub(crate) fn read_reserves<S: Alter>(
    alloc: Global,
    conn: &mut Connection<S>,
    items: u32,
) -> Result<Reserves, KeepFault>
    requires { Serves (state S.Store conn.old) }
    ensures { Finds S.Store conn.old conn.new result (HasReservesTo items) (AreReservedTo items) }
{
    let rows = all_reserves(alloc, conn)?;
    if !are_within(&rows, items) {
        return Err(KeepFault::Damaged);
    }
    match Reserves::from_rows(rows) {
        Some(reserves) => Ok(reserves),
        None => Err(KeepFault::Damaged),
    }
}
