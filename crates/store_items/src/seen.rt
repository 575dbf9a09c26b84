//! The item that was seen last, whose row is not looked up again.
ghost use Rattle.std.specs.Prelude.{◌≡◌, ◌≢◌, None, Some, IfSome};
ghost use Rattle.sqlite.specs.Held.{state};
ghost use Rattle.store_rows.specs.House.{ServesBy};
ghost use Rattle.store_rows.specs.Frames.{Finds};
ghost use Rattle.store_items.specs.LookUps.{ItemFitsThere};
ghost use Rattle.store_items.specs.Seen.{IsSeen, IsThere};

use crate::item_reads::auction_there;
use house_rows::{Auction, KeepFault};
use sqlite::{Alter, Connection};
use store_rows::Rules;

/// What was seen last, where it is the item with a number.
pub fn seen_at(seen: &Option<Auction>, number: u32) -> Option<Auction>
    ensures found { IfSome result (λ a. (seen.now ≡ Some a) × (a.terms.item ≡ number)) }
    ensures missed { result ≡ None → IfSome seen.now (λ a. a.terms.item ≢ number) }
{
    match seen {
        Some(auction) if auction.terms.item == number => Some(*auction),
        _ => None,
    }
}

/// An item without its texts, with the standing of its bids: as it was seen last, or as it is looked
/// up. Damaged where there is none, or where its row isn't consistent with its band table.
pub fn auction_seen<S: Alter>(
    conn: &mut Connection<S>,
    rules: &Rules,
    seen: &Option<Auction>,
    item: u32,
) -> Result<Auction, KeepFault>
    requires serves { ServesBy rules.now.reserves (state S.Store conn.old) }
    requires seen { IsSeen rules.now.editions seen.now (state S.Store conn.old) }
    ensures { Finds S.Store conn.old conn.new result
        (λ db a. IsThere rules.now.editions item a db) (ItemFitsThere rules.now.editions item) }
{
    match seen_at(seen, item) {
        Some(auction) => Ok(auction),
        None => auction_there(conn, rules, item),
    }
}
