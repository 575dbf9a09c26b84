//! New items.
ghost use Rattle.std.specs.Prelude.{◌≡◌, IfOk, IfErr};
ghost use Rattle.house_rows.specs.Changed.{new_item};
ghost use Rattle.house_rows.specs.declared.fault.KeepFault.TheVariants as fault;

use crate::entry::ItemEntry;
use house_rows::{Item, KeepFault, NewItem, State, Terms};
use list_rows::share_text;
use proxy::Standing;

/// The entry of a new item.
pub(crate) fn new_entry(number: u32, item: &NewItem<'_>) -> Result<ItemEntry, KeepFault>
    ensures value { IfOk result (λ entry. entry ≡ new_item number item.now) }
    ensures memory { IfErr result (λ e. e ≡ fault.Memory) }
{
    let start = item.start;
    let standing = Standing::open(start, item.reserve);
    let terms = Terms {
        item: number,
        seller: item.seller,
        category: item.category,
        start,
        buy_now: item.buy_now,
        end: item.end,
        state: State::Open,
        closed: None,
        price: start,
        leader: None,
        count: 0,
        met: standing.is_reserve_met(),
    };
    let lot = share_text(item.lot)?;
    let title = share_text(item.title)?;
    let text = share_text(item.text)?;
    Ok(ItemEntry {
        item: Item {
            terms,
            lot,
            title,
            text,
        },
        standing,
    })
}
