//! What a member watches.
ghost use Rattle.std.specs.Prelude.{◌≡◌, filter, map, IfOk, IfErr};
ghost use Rattle.std.specs.List.{list_any};
ghost use Rattle.house_rows.specs.Tables.{ItemRow};
ghost use Rattle.house_rows.specs.Watches.{WatchRow, is_watch};
ghost use Rattle.house_rows.specs.declared.fault.KeepFault.TheVariants as fault;

use house_rows::{Item, KeepFault};
use list_items::Items;
use list_rows::{WatchEntry, push};
use list_watches::Watches;
use std::alloc::Global;

/// The items that a member watches.
pub(crate) fn items_watched(
    alloc: Global,
    items: &Items,
    watches: &Watches,
    member: u64,
) -> Result<Vec<Item>, KeepFault>
    ensures value { IfOk result (λ v. v.items ≡ filter
        (λ it. list_any (is_watch member it.terms.item) watches.now)
        (map (λ (row : ItemRow). row.item) items.now)) }
    ensures memory { IfErr result (λ e. e ≡ fault.Memory) }
{
    let numbers = numbers_of(alloc, watches.of(member))?;
    let most = items.rows().len();
    items.first_passing(alloc, &numbers, most, |item| {
        watches.is_watched(member, u64::from(item.terms.item))
    })
}

// The numbers of the items of watches.
fn numbers_of(alloc: Global, watches: &[WatchEntry]) -> Result<Vec<u32>, KeepFault>
    ensures value { IfOk result (λ v. v.items ≡ map (λ (w : WatchRow). w.item) watches.now) }
    ensures memory { IfErr result (λ e. e ≡ fault.Memory) }
{
    let mut numbers = Vec::new(alloc);
    for row in watches {
        push(&mut numbers, row.item)?;
    }
    Ok(numbers)
}
