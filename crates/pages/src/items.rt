//! Pages of items, each with the floor that is shown of it.
ghost use Rattle.std.specs.Prelude.{◌≡◌, IfOk, map};
ghost use Rattle.house_rows.specs.declared.query.Query.TheVariants as query;
ghost use Rattle.pages_laws.specs.ByTables.{shown_among, shown_by};
ghost use Rattle.pages.specs.Promises.{MakesPage};

use house_rows::{Editions, Item, ItemShown, Keep, KeepFault, Page, Refusal, Rows};
use pages_text::floor;
use std::alloc::{AllocError, Global};

// An item as pages show it.
fn with_floor(editions: &Editions, item: Item) -> ItemShown
    ensures { result ≡ shown_among editions.now item }
{
    let number = u64::from(item.terms.item);
    let edition = editions.edition_of(number);
    let floor = floor(editions.bands_for(number), &item.terms);
    ItemShown {
        item,
        edition,
        floor,
    }
}

// Items likewise.
fn with_floors(
    alloc: Global,
    editions: &Editions,
    items: Vec<Item>,
) -> Result<Rows<ItemShown>, AllocError>
    ensures { IfOk result (λ rows. rows ≡ map (shown_among editions.now) items.items) }
{
    let rows: Vec<ItemShown> = items
        .into_iter()
        .map(|item| with_floor(editions, item))
        .collect(alloc)?;
    Ok(Rows::new(rows))
}

// The items of a category.
#[tactic(auto, unfolding(pages_laws::specs::ByTables::shown_by))]
pub(crate) fn items_in<K: Keep>(
    alloc: Global,
    keep: &mut K,
    category: u64,
    from: u64,
) -> Result<Page, KeepFault>
    ensures { MakesPage K.Keep keep.old keep.new result shown_by 0 (query.ItemsIn category from) }
{
    if !keep.has_category(category)? {
        return Ok(Page::Refused(Refusal::Unknown));
    }
    let items = keep.items_in(category, from)?;
    let items = with_floors(alloc, keep.editions()?, items)?;
    Ok(Page::Items(items))
}

// One item.
#[tactic(auto, unfolding(pages_laws::specs::ByTables::shown_by))]
pub(crate) fn item<K: Keep>(keep: &mut K, item: u64) -> Result<Page, KeepFault>
    ensures { MakesPage K.Keep keep.old keep.new result shown_by 0 (query.Item item) }
{
    let Some(found) = keep.item(item)? else {
        return Ok(Page::Refused(Refusal::Unknown));
    };
    Ok(Page::OneItem(with_floor(keep.editions()?, found)))
}

// The items that the caller watches.
#[tactic(auto, unfolding(pages_laws::specs::ByTables::shown_by))]
pub(crate) fn watches<K: Keep>(alloc: Global, keep: &mut K, caller: u64) -> Result<Page, KeepFault>
    ensures { MakesPage K.Keep keep.old keep.new result shown_by caller query.MyWatches }
{
    let items = keep.watches_of(caller)?;
    let items = with_floors(alloc, keep.editions()?, items)?;
    Ok(Page::Items(items))
}
