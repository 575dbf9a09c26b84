//! Items.
ghost use Rattle.std.specs.Prelude.{◌≡◌, ◌++◌, IsTrue, OnOk, drop, map, take};
ghost use Rattle.std.specs.Io.{StartsWith};
ghost use Rattle.house_rows.specs.Editions.{bands_in};
ghost use Rattle.house_rows.specs.Items.{floor_of};
ghost use Rattle.pages_json.specs.Fields.{are_keys, member_of};
ghost use Rattle.pages_json.specs.Words.{AreInOrder, members_text, object_of, text_of};
ghost use Rattle.pages_text.specs.Trees.{item_members, item_tree};

use cents::Cents;
use house_rows::{Editions, Item, ItemShown, State, Terms};
use pages_json::{Field, Shows, end_object, key, put_member};
use proxy::floor_of;
use std::alloc::{AllocError, Global};
use steps::Bands;

/// The floor that is shown, in cents: none unless the item is open.
pub fn floor(bands: &Bands, terms: &Terms) -> Option<u64>
    ensures { result ≡ floor_of bands.now terms.now }
{
    if terms.state != State::Open {
        return None;
    }
    Some(floor_of(bands, terms.start, terms.price, terms.count))
}

// The members of an item in byte order of their keys, in three groups. Each is written here alone:
// the macro `$then` is handed the groups, after what stands there as `$with`.
macro_rules! item_members {
    ($item:ident, $edition:ident, $floor:ident => $then:ident!($($with:tt)*)) => {
        $then!($($with)* {
            "buy_now": Field::Maybe($item.terms.buy_now.map(Cents::value)),
            "category": Field::Number(u64::from($item.terms.category)),
            "closed": Field::Maybe($item.terms.closed),
            "count": Field::Number(u64::from($item.terms.count)),
            "edition": Field::Number(u64::from($edition)),
        } {
            "end": Field::Number($item.terms.end),
            "floor": Field::Maybe($floor),
            "item": Field::Number(u64::from($item.terms.item)),
            "leader": Field::Maybe($item.terms.leader.map(u64::from)),
            "lot": Field::Text($item.lot.as_str()),
            "met": Field::MaybeFlag($item.terms.met),
        } {
            "price": Field::Number($item.terms.price.value()),
            "seller": Field::Number(u64::from($item.terms.seller)),
            "start": Field::Number($item.terms.start.value()),
            "state": Field::Text($item.terms.state.name()),
            "text": Field::Text($item.text.as_str()),
            "title": Field::Text($item.title.as_str()),
        })
    };
}

// Makes an array of the members of all groups.
macro_rules! fields {
    ($({ $($name:literal: $value:expr,)* })*) => {
        [$($((key!($name), $value),)*)*]
    };
}

// Appends the members of a group, one at a time: each key and each kind of value is a constant where
// it is written, and would be looked up in an array of fields.
macro_rules! put_each {
    ($alloc:ident, $out:ident { $($name:literal: $value:expr,)* }) => {
        $(put_member($alloc, $out, key!($name), $value)?;)*
    };
}

// Appends the first, the second or the third group.
macro_rules! put_first {
    ($alloc:ident, $out:ident $first:tt $second:tt $third:tt) => {
        put_each!($alloc, $out $first)
    };
}

macro_rules! put_second {
    ($alloc:ident, $out:ident $first:tt $second:tt $third:tt) => {
        put_each!($alloc, $out $second)
    };
}

macro_rules! put_third {
    ($alloc:ident, $out:ident $first:tt $second:tt $third:tt) => {
        put_each!($alloc, $out $third)
    };
}

// The keys of an item with the edition and the floor that are shown of it, and what they have.
pub(crate) fn item_fields(
    item: &Item,
    edition: u32,
    floor: Option<u64>,
) -> [(&'static str, Field<'_>); 17]
    ensures tree { object_of (map member_of result)
        ≡ item_tree (record { item = item.now; edition = edition; floor = floor }) }
    ensures order { AreInOrder (map member_of result) }
    ensures keys { IsTrue (are_keys result) }
{
    item_members!(item, edition, floor => fields!())
}

// Appends the first group. Each is a function of its own, because the compiler would call for each key
// of a longer one, where it copies in place.
#[inline(always)]
#[tactic(auto, using(crate::proofs::Members::front_then))]
fn put_first(
    alloc: Global,
    out: &mut Vec<u8>,
    item: &Item,
    edition: u32,
    floor: Option<u64>,
) -> Result<(), AllocError>
    ensures text { OnOk result (out.new.items ≡ out.old.items ++ members_text (take 5
        (item_members (record { item = item.now; edition = edition; floor = floor })))) }
    ensures front { StartsWith out.new.items out.old.items }
{
    item_members!(item, edition, floor => put_first!(alloc, out));
    Ok(())
}

// Appends the second group.
#[inline(always)]
#[tactic(auto, using(crate::proofs::Members::front_then))]
fn put_second(
    alloc: Global,
    out: &mut Vec<u8>,
    item: &Item,
    edition: u32,
    floor: Option<u64>,
) -> Result<(), AllocError>
    ensures text { OnOk result (out.new.items ≡ out.old.items ++ members_text (take 6 (drop 5
        (item_members (record { item = item.now; edition = edition; floor = floor }))))) }
    ensures front { StartsWith out.new.items out.old.items }
{
    item_members!(item, edition, floor => put_second!(alloc, out));
    Ok(())
}

// Appends the third group.
#[inline(always)]
#[tactic(auto, using(crate::proofs::Members::front_then))]
fn put_third(
    alloc: Global,
    out: &mut Vec<u8>,
    item: &Item,
    edition: u32,
    floor: Option<u64>,
) -> Result<(), AllocError>
    ensures text { OnOk result (out.new.items ≡ out.old.items ++ members_text (drop 11
        (item_members (record { item = item.now; edition = edition; floor = floor })))) }
    ensures front { StartsWith out.new.items out.old.items }
{
    item_members!(item, edition, floor => put_third!(alloc, out));
    Ok(())
}

// Appends an item.
#[tactic(auto, using(crate::proofs::Members::front_then))]
fn put_item(
    alloc: Global,
    out: &mut Vec<u8>,
    item: &Item,
    edition: u32,
    floor: Option<u64>,
) -> Result<(), AllocError>
    ensures text { OnOk result (out.new.items ≡ out.old.items
        ++ text_of (item_tree (record { item = item.now; edition = edition; floor = floor }))) }
    ensures front { StartsWith out.new.items out.old.items }
{
    let start = out.len();
    put_first(alloc, out, item, edition, floor)?;
    put_second(alloc, out, item, edition, floor)?;
    put_third(alloc, out, item, edition, floor)?;
    end_object(out, start)?;
    Ok(())
}

/// Items with the edition and the floor that are shown of each.
#[derive(Clone, Copy)]
pub struct AsItems;

impl Shows<ItemShown> for AsItems {
    ghost use Rattle.pages_text.specs.Trees.{item_tree};

    ghost tree = { λ _ it. item_tree it };

    fn put(&self, alloc: Global, out: &mut Vec<u8>, shown: &ItemShown) -> Result<(), AllocError> {
        put_item(alloc, out, &shown.item, shown.edition, shown.floor)
    }
}

/// Items, each with its edition and the floor that its band table gives it.
#[derive(Clone, Copy)]
pub struct ByEditions<'e> {
    /// The band tables.
    pub editions: &'e Editions,
}

// The floor that is shown of an item.
pub(crate) fn floor_by(editions: &Editions, terms: &Terms) -> Option<u64>
    ensures { result ≡ floor_of (bands_in editions.now terms.now.item) terms.now }
{
    floor(editions.bands_for(u64::from(terms.item)), terms)
}

impl Shows<Item> for ByEditions<'_> {
    ghost use Rattle.house_rows.specs.Editions.{bands_in, edition_in};
    ghost use Rattle.house_rows.specs.Items.{shown};
    ghost use Rattle.pages_text.specs.Trees.{item_tree};

    ghost tree = { λ by it. item_tree
        (shown (edition_in by.editions.now it.terms.item)
        (bands_in by.editions.now it.terms.item) it) };

    fn put(&self, alloc: Global, out: &mut Vec<u8>, item: &Item) -> Result<(), AllocError> {
        let edition = self.editions.edition_of(u64::from(item.terms.item));
        let floor = floor_by(self.editions, &item.terms);
        put_item(alloc, out, item, edition, floor)
    }
}
