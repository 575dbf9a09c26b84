//! The table of items, and the calls that read and change it.
ghost use Rattle.std.specs.Prelude.{◌≡◌, ◌<◌, ◌+◌, ◌++◌, ◌∷◌, [], ◌==◌, ◌&&◌, Bool, true, ⊤, ℕ};
ghost use Rattle.std.specs.Prelude.{List, nat_le, filter, find, map, option_and_then, option_map};
ghost use Rattle.std.specs.Prelude.{take, length, Some, None, false, is_some, IfOk, IfErr, OnOk};
ghost use Rattle.std.specs.Prelude.{OnErr, IfSome, ◌⊎◌};
ghost use Rattle.std.specs.List.{AllByRecursion};
ghost use Rattle.std.specs.Option.{option_copied, option_map_or};
ghost use Rattle.house_rows.specs.Changed.{is_item, new_item, with_close, with_purchase, with_settlement, with_standing};
ghost use Rattle.house_rows.specs.Found.{auction_of, due_at, own_reserves, sales_to, sells};
ghost use Rattle.house_rows.specs.History.{counted};
ghost use Rattle.house_rows.specs.Limits.{most_items, most_shown};
ghost use Rattle.house_rows.specs.Tables.{ItemRow, Tables};
ghost use Rattle.house_rows.specs.Text.{same_text};
ghost use Rattle.house_rows.specs.Verdict.{was_sold};
ghost use Rattle.house_rows.specs.declared.item.Item.{Item as TheItem};
ghost use Rattle.house_rows.specs.declared.fault.KeepFault.TheVariants as fault;
ghost use Rattle.list_rows.specs.Makes.{Makes};
ghost use Rattle.house_rows.specs.Keeping.{AreInTurn};
ghost use Rattle.list_items.specs.Closing.{close_at, is_due_with};
ghost use Rattle.list_items.specs.Indexed.{lot_in, number_of};
ghost use Rattle.list_items.specs.Rising.{HasAll, IsRising, is_among};
ghost use Rattle.list_items.specs.Sales.{is_sold_with, sale_of_row};
ghost use Rattle.list_items.specs.Reserves.{reserve_with};

use crate::close::{close_sells, ended_by, is_due, next_due};
use crate::entry::ItemEntry;
use crate::groups::{add, numbers_of, reserve};
use crate::listing::new_entry;
use crate::lots::{Lots, add_lot, number_at};
use crate::numbers::{make_rising, merge, numbers_from};
use crate::sale::sale;
use cents::Cents;
use house_rows::{Auction, Due, Item, KeepFault, MOST_SHOWN, NewItem, OwnReserve, Terms};
use list_rows::{push, push_copy};
use proxy::Standing;
use settle::Sold;
use std::alloc::Global;
use std::collections::{BTreeMap, BTreeSet};
use std::hash::RandomState;
use std::marker::Model;

/// The items by number, with their standings. Clauses see the list of their rows.
#[derive(Drop)]
pub struct Items {
    // The item of number n is at place n - 1.
    rows: Vec<ItemEntry>,
    // By seller, then by lot.
    lots: BTreeMap<u64, Lots>,
    // Of the hashes of lots: sellers choose these, and could make them fall together.
    keys: RandomState,
    // By category, and by seller. An item's number is once in each.
    categories: BTreeMap<u64, Vec<u32>>,
    sellers: BTreeMap<u64, Vec<u32>>,
    // By the buyer of an item that was bought at once, in the order of the purchases.
    purchases: BTreeMap<u64, Vec<u32>>,
    // The end and the number of every open item, and of some that are open no longer.
    ends: BTreeSet<(u64, u32)>,
}

impl Model for Items {
    ghost use Rattle.std.specs.Prelude.{List};
    ghost use Rattle.house_rows.specs.Tables.{ItemRow};

    ghost Value = { List ItemRow };

    ghost use Rattle.list_items.specs.Groups.{has_end, number_at, numbers_at};
    ghost use Rattle.list_items.specs.Indexed.{IsIndexed};

    ghost view = { λ t. t.rows.items };

    ghost invariant = { λ t. IsIndexed t.rows.items (number_at t.lots) (numbers_at t.categories)
        (numbers_at t.sellers) (numbers_at t.purchases) (has_end t.ends) };
}

impl Items {
    /// A table with no items.
    ///
    /// The keys are those of the hashes by which lots are found; no result depends on them.
    pub fn new(alloc: Global, keys: RandomState) -> Items
        ensures { result ≡ [] }
    {
        Items {
            rows: Vec::new(alloc),
            lots: BTreeMap::new(alloc),
            keys,
            categories: BTreeMap::new(alloc),
            sellers: BTreeMap::new(alloc),
            purchases: BTreeMap::new(alloc),
            ends: BTreeSet::new(alloc),
        }
    }

    /// The rows, in the order of their numbers.
    pub fn rows(&self) -> &[ItemEntry]
        ensures { result.now ≡ self.now }
    {
        self.rows.as_slice()
    }

    /// The item of a number.
    pub fn entry(&self, number: u64) -> Option<&ItemEntry>
        ensures { option_copied result ≡ find (is_item number) self.now }
    {
        match number.checked_sub(1) {
            Some(place) => self.rows.get(place as usize),
            None => None,
        }
    }

    /// What everybody sees of the item of a number.
    pub fn item(&self, number: u64) -> Option<&Item>
        ensures { option_copied result ≡ option_map (λ (row : ItemRow). row.item) (find (is_item number) self.now) }
    {
        match self.entry(number) {
            Some(row) => Some(&row.item),
            None => None,
        }
    }

    /// The item of a number without its texts.
    pub fn terms(&self, number: u64) -> Option<Terms>
        ensures { result ≡ option_map (λ (row : ItemRow). row.item.terms) (find (is_item number) self.now) }
    {
        match self.entry(number) {
            Some(row) => Some(row.item.terms),
            None => None,
        }
    }

    /// The standing of the bids on an item.
    pub fn standing(&self, number: u64) -> Option<Standing>
        ensures { result ≡ option_map (λ (row : ItemRow). row.standing) (find (is_item number) self.now) }
    {
        match self.entry(number) {
            Some(row) => Some(row.standing),
            None => None,
        }
    }

    /// The item of a number without its texts, with the standing of its bids.
    pub fn auction(&self, number: u64) -> Option<Auction>
        ensures { result ≡ option_map auction_of (find (is_item number) self.now) }
    {
        match self.entry(number) {
            Some(row) => Some(Auction {
                terms: row.item.terms,
                standing: row.standing,
            }),
            None => None,
        }
    }

    /// The number of a seller's item with a lot.
    pub fn number_with_lot(&self, seller: u64, lot: &str) -> Option<u32>
        ensures { result ≡ option_map (λ (row : ItemRow). row.item.terms.item)
            (find (λ row. (row.item.terms.seller == seller) && same_text row.item.lot lot.now) self.now) }
    {
        number_at(&self.lots, seller, lot)
    }

    /// Whether a member sells an item.
    pub fn is_sold_by(&self, number: u64, member: u64) -> bool
        ensures { result ≡ sells (find (is_item number) self.now) member }
    {
        match self.entry(number) {
            Some(row) => u64::from(row.item.terms.seller) == member,
            None => false,
        }
    }

    /// The numbers of a member's own items.
    pub fn sold_by(&self, member: u64) -> &[u32]
        ensures rising { IsRising result.now }
        ensures complete { HasAll (λ (row : ItemRow). row.item.terms.item)
            (λ row. row.item.terms.seller == member) result.now self.now }
    {
        numbers_of(&self.sellers, member)
    }

    /// How many items a close at the moment would leave sold, and how many unsold.
    ///
    /// The only error is `KeepFault::Memory`.
    pub fn due(&self, alloc: Global, moment: u64) -> Result<Due, KeepFault>
        ensures value { (t : Tables) → t.items ≡ self.now → IfOk result (λ d. d ≡ due_at t moment) }
        ensures memory { IfErr result (λ e. e ≡ fault.Memory) }
    {
        let mut numbers = ended_by(alloc, &self.ends, moment)?;
        make_rising(&mut numbers);
        Ok(Due {
            sold: self.due_count(&numbers, moment, true),
            unsold: self.due_count(&numbers, moment, false),
        })
    }

    /// All items.
    pub fn all(&self, alloc: Global) -> Result<Vec<Item>, KeepFault>
        ensures value { IfOk result (λ v. v.items ≡ map (λ (row : ItemRow). row.item) self.now) }
        ensures memory { IfErr result (λ e. e ≡ fault.Memory) }
    {
        let count = self.rows.len();
        let mut found = Vec::with_capacity(alloc, count)?;
        for row in &self.rows {
            push_copy(&mut found, &row.item)?;
        }
        Ok(found)
    }

    /// Copies of the first items that pass, at most so many, where each that passes has its number
    /// among the numbers.
    pub fn first_passing<F: Fn(&Item) -> bool + Drop>(
        &self,
        alloc: Global,
        numbers: &[u32],
        most: usize,
        passes: F,
    ) -> Result<Vec<Item>, KeepFault>
        requires callable { F.IsAlwaysCallable passes }
        requires rising { IsRising numbers.now }
        ensures value { (test : TheItem → Bool) → ((item : _) (answer : Bool) → F.post passes item answer → answer ≡ test item.now)
            → HasAll (λ (row : ItemRow). row.item.terms.item) (λ (row : ItemRow). test row.item) numbers.now self.now
            → IfOk result (λ v. v.items ≡ take most (filter test (map (λ (row : ItemRow). row.item) self.now))) }
        ensures memory { IfErr result (λ e. e ≡ fault.Memory) }
    {
        // For the proof alone: it then sees that the numbers of the rows run in turn.
        let _ = &self.rows;
        let count = numbers.len().min(most);
        let mut found = Vec::with_capacity(alloc, count)?;
        for number in numbers {
            if found.len() >= most {
                return Ok(found);
            }
            if let Some(item) = self.item(u64::from(*number)) {
                if passes(item) {
                    push_copy(&mut found, item)?;
                }
            }
        }
        Ok(found)
    }

    /// The items of a category, from a number on; at most fifty.
    pub fn in_category(
        &self,
        alloc: Global,
        category: u64,
        from: u64,
    ) -> Result<Vec<Item>, KeepFault>
        ensures value { IfOk result (λ v. v.items
            ≡ take most_shown (filter (λ it. (it.terms.category == category)
            && nat_le from it.terms.item)
            (map (λ (row : ItemRow). row.item) self.now))) }
        ensures memory { IfErr result (λ e. e ≡ fault.Memory) }
    {
        let numbers = numbers_from(numbers_of(&self.categories, category), from);
        self.first_passing(alloc, numbers, MOST_SHOWN, |item| {
            u64::from(item.terms.category) == category && from <= u64::from(item.terms.item)
        })
    }

    /// The reserve of the item of a number, which is sealed.
    pub fn reserve(&self, number: u64) -> Option<Cents>
        ensures { result ≡ option_and_then (λ (row : ItemRow). row.standing.reserve) (find (is_item number) self.now) }
    {
        match self.entry(number) {
            Some(row) => row.standing.reserve(),
            None => None,
        }
    }

    /// A member's reserves on what it sells, from a number on, by item; at most fifty.
    pub fn reserves_of(
        &self,
        alloc: Global,
        member: u64,
        from: u64,
    ) -> Result<Vec<OwnReserve>, KeepFault>
        ensures value { (t : Tables) → t.items ≡ self.now → IfOk result (λ v. v.items ≡ own_reserves t member from) }
        ensures memory { IfErr result (λ e. e ≡ fault.Memory) }
    {
        let numbers = numbers_from(numbers_of(&self.sellers, member), from);
        let mut found = Vec::new(alloc);
        for number in numbers {
            if found.len() >= MOST_SHOWN {
                return Ok(found);
            }
            if let Some(reserve) = self.reserve_with(*number, member, from) {
                push(&mut found, reserve)?;
            }
        }
        Ok(found)
    }

    // The reserve on an item, where the member sells it and its number is not below another.
    fn reserve_with(&self, number: u32, member: u64, from: u64) -> Option<OwnReserve>
        ensures { result ≡ option_and_then (reserve_with member from) (find (is_item number) self.now) }
    {
        self.entry(u64::from(number))?.reserve_with(member, from)
    }

    /// The sales to which a member is a party, by item. What the member leads by its bids has to
    /// be among the numbers that it has bid on.
    pub fn sales_of(
        &self,
        alloc: Global,
        member: u64,
        bid_on: &[u32],
    ) -> Result<Vec<Sold>, KeepFault>
        requires complete { AllByRecursion (λ row. row.standing.leader ≡ Some member
            → is_among bid_on.now (number_of row) ≡ true) self.now }
        // What was sold has a buyer, so that no result has a sale to nobody.
        requires led { AllByRecursion (λ row. was_sold row.item.terms.state ≡ true
            → is_some row.item.terms.leader ≡ true) self.now }
        ensures value { (t : Tables) → t.items ≡ self.now → IfOk result (λ v. v.items ≡ sales_to t member) }
        ensures memory { IfErr result (λ e. e ≡ fault.Memory) }
    {
        let own = numbers_of(&self.sellers, member);
        let bought = numbers_of(&self.purchases, member);
        let numbers = merge(alloc, own, bought, bid_on)?;
        self.sales_among(alloc, &numbers, member)
    }

    /// An item comes, with the next number. Its lot is new to its seller.
    ///
    /// The errors are `KeepFault::Damaged`, where the seller has the lot, and `KeepFault::Memory`.
    pub fn list(&mut self, alloc: Global, item: &NewItem<'_>) -> Result<(), KeepFault>
        requires room { length self.old < most_items }
        ensures listed { OnOk result (self.new ≡ self.old ++ new_item (length self.old + 1) item.now ∷ []) }
        ensures whole { Makes result self.old self.new self.new
            (option_map (λ (row : ItemRow). row.item.terms.item)
            (find (λ row. (row.item.terms.seller == item.now.seller) && same_text row.item.lot item.now.lot.now) self.old) ≡ None) }
    {
        let Ok(()) = self.append(alloc, item) else {
            return match self.number_with_lot(u64::from(item.seller), item.lot.as_str()) {
                Some(_) => Err(KeepFault::Damaged),
                None => Err(KeepFault::Memory),
            };
        };
        Ok(())
    }

    /// The standing of the item of that number is now that of its bids.
    pub fn stand(&mut self, item: u32, standing: Standing)
        ensures { self.new ≡ map (with_standing item standing) self.old }
    {
        let Some(place) = place_of(&self.rows, item) else {
            return;
        };
        let row = &mut self.rows[place];
        row.stand(item, standing);
    }

    /// The item of that number is bought at once.
    ///
    /// The only error is `KeepFault::Memory`.
    pub fn buy(
        &mut self,
        alloc: Global,
        item: u32,
        buyer: u32,
        price: Cents,
        moment: u64,
    ) -> Result<(), KeepFault>
        ensures { Makes result self.old self.new (map (with_purchase item buyer price moment) self.old) ⊤ }
    {
        let Some(place) = place_of(&self.rows, item) else {
            return Ok(());
        };
        let member = u64::from(buyer);
        reserve(alloc, &mut self.purchases, member)?;
        add(&mut self.purchases, member, item);
        let row = &mut self.rows[place];
        row.buy(item, buyer, price, moment);
        Ok(())
    }

    /// The sale of that item is settled.
    pub fn settle(&mut self, item: u32)
        ensures { self.new ≡ map (with_settlement item) self.old }
    {
        let Some(place) = place_of(&self.rows, item) else {
            return;
        };
        let row = &mut self.rows[place];
        row.settle(item);
    }

    /// Every item that is due closes.
    pub fn close(&mut self, moment: u64)
        ensures { self.new ≡ map (with_close moment) self.old }
    {
        while let Some(number) = next_due(&mut self.ends, moment) {
            close_row(&mut self.rows, number, moment);
        }
    }

    // An item comes, unless its seller has its lot.
    fn append(&mut self, alloc: Global, item: &NewItem<'_>) -> Result<(), KeepFault>
        requires room { length self.old < most_items }
        ensures listed { OnOk result (self.new ≡ self.old ++ new_item (length self.old + 1) item.now ∷ []) }
        ensures free { OnOk result (lot_in self.old item.now.seller item.now.lot.now ≡ None) }
        ensures err { OnErr result (self.new ≡ self.old) }
    {
        let seller = u64::from(item.seller);
        let category = u64::from(item.category);
        let number = self.rows.len() as u32 + 1;
        let entry = new_entry(number, item)?;
        // With room everywhere, the lot's index is the last that can refuse.
        let Ok(()) = self.rows.try_reserve(1) else {
            return Err(KeepFault::Memory);
        };
        reserve(alloc, &mut self.categories, category)?;
        reserve(alloc, &mut self.sellers, seller)?;
        let Ok(_) = self.ends.insert((item.end, number)) else {
            return Err(KeepFault::Memory);
        };
        add_lot(alloc, self.keys, &mut self.lots, seller, item.lot, number)?;
        add(&mut self.categories, category, number);
        add(&mut self.sellers, seller, number);
        let Ok(()) = self.rows.push(entry) else {
            return Err(KeepFault::Memory);
        };
        Ok(())
    }

    // How many items of these numbers are due and sold by the close, or not.
    fn due_count(&self, numbers: &[u32], moment: u64, sells: bool) -> u64
        ensures { result ≡ counted (λ k. option_map_or (is_due_with moment sells) (find (is_item k) self.now) false) numbers.now }
    {
        numbers
            .iter()
            .filter(|number| self.is_due_with(**number, moment, sells))
            .count() as u64
    }

    // Whether the item of a number is due and sold by the close, or not.
    fn is_due_with(&self, number: u32, moment: u64, sells: bool) -> bool
        ensures { result ≡ option_map_or (is_due_with moment sells) (find (is_item number) self.now) false }
    {
        match self.entry(u64::from(number)) {
            Some(row) => {
                let terms = row.item.terms;
                is_due(&terms, moment) && close_sells(&terms) == sells
            }
            None => false,
        }
    }

    // The sales to which a member is a party, where each has its item's number among the numbers.
    fn sales_among(
        &self,
        alloc: Global,
        numbers: &[u32],
        member: u64,
    ) -> Result<Vec<Sold>, KeepFault>
        requires rising { IsRising numbers.now }
        requires complete { HasAll (λ (row : ItemRow). row.item.terms.item) (is_sold_with member) numbers.now self.now }
        ensures value { (t : Tables) → t.items ≡ self.now → IfOk result (λ v. v.items ≡ sales_to t member) }
        ensures memory { IfErr result (λ e. e ≡ fault.Memory) }
    {
        // For the proof alone: it then sees that the numbers of the rows run in turn.
        let _ = &self.rows;
        let mut found = Vec::new(alloc);
        for number in numbers {
            if let Some(sale) = self.sale_with(*number, member) {
                push(&mut found, sale)?;
            }
        }
        Ok(found)
    }

    // The sale of an item to which the member is a party.
    fn sale_with(&self, number: u32, member: u64) -> Option<Sold>
        ensures { result ≡ sale_of_row member (find (is_item number) self.now) }
    {
        let row = self.entry(u64::from(number))?;
        let sale = sale(&row.item.terms)?;
        let is_party = u64::from(sale.seller) == member || u64::from(sale.buyer) == member;
        is_party.then_some(sale)
    }
}

// The item of a number closes, if it is due.
fn close_row(rows: &mut Vec<ItemEntry>, number: u32, moment: u64)
    requires { AreInTurn number_of 1 rows.old.items }
    ensures { rows.new.items ≡ map (close_at number moment) rows.old.items }
{
    let Some(place) = place_of(rows, number) else {
        return;
    };
    let row = &mut rows[place];
    row.close_if(number, moment);
}

// Where the item of a number is.
fn place_of(rows: &[ItemEntry], item: u32) -> Option<usize>
    ensures within { IfSome result (λ place. (place < length rows.now) × (place + 1 ≡ item)) }
    ensures none { result ≡ None → (item ≡ 0) ⊎ (length rows.now < item) }
{
    let place = item.checked_sub(1)? as usize;
    if place < rows.len() {
        Some(place)
    } else {
        None
    }
}
