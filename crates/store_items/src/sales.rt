//! The sales of a member.
ghost use Rattle.std.specs.Prelude.{◌≡◌, ◌==◌, ◌≤◌, ◌++◌, false, flat_map, IfOk, OnOk, IsErrOf};
ghost use Rattle.std.specs.List.Sorted.{IsNonDecreasingBy, IsPermutation};
ghost use Rattle.sqlite.specs.Held.{state};
ghost use Rattle.house_rows.specs.Found.{sales_to};
ghost use Rattle.house_rows.specs.Taken.{may_be_party};
ghost use Rattle.house_rows.specs.Pages.{sale_of};
ghost use Rattle.house_rows.specs.declared.fault.KeepFault.TheVariants.{Damaged};
ghost use Rattle.house_rows.specs.declared.item.Terms.{Terms as TermsRow};
ghost use Rattle.store_rows.specs.House.{ServesBy};
ghost use Rattle.store_rows.specs.Joined.{found_of};
ghost use Rattle.store_items.specs.Rising.{rise_from};
ghost use Rattle.store_rows.specs.Frames.{Finds};
ghost use Rattle.store_items.specs.LookUps.{AreSales, AreSalesTo, ItemsFitBy};

use crate::item_reads::all_items;
use crate::terms::{terms_led_by, terms_of_seller};
use house_rows::{KeepFault, State, Terms};
use list_rows::push;
use settle::Sold;
use sqlite::{Alter, Connection};
use std::alloc::Global;
use store_rows::Rules;

// The sale of an item of these terms, if it was sold.
fn sale(terms: &Terms) -> Option<Sold>
    ensures { found_of result ≡ sale_of terms.now }
{
    match terms.state {
        State::Sold | State::Settled => Some(Sold {
            item: terms.item,
            seller: terms.seller,
            buyer: terms.leader.unwrap_or(0),
            closed: terms.closed.unwrap_or(0),
            price: terms.price,
        }),
        State::Open | State::Unsold => None,
    }
}

// Adds the sale of an item, if it was sold.
fn add_sale(sales: &mut Vec<Sold>, terms: &Terms) -> Result<(), KeepFault>
    ensures ok { OnOk result (sales.new.items ≡ sales.old.items ++ sale_of terms.now) }
    ensures memory { ¬ (IsErrOf result Damaged) }
{
    match sale(terms) {
        Some(sold) => push(sales, sold),
        None => Ok(()),
    }
}

// The sales of some items, in their order.
fn sales_of(alloc: Global, items: &[Terms]) -> Result<Vec<Sold>, KeepFault>
    ensures value { IfOk result (λ sales. sales.items ≡ flat_map sale_of items.now) }
    ensures memory { ¬ (IsErrOf result Damaged) }
{
    let mut sales = Vec::new(alloc);
    for terms in items {
        add_sale(&mut sales, terms)?;
    }
    Ok(sales)
}

// Whether the numbers of some items rise.
fn rise(items: &[Terms]) -> bool
    ensures { result ≡ rise_from 0 items.now }
{
    let mut least: u64 = 0;
    for terms in items {
        let item = u64::from(terms.item);
        if item < least {
            return false;
        }
        least = item + 1;
    }
    true
}

// The items of both, by number.
fn by_number(mut sold: Vec<Terms>, mut led: Vec<Terms>) -> Result<Vec<Terms>, KeepFault>
    ensures both { IfOk result (λ all. IsPermutation (sold.items ++ led.items) all.items) }
    ensures ordered { IfOk result (λ all. IsNonDecreasingBy (λ (t : TermsRow). t.item) all.items) }
    ensures memory { ¬ (IsErrOf result Damaged) }
{
    match sold.append(&mut led) {
        Ok(()) => {}
        Err(_) => return Err(KeepFault::Memory),
    }
    sold.sort_unstable_by_key(|terms| terms.item);
    Ok(sold)
}

// The sales of a member with a number.
fn sales_of_member<S: Alter>(
    alloc: Global,
    conn: &mut Connection<S>,
    rules: &Rules,
    member: u32,
) -> Result<Vec<Sold>, KeepFault>
    requires serves { ServesBy rules.now.reserves (state S.Store conn.old) }
    requires numbered { 1 ≤ member }
    ensures finds { Finds S.Store conn.old conn.new result
        (λ db sales. AreSalesTo rules.now.editions member db sales.items)
        (ItemsFitBy rules.now.editions (may_be_party member)) }
    ensures fits { IfOk result (λ sales. AreSales sales.items) }
{
    let sold = terms_of_seller(alloc, conn, rules, member)?;
    let led = terms_led_by(alloc, conn, rules, member)?;
    let items = by_number(sold, led)?;
    // Items with one number have no place of their own: no statement shows such.
    if !rise(&items) {
        return Err(KeepFault::Damaged);
    }
    sales_of(alloc, &items)
}

// An item that was sold to nobody would be a sale of the member 0, and does not fit.
fn sales_of_nobody<S: Alter>(
    alloc: Global,
    conn: &mut Connection<S>,
    rules: &Rules,
) -> Result<Vec<Sold>, KeepFault>
    requires { ServesBy rules.now.reserves (state S.Store conn.old) }
    ensures finds { Finds S.Store conn.old conn.new result
        (λ db sales. AreSalesTo rules.now.editions 0 db sales.items)
        (ItemsFitBy rules.now.editions (may_be_party 0)) }
    ensures fits { IfOk result (λ sales. AreSales sales.items) }
{
    all_items(alloc, conn, rules)?;
    Ok(Vec::new(alloc))
}

/// The sales to which a member is a party, by item. For the number 0, which no member has, every
/// item is read.
pub fn sales_to<S: Alter>(
    alloc: Global,
    conn: &mut Connection<S>,
    rules: &Rules,
    member: u32,
) -> Result<Vec<Sold>, KeepFault>
    requires { ServesBy rules.now.reserves (state S.Store conn.old) }
    ensures finds { Finds S.Store conn.old conn.new result
        (λ db sales. AreSalesTo rules.now.editions member db sales.items)
        (ItemsFitBy rules.now.editions (may_be_party member)) }
    ensures fits { IfOk result (λ sales. AreSales sales.items) }
{
    if member == 0 {
        sales_of_nobody(alloc, conn, rules)
    } else {
        sales_of_member(alloc, conn, rules, member)
    }
}
