//! Sales, checked as the house keeps them, and their fees.
ghost use Rattle.std.specs.Prelude.{◌≡◌, ◌≢◌, ◌≤◌, ◌<◌, ℕ, All, AllPairs, IsTrue, length};
ghost use Rattle.settle.specs.Lines.{MOST};
ghost use Rattle.settle.specs.Statement.{IsSale};

use crate::script::ValuesFault;
use crate::words::{amount, first_word, number};
use settle::{LAST_MOMENT, SettleFault, Sold};
use std::alloc::{AllocError, Global};
use std::fmt::Write;

/// The sale that a line spells.
pub(crate) fn sale(line: &str) -> Result<Sold, ValuesFault> {
    let (item, line) = first_word(line);
    let (seller, line) = first_word(line);
    let (buyer, line) = first_word(line);
    let (closed, price) = first_word(line);
    Ok(Sold {
        item: number(item)?,
        seller: number(seller)?,
        buyer: number(buyer)?,
        closed: number(closed)?,
        price: amount(price)?,
    })
}

/// The fee of a price at a rate.
pub(crate) fn fee(alloc: Global, line: &str) -> Result<String, ValuesFault> {
    let (price, rate) = first_word(line);
    let price = amount(price)?;
    let rate = number(rate)?;
    if rate > 2000 {
        return Err(ValuesFault::Script);
    }
    Ok(format!(in alloc; "{}", settle::fee(price, rate))?)
}

const FAULTS: [SettleFault; 5] = [
    SettleFault::Date,
    SettleFault::Order,
    SettleFault::Zone,
    SettleFault::Memory,
    SettleFault::Write,
];

/// Every fault: its number, and how it is shown.
pub(crate) fn faults(alloc: Global) -> Result<String, AllocError> {
    let mut lines = String::new(alloc);
    for fault in FAULTS {
        write!(lines, "{fault:?}: {} {fault}\n", fault.number())?;
    }
    Ok(lines)
}

/// Whether the sales are as the house makes them, and in order of item.
pub(crate) fn are_sales(sales: &[Sold]) -> bool
    ensures few { IsTrue result → length sales.now ≤ MOST }
    ensures items { IsTrue result → AllPairs (λ a b. a.item ≢ b.item) sales.now }
    ensures sales { IsTrue result → All IsSale sales.now }
{
    sales.len() <= 1_000_000 && are_rising(sales) && sales.iter().all(is_sale)
}

fn is_sale(sale: &Sold) -> bool
    ensures { IsTrue result → IsSale sale.now }
{
    1 <= sale.item
        && sale.item <= 1_000_000
        && 1 <= sale.seller
        && sale.seller <= 100_000
        && 1 <= sale.buyer
        && sale.buyer <= 100_000
        && sale.seller != sale.buyer
        && sale.closed <= LAST_MOMENT
}

fn are_rising(sales: &[Sold]) -> bool
    ensures { IsTrue result → AllPairs (λ a b. a.item ≢ b.item) sales.now }
{
    let mut last = 0;
    for sale in sales {
        if sale.item <= last {
            return false;
        }
        last = sale.item;
    }
    true
}
