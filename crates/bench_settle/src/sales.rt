//! The sales of a year, of which one member has a tenth.
ghost use Rattle.std.specs.Prelude.{◌≡◌, ◌≢◌, ◌≤◌, All, AllPairs, IfOk, length};
ghost use Rattle.cents.specs.declared.amount.TheConstants.{LIMIT};
ghost use Rattle.settle.specs.Lines.{MOST};
ghost use Rattle.settle.specs.Statement.{IsSale};

use cents::Cents;
use settle::Sold;
use std::alloc::{AllocError, Global};

/// The member that sold each twentieth item, and bought the item halfway between two of these.
pub const MEMBER: u32 = 1;

// 2025-01-01T00:00:00Z, in whole seconds since 1970-01-01T00:00:00Z.
const START: u64 = 1_735_689_600;

// The seconds of 364 days, after which a sale still falls into 2025 an hour or two east of UTC.
const SPAN: u64 = 31_449_600;

/// The sales of the items from 1 to `count`, in order of item.
pub fn first_sales(alloc: Global, count: u32) -> Result<Vec<Sold>, AllocError>
    requires { count ≤ MOST }
    ensures count { IfOk result (λ v. length v.items ≡ count) }
    ensures items { IfOk result (λ v. AllPairs (λ a b. a.item ≢ b.item) v.items) }
    ensures sales { IfOk result (λ v. All IsSale v.items) }
{
    let mut sales = Vec::new(alloc);
    for before in 0..count {
        sales.push(sale(before + 1))?;
    }
    Ok(sales)
}

// The sale of an item. The days and the prices of items that follow each other lie far apart.
fn sale(item: u32) -> Sold
    requires first { 1 ≤ item }
    requires last { item ≤ MOST }
    ensures item { result.item ≡ item }
    ensures sale { IsSale result }
{
    let other = 2 + item % 50_000;
    let (seller, buyer) = match item % 20 {
        0 => (MEMBER, other),
        10 => (other, MEMBER),
        _ => (other, other + 1),
    };
    Sold {
        item,
        seller,
        buyer,
        closed: START + u64::from(item) * 7_654_321 % SPAN,
        price: price(1 + u64::from(item) * 12_347 % 99_991),
    }
}

// An amount of so many cents.
fn price(value: u64) -> Cents
    requires { value ≤ LIMIT }
    ensures { result ≡ value }
{
    match Cents::new(value) {
        Some(price) => price,
        None => unreachable!(),
    }
}
