//! The statement of a member for a period.
ghost use Rattle.std.specs.Prelude.{◌≡◌, ◌≢◌, ◌+◌, ◌<◌, ◌≤◌, ◌↔◌, ◌⊎◌, All, AllPairs, IfOk, IfErr, OnOk, IsErrOf, length};
ghost use Rattle.settle.specs.Balance.{IsBalanced};
ghost use Rattle.settle.specs.Lines.{IsNumbered, IsSplit, MOST};
ghost use Rattle.settle.specs.Statement.{IsSale, in_order, lines_of, rows_of, statement_of, totals_of};

use crate::day::Day;
use crate::fault::SettleFault;
use crate::line::Line;
use crate::sale::Sold;
use crate::totals::Totals;
use crate::zone::Zone;
use std::alloc::{AllocError, Global};
use std::marker::Model;

/// What a member sold and bought in a period. Clauses see whose it is and its lines.
#[derive(Drop)]
pub struct Statement {
    member: u32,
    rows: Vec<Line>,
    totals: Totals,
}

impl Model for Statement {
    ghost use Rattle.settle.specs.Statement.{Account};

    ghost Value = { Account };

    ghost use Rattle.settle.specs.Lines.{IsSummed};

    ghost view = { λ s. record { member = s.member; rows = s.rows.items } };

    ghost invariant = { λ s. IsSummed s.rows.items s.totals };
}

impl Statement {
    /// The number of the member.
    pub fn member(&self) -> u32
        ensures { result ≡ self.now.member }
    {
        self.member
    }

    /// The lines, in order of day and item.
    pub fn rows(&self) -> &[Line]
        ensures rows { result.now ≡ self.now.rows }
        ensures split { All IsSplit result.now }
    {
        &self.rows
    }

    /// The totals of the lines.
    pub fn totals(&self) -> Totals
        ensures of_rows { result ≡ totals_of self.now.rows }
        ensures balanced { result.sold ≡ result.fees + result.net }
    {
        self.totals
    }
}

/// The statement of a member for the days from `from` to `to`, both in it: of the sales, which are
/// of different items, those in which the member is a party and whose civil day in the zone lies in
/// the period. The rate is in ten-thousandths of the price.
pub fn lines(
    alloc: Global,
    sales: &[Sold],
    member: u32,
    from: Day,
    to: Day,
    zone: &Zone,
    rate: u64,
) -> Result<Statement, SettleFault>
    requires few { length sales.now ≤ MOST }
    requires items { AllPairs (λ a b. a.item ≢ b.item) sales.now }
    requires sales { All IsSale sales.now }
    requires rate { rate ≤ 2000 }
    ensures order { IsErrOf result SettleFault.Order ↔ (to < from) }
    ensures ok { IfOk result (λ s. s ≡ statement_of sales.now member from to zone.now rate) }
    ensures err { IfErr result (λ e. (e ≡ SettleFault.Order) ⊎ (e ≡ SettleFault.Memory)) }

    // Of every statement, and of the statements of all members that the sales name.
    ensures net { IfOk result (λ s. (totals_of s.rows).sold
        ≡ (totals_of s.rows).fees + (totals_of s.rows).net) }
    ensures balance { IsBalanced sales.now from to zone.now rate }
{
    if to < from {
        return Err(SettleFault::Order);
    }
    match sorted_lines(alloc, sales, member, from, to, zone, rate) {
        Ok(rows) => Ok(Statement {
            member,
            totals: Totals::of(&rows),
            rows,
        }),
        Err(_) => Err(SettleFault::Memory),
    }
}

// What the member reads of its sales of the period, in order.
fn sorted_lines(
    alloc: Global,
    sales: &[Sold],
    member: u32,
    from: Day,
    to: Day,
    zone: &Zone,
    rate: u64,
) -> Result<Vec<Line>, AllocError>
    requires few { length sales.now ≤ MOST }
    requires items { AllPairs (λ a b. a.item ≢ b.item) sales.now }
    requires sales { All IsSale sales.now }
    requires rate { rate ≤ 2000 }
    ensures rows { IfOk result (λ v. v.items ≡ rows_of sales.now member from to zone.now rate) }
    ensures few { IfOk result (λ v. length v.items ≤ MOST) }
    ensures split { IfOk result (λ v. All IsSplit v.items) }
{
    let mut rows = unsorted_lines(alloc, sales, member, from, to, zone, rate)?;
    sort(&mut rows)?;
    Ok(rows)
}

// The same in the order of the sales.
fn unsorted_lines(
    alloc: Global,
    sales: &[Sold],
    member: u32,
    from: Day,
    to: Day,
    zone: &Zone,
    rate: u64,
) -> Result<Vec<Line>, AllocError>
    requires sales { All IsSale sales.now }
    requires rate { rate ≤ 2000 }
    ensures lines { IfOk result (λ v. v.items ≡ lines_of sales.now member from to zone.now rate) }
    ensures split { IfOk result (λ v. All IsSplit v.items) }
{
    let mut rows = Vec::new(alloc);
    for sale in sales {
        if let Some(line) = Line::of(sale, member, from, to, zone, rate) {
            rows.push(line)?;
        }
    }
    Ok(rows)
}

// Puts lines of different items in order.
fn sort(rows: &mut Vec<Line>) -> Result<(), AllocError>
    requires items { AllPairs (λ a b. a.item ≢ b.item) rows.old.items }
    requires numbers { All IsNumbered rows.old.items }
    ensures { OnOk result (rows.new.items ≡ in_order rows.old.items) }
{
    rows.sort_by_key(|line| (line.day, line.item))
}
