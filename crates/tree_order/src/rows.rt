//! The rows of `sqlite_schema` under other numbers.
ghost use Rattle.std.specs.Prelude.{◌≡◌, IfOk, OnOk};
ghost use Rattle.sqlite_trees.specs.Tree.{rowid, put_row};
ghost use Rattle.sqlite_trees.specs.View.{is_int};
ghost use Rattle.tree_order.specs.Rows.{renumbered_row, is_before, is_table, renumbered_rows};
ghost use Rattle.tree_order.specs.Place.{IsPlace, IsTaken};

use crate::numbers::Numbers;
use sqlite_value::order::compare;
use sqlite_value::row::Row;
use sqlite_value::value::ValueRef;
use std::alloc::{AllocError, Global};

fn has_id(row: &Row) -> bool
    ensures { result ≡ is_int (rowid row.now) }
{
    matches!(row.get(0), ValueRef::Int(_))
}

fn is_before(row: &Row, rows: &[Row]) -> bool
    ensures { result ≡ is_before row.now rows.now }
{
    match rows.first() {
        Some(next) => compare(row.get(0), next.get(0)).is_lt(),
        None => true,
    }
}

fn is_table(rows: &[Row]) -> bool
    ensures { result ≡ is_table rows.now }
{
    for at in 0..rows.len() {
        if !has_id(&rows[at]) || !is_before(&rows[at], &rows[at + 1..]) {
            return false;
        }
    }
    true
}

fn renumbered_row(alloc: Global, numbers: &Numbers, row: &Row) -> Result<Row, AllocError>
    ensures { IfOk result (λ new. new ≡ renumbered_row numbers.now.outer.items row.now) }
{
    let ValueRef::Int(id) = row.get(0) else {
        return row.copy(alloc);
    };
    let mut new = Row::new(alloc);
    new.push(ValueRef::Int(numbers.outer_id(id)))?;
    for at in 1..row.len() {
        new.push(row.get(at))?;
    }
    Ok(new)
}

// Where the row has its place among rows whose rowids rise.
fn place(rows: &[Row], row: &Row) -> usize
    ensures { IsPlace row.now rows.now result }
{
    let mut at = 0;
    while at < rows.len() && compare(rows[at].get(0), row.get(0)).is_lt() {
        at += 1;
    }
    at
}

fn is_taken(rows: &[Row], at: usize, row: &Row) -> bool
    ensures { IsTaken row.now rows.now at result }
{
    at < rows.len() && compare(rows[at].get(0), row.get(0)).is_eq()
}

fn put_row(rows: &mut Vec<Row>, row: Row) -> Result<(), AllocError>
    ensures { OnOk result (rows.new.items ≡ put_row row rows.old.items) }
{
    let at = place(rows, &row);
    if is_taken(rows, at, &row) {
        rows[at] = row;
        return Ok(());
    }
    rows.insert(at, row)?;
    Ok(())
}

/// The list under the outer numbers, in their order.
pub(crate) fn renumbered_rows(
    alloc: Global,
    numbers: &Numbers,
    rows: Vec<Row>,
) -> Result<Vec<Row>, AllocError>
    ensures { IfOk result (λ all.
        all.items ≡ renumbered_rows numbers.now.outer.items rows.items) }
{
    if !is_table(&rows) {
        return Ok(rows);
    }
    let mut all = Vec::new(alloc);
    let mut left = rows.len();
    while left > 0 {
        left -= 1;
        put_row(&mut all, renumbered_row(alloc, numbers, &rows[left])?)?;
    }
    Ok(all)
}
