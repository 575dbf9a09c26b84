//! The trees that have names in the list of objects.
ghost use Rattle.std.specs.Prelude.{◌≡◌, ◌≤◌, IfOk, length, map};
ghost use Rattle.sqlite_value.specs.Value.{owned};
ghost use Rattle.store_house.specs.Places.{tree_or, tree_named, trees_named};

use sqlite_value::order::compare;
use sqlite_value::row::Row;
use sqlite_value::value::ValueRef;
use std::alloc::{AllocError, Global};

// The tree of a rowid, which is one less, or another one where it is that of none.
fn tree_or(other: u32, id: ValueRef<'_>) -> u32
    ensures { result ≡ tree_or other (owned id.entry) }
{
    match id {
        ValueRef::Int(id) if id >= 1 && id <= 65_536 => (id - 1) as u32,
        _ => other,
    }
}

// The tree of the first object that has the name, or another one where none has it.
fn tree_named(rows: &[Row], name: &str, other: u32) -> u32
    ensures { result ≡ tree_named name.now other rows.now }
{
    for at in 0..rows.len() {
        if compare(rows[at].get(2), ValueRef::Text(name.as_bytes())).is_eq() {
            return tree_or(other, rows[at].get(0));
        }
    }
    other
}

// For each name the tree that has it in the list of objects, or its own place among the names where
// none has it.
pub(crate) fn trees_named(
    alloc: Global,
    rows: &[Row],
    names: &[&str],
) -> Result<Vec<u32>, AllocError>
    requires { length names.now ≤ 65536 }
    ensures { IfOk result (λ trees.
        trees.items ≡ trees_named (map (λ name. name.now) names.now) 0 rows.now) }
{
    let mut trees = Vec::new(alloc);
    for at in 0..names.len() {
        trees.push(tree_named(rows, names[at], at as u32))?;
    }
    Ok(trees)
}
