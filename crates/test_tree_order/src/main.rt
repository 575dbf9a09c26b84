//! Writes to three trees under other numbers, and prints what is where.
//!
//! The stored run is a test of what no clause says: that calls succeed, and that the clauses mean
//! what somebody who moves trees means. The store below has the tables a, b and c in this order,
//! and the store above shows them as b, c and a. `stdout` has what has to come, worked out by hand.
#![tactic(auto)]

use sqlite_trees::memory::MemStore;
use sqlite_trees::schema::Object;
use sqlite_trees::store::{Alter, Direction, Shape, Store};
use sqlite_value::row::Row;
use sqlite_value::value::ValueRef;
use std::alloc::Global;
use std::process::ExitCode;
use tree_order::{Numbers, Renumbered};

#[derive(Debug, Drop)]
enum Fault {
    Memory,
    Store,
    Output,
    Numbers,
}

fn table(name: &str) -> Object<'_> {
    Object {
        shape: Shape::Table,
        kind: "table",
        name,
        table: name,
        reals: 0,
        sql: Some("CREATE TABLE t (x)"),
    }
}

fn row(alloc: Global, id: i64) -> Result<Row, Fault> {
    let mut row = Row::new(alloc);
    row.push(ValueRef::Int(id)).map_err(|_| Fault::Memory)?;
    row.push(ValueRef::Null).map_err(|_| Fault::Memory)?;
    Ok(row)
}

fn put<S: Store>(alloc: Global, store: &mut S, tree: u32, id: i64) -> Result<(), Fault> {
    let row = row(alloc, id)?;
    if store.shape(tree) != Shape::Table || !matches!(row.get(0), ValueRef::Int(_)) {
        return Err(Fault::Store);
    }
    store.put(tree, &row).map_err(|_| Fault::Store)
}

fn print_rows<S: Store>(
    rt: &impl Print,
    alloc: Global,
    store: &mut S,
    tree: u32,
) -> Result<(), Fault> {
    let mut row = Row::new(alloc);
    store
        .seek(0, tree, &row, Direction::Forward)
        .map_err(|_| Fault::Store)?;
    print!(rt; "{tree}:").map_err(|_| Fault::Output)?;
    for _ in 0..10 {
        if !store.next(0, &mut row).map_err(|_| Fault::Store)? {
            break;
        }
        if let ValueRef::Int(id) = row.get(0) {
            print!(rt; " {id}").map_err(|_| Fault::Output)?;
        }
    }
    println!(rt;).map_err(|_| Fault::Output)
}

fn print_store<S: Alter>(
    rt: &impl Print,
    alloc: Global,
    store: &mut S,
    which: &str,
) -> Result<(), Fault> {
    println!(rt; "{which}").map_err(|_| Fault::Output)?;
    for object in store.objects(alloc).map_err(|_| Fault::Memory)?.iter() {
        if let (ValueRef::Int(id), ValueRef::Text(name)) = (object.get(0), object.get(2)) {
            let name = str::from_utf8(name).map_err(|_| Fault::Store)?;
            println!(rt; "object {id}: {name}").map_err(|_| Fault::Output)?;
        }
    }
    println!(rt; "trees below {}", store.tree_count()).map_err(|_| Fault::Output)?;
    for tree in 0..3 {
        print_rows(rt, alloc, store, tree)?;
    }
    Ok(())
}

fn numbers(alloc: Global, inner: &[u32]) -> Result<Option<Numbers>, Fault> {
    let inner = Vec::from_slice(alloc, inner).map_err(|_| Fault::Memory)?;
    Numbers::new(alloc, inner).map_err(|_| Fault::Memory)
}

fn print_numbers(rt: &impl Print, alloc: Global, inner: &[u32]) -> Result<(), Fault> {
    let told = match numbers(alloc, inner)? {
        Some(_) => "numbers",
        None => "no numbers",
    };
    println!(rt; "{inner:?}: {told}").map_err(|_| Fault::Output)
}

fn renumbered_store(alloc: Global) -> Result<Renumbered<MemStore>, Fault> {
    let tables = [table("a"), table("b"), table("c")];
    let store = MemStore::new(alloc, &tables).map_err(|_| Fault::Memory)?;
    match numbers(alloc, &[1, 2, 0])? {
        Some(numbers) => Ok(Renumbered::new(store, numbers)),
        None => Err(Fault::Numbers),
    }
}

fn start(rt: &impl Print, alloc: Global) -> Result<(), Fault> {
    print_numbers(rt, alloc, &[])?;
    print_numbers(rt, alloc, &[1, 2, 0])?;
    print_numbers(rt, alloc, &[1, 1, 0])?;
    print_numbers(rt, alloc, &[1, 3, 0])?;
    let mut store = renumbered_store(alloc)?;
    put(alloc, &mut store, 0, 20)?;
    put(alloc, &mut store, 1, 30)?;
    put(alloc, &mut store, 2, 10)?;
    store.commit().map_err(|_| Fault::Store)?;
    store.savepoint().map_err(|_| Fault::Store)?;
    put(alloc, &mut store, 0, 21)?;
    print_store(rt, alloc, &mut store, "above")?;
    store.rollback_to().map_err(|_| Fault::Store)?;
    print_store(rt, alloc, &mut store, "above, undone")?;
    let mut below = store.into_inner();
    print_store(rt, alloc, &mut below, "below")
}

fn main(rt: HostRuntime) -> ExitCode {
    match start(&rt, rt.alloc()) {
        Ok(()) => ExitCode::SUCCESS,
        Err(fault) => {
            let _ = eprintln!(rt; "test_tree_order: {fault:?}");
            ExitCode::FAILURE
        }
    }
}
