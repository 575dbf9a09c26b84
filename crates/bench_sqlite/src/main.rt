//! What the kit's SQLite takes where nothing else is done: `bench_sqlite FILE N` connects to a house in a
//! file, makes the four statements of each of N bids on its item 1, as the house makes them, and prints how
//! many bids the item then has. With 0 it connects and counts. `bench_sqlite :memory: N` makes the tables
//! first. A failure is printed on standard error as `bench_sqlite: ` and a sentence.
#![tactic(auto)]

use sqlite::{Alter, Connection, Error, ErrorCode, Transaction, params};
use std::alloc::Global;
use std::process::ExitCode;
use std::rt::Env;

const TABLES: &str = "CREATE TABLE house (id INTEGER PRIMARY KEY, clock INTEGER NOT NULL) STRICT;
CREATE TABLE item (id INTEGER PRIMARY KEY, seller INTEGER NOT NULL, category INTEGER NOT NULL, start INTEGER NOT NULL, buy_now INTEGER, ending INTEGER NOT NULL, state INTEGER NOT NULL, closed INTEGER, price INTEGER NOT NULL, leader INTEGER, top INTEGER, second INTEGER, count INTEGER NOT NULL) STRICT;
CREATE TABLE bid (item INTEGER NOT NULL, no INTEGER NOT NULL, member INTEGER NOT NULL, maximum INTEGER NOT NULL, PRIMARY KEY (item, no)) STRICT;
INSERT INTO house (id, clock) VALUES (1, 1000);
INSERT INTO item (id, seller, category, start, ending, state, price, count) VALUES (1, 1, 1, 500, 2000, 0, 500, 0);";

// What a house reads of an item before it decides on a bid, and remembers as it writes one.
fn read_item<S: Alter>(conn: &mut Connection<S>) -> Result<(), Error> {
    conn.query_all(
        "SELECT id, seller, category, start, buy_now, ending, state, closed, price, leader, \
        count, top, second FROM item WHERE id = ?1 ORDER BY id",
        params![1u32],
    )?;
    Ok(())
}

// How many bids the item has.
fn bid_count<S: Alter>(conn: &mut Connection<S>) -> Result<u32, Error> {
    conn.query_row("SELECT count(*) FROM bid WHERE item = ?1", params![1u32])?
        .get(0)
}

fn put_bid<S: Alter>(tx: &mut Transaction<'_, S>, number: u32) -> Result<(), Error> {
    let member = 2 + number % 2;
    let maximum = number.saturating_mul(10_000);
    tx.execute(
        "INSERT INTO bid (item, no, member, maximum) VALUES (?1, ?2, ?3, ?4)",
        params![1u32, number, member, maximum],
    )?;
    Ok(())
}

fn set_standing<S: Alter>(tx: &mut Transaction<'_, S>, number: u32) -> Result<(), Error> {
    let leader = 2 + number % 2;
    let top = number.saturating_mul(10_000);
    tx.execute(
        "UPDATE item SET price = ?2, leader = ?3, top = ?4, second = ?5, count = ?6 WHERE id = ?1",
        params![1u32, top, leader, top, top, number],
    )?;
    Ok(())
}

fn set_clock<S: Alter>(tx: &mut Transaction<'_, S>) -> Result<(), Error> {
    tx.execute(
        "UPDATE house SET clock = ?2 WHERE id = ?1",
        params![1u32, 1001u32],
    )?;
    Ok(())
}

// Makes the statements of a bid, and commits.
fn place<S: Alter>(conn: &mut Connection<S>, number: u32) -> Result<(), Error> {
    read_item(conn)?;
    if !conn.is_autocommit() {
        return Err(Error::SqliteFailure(ErrorCode::TransactionState));
    }
    let mut tx = conn.transaction();
    put_bid(&mut tx, number)?;
    set_standing(&mut tx, number)?;
    set_clock(&mut tx)?;
    tx.commit()
}

// Places so many bids, and gives how many the item then has.
fn place_all<S: Alter>(conn: &mut Connection<S>, bids: u32) -> Result<u32, Error> {
    let before = bid_count(conn)?;
    for made in 0..bids {
        place(conn, before.saturating_add(made).saturating_add(1))?;
    }
    bid_count(conn)
}

fn run(rt: &HostRuntime, alloc: Global, file: &str, bids: u32) -> Result<u32, Error> {
    if file != ":memory:" {
        let mut conn = Connection::open(rt, file)?;
        return place_all(&mut conn, bids);
    }
    let mut conn = Connection::open_in_memory(alloc)?;
    conn.execute_batch(TABLES)?;
    place_all(&mut conn, bids)
}

fn run_words(rt: &HostRuntime, alloc: Global) -> Result<u32, Error> {
    let words = match std::env::args(rt) {
        Ok(words) => words.collect::<Vec<String>>(alloc)?,
        Err(_) => return Err(Error::SqliteFailure(ErrorCode::OutOfMemory)),
    };
    let [_, file, bids] = words.as_slice() else {
        return Ok(0);
    };
    run(rt, alloc, file, bids.as_str().parse().unwrap_or(0))
}

fn main(rt: HostRuntime) -> ExitCode {
    match run_words(&rt, rt.alloc()) {
        Ok(count) => {
            let _ = println!(rt; "{count}");
            ExitCode::SUCCESS
        }
        Err(error) => {
            let _ = eprintln!(rt; "bench_sqlite: {error}");
            ExitCode::FAILURE
        }
    }
}
