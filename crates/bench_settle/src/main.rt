//! How fast statements are made and written. `bench_settle N` writes the statement of a member with
//! a tenth of N sales, as text and then as CSV. `bench_settle N lines ROUNDS` makes it so many times,
//! `text` and `csv` also write it each time, and all three print how many lines were made.
#![tactic(auto)]

mod sales;

ghost use Rattle.std.specs.Prelude.{◌≢◌, ◌≤◌, All, AllPairs, length};
ghost use Rattle.settle.specs.Lines.{MOST};
ghost use Rattle.settle.specs.Statement.{IsSale};

use device::{Sink, Writing};
use sales::MEMBER;
use settle::{Day, SettleFault, Sold, Statement, Zone};
use std::alloc::Global;
use std::io;
use std::process::ExitCode;
use std::rt::Env;

// What the seller pays, in ten-thousandths of the price.
const RATE: u64 = 1_250;

// The statement of the member for the year of the sales.
fn statement(alloc: Global, sales: &[Sold]) -> Result<Statement, SettleFault>
    requires few { length sales.now ≤ MOST }
    requires items { AllPairs (λ a b. a.item ≢ b.item) sales.now }
    requires sales { All IsSale sales.now }
{
    let zone = Zone::read("CET-1CEST,M3.5.0,M10.5.0/3")?;
    let (from, to) = (Day::read("2025-01-01")?, Day::read("2025-12-31")?);
    settle::lines(alloc, sales, MEMBER, from, to, &zone, RATE)
}

// Writes the statement to standard output, as text and then as CSV.
fn write_out(rt: &impl Print, alloc: Global, count: u32) -> Result<(), SettleFault>
    requires { count ≤ MOST }
{
    let sales = sales::first_sales(alloc, count)?;
    let statement = statement(alloc, &sales)?;
    let mut output = Writing::new(io::writer(rt));
    statement.write_text(alloc, &mut output)?;
    statement.write_csv(alloc, &mut output)?;
    output.flush()?;
    Ok(())
}

// Makes the statement so many times, writes each as the word says, and gives how many lines it
// made.
fn repeat(alloc: Global, count: u32, what: &str, rounds: u32) -> Result<usize, SettleFault>
    requires { count ≤ MOST }
{
    let sales = sales::first_sales(alloc, count)?;
    let mut lines = 0usize;
    for _ in 0..rounds {
        let statement = statement(alloc, &sales)?;
        let mut nowhere = Writing::new(io::sink());
        match what {
            "text" => statement.write_text(alloc, &mut nowhere)?,
            "csv" => statement.write_csv(alloc, &mut nowhere)?,
            _ => (),
        }
        lines = lines.wrapping_add(statement.rows().len());
    }
    Ok(lines)
}

// A number of sales, which is at most a million.
fn count_of(word: &str) -> u32
    ensures { result ≤ MOST }
{
    word.parse().unwrap_or(0u32).min(1_000_000)
}

fn run(rt: &(impl Env + Print + AllocGlobal), alloc: Global) -> Result<(), SettleFault> {
    let mut words = std::env::args(rt).map_err(|_| SettleFault::Memory)?.skip(1);
    let Some(count) = words.next() else {
        return Ok(());
    };
    let count = count_of(count.as_str());
    let (Some(what), Some(rounds)) = (words.next(), words.next()) else {
        return write_out(rt, alloc, count);
    };
    let rounds = rounds.as_str().parse().unwrap_or(0);
    let lines = repeat(alloc, count, what.as_str(), rounds)?;
    println!(rt; "{lines}").map_err(|_| SettleFault::Write)
}

fn main(rt: HostRuntime) -> ExitCode {
    match run(&rt, rt.alloc()) {
        Ok(()) => ExitCode::SUCCESS,
        Err(fault) => {
            let _ = eprintln!(rt; "bench_settle: {fault}");
            ExitCode::FAILURE
        }
    }
}
