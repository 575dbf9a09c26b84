//! The section on amounts, days and statements: what its lines may be, and what is answered to them.
//!
//! `amount N` gives the amount of so many cents and how it is shown, or `-`, `sum N` how a sum of
//! them is shown, and `read T` the amount that a text is read as. `day T` gives the number of the
//! day that a text spells, and `number N` that of the day with a number, or `-`. `zone T` takes the
//! zone of a rule, in which `at MOMENT` gives the number of a moment's day, or `-`. In these texts
//! `\7f;` is the character of that number. `fee PRICE RATE` gives a fee, and `faults` has a line
//! for each. `sales` begins without sales, and `sale ITEM SELLER BUYER CLOSED PRICE` adds one.
//! `statement MEMBER FROM TO` makes a statement in the zone: its member, a line for each of its
//! lines, and its totals. `text pieces N`, `csv pieces N` give what a sink has of it that takes N
//! bytes at a time, and `text failing N`, `csv failing N` what one has that fails at the Nth call.
//! A refusal is reported by its name.
use crate::script::ValuesFault;
use crate::words::first_word;
use crate::{amounts, days, sales, statements};
use settle::{SettleFault, Sold, Statement, Zone};
use std::alloc::Global;

/// What the lines work on.
#[derive(Drop)]
pub(crate) struct Accounts {
    pub(crate) zone: Zone,
    pub(crate) sales: Vec<Sold>,
    pub(crate) statement: Option<Statement>,
}

impl Accounts {
    /// No sales, and no statement.
    pub(crate) fn new(alloc: Global) -> Result<Accounts, ValuesFault> {
        Ok(Accounts {
            zone: Zone::read("UTC0").map_err(|_| ValuesFault::Script)?,
            sales: Vec::new(alloc),
            statement: None,
        })
    }
}

/// The name of a refusal.
pub(crate) fn fault_name(alloc: Global, fault: SettleFault) -> Result<String, ValuesFault> {
    Ok(format!(in alloc; "{fault:?}")?)
}

/// Plays a line, and gives what is answered to it, if anything is.
pub(crate) fn play(
    alloc: Global,
    accounts: &mut Accounts,
    line: &str,
) -> Result<Option<String>, ValuesFault> {
    let (word, rest) = first_word(line);
    match word {
        "sales" => {
            accounts.sales.clear();
            Ok(None)
        }
        "sale" => {
            let sale = sales::sale(rest)?;
            accounts.sales.push(sale).map_err(|_| ValuesFault::Memory)?;
            Ok(None)
        }
        _ => Ok(Some(answer(alloc, accounts, word, rest)?)),
    }
}

// What is answered to a line that asks.
fn answer(
    alloc: Global,
    accounts: &mut Accounts,
    word: &str,
    rest: &str,
) -> Result<String, ValuesFault> {
    match word {
        "amount" => amounts::amount(alloc, rest),
        "read" => amounts::read(alloc, rest),
        "sum" => amounts::sum(alloc, rest),
        "day" => days::day(alloc, rest),
        "number" => days::number(alloc, rest),
        "zone" => days::zone(alloc, accounts, rest),
        "at" => days::at(alloc, &accounts.zone, rest),
        "fee" => sales::fee(alloc, rest),
        "faults" => Ok(sales::faults(alloc)?),
        "statement" => statements::statement(alloc, accounts, rest),
        "text" => statements::sink_text(alloc, accounts, rest, false),
        "csv" => statements::sink_text(alloc, accounts, rest, true),
        _ => Err(ValuesFault::Script),
    }
}
