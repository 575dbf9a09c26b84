//! What a statement says, and the bytes that it is written as.
use crate::accounts::{Accounts, fault_name};
use crate::sales::are_sales;
use crate::script::ValuesFault;
use crate::words::{first_word, number};
use device::MemorySink;
use settle::{Day, Statement, lines};
use std::alloc::{AllocError, Global};
use std::fmt::Write;

/// Makes the statement that a line asks for, at a fee of a tenth, and gives what it says.
pub(crate) fn statement(
    alloc: Global,
    accounts: &mut Accounts,
    line: &str,
) -> Result<String, ValuesFault> {
    let (member, period) = first_word(line);
    let member = number(member)?;
    let (from, to) = first_word(period);
    let (from, to) = (day(from)?, day(to)?);
    if !are_sales(&accounts.sales) {
        return Err(ValuesFault::Script);
    }
    match lines(
        alloc,
        &accounts.sales,
        member,
        from,
        to,
        &accounts.zone,
        1000,
    ) {
        Err(fault) => fault_name(alloc, fault),
        Ok(statement) => {
            let said = statement_text(alloc, &statement)?;
            accounts.statement = Some(statement);
            Ok(said)
        }
    }
}

fn day(word: &str) -> Result<Day, ValuesFault> {
    Day::read(word).map_err(|_| ValuesFault::Script)
}

// The member of a statement, its lines, and its totals.
fn statement_text(alloc: Global, statement: &Statement) -> Result<String, AllocError> {
    let mut text = format!(in alloc; "member {}\n", statement.member())?;
    push_lines(&mut text, statement)?;
    push_totals(&mut text, statement)?;
    Ok(text)
}

fn push_lines(text: &mut String, statement: &Statement) -> Result<(), AllocError> {
    for line in statement.rows() {
        let role = if line.sell { "sells to" } else { "buys from" };
        let (day, item, other) = (line.day, line.item, line.other);
        let (price, fee, net) = (line.price.value(), line.fee, line.net);
        write!(
            text,
            "{day} item {item} {role} {other}: price {price}, fee {fee}, net {net}\n"
        )?;
    }
    Ok(())
}

fn push_totals(text: &mut String, statement: &Statement) -> Result<(), AllocError> {
    let totals = statement.totals();
    let (sold, fees, net, bought) = (totals.sold, totals.fees, totals.net, totals.bought);
    write!(text, "sold {sold}, fees {fees}, net {net}, bought {bought}")
}

/// What a sink has of the last statement.
pub(crate) fn sink_text(
    alloc: Global,
    accounts: &Accounts,
    line: &str,
    is_csv: bool,
) -> Result<String, ValuesFault> {
    let statement = accounts.statement.as_ref().ok_or(ValuesFault::Script)?;
    let mut sink = sink(alloc, line)?;
    let written = if is_csv {
        statement.write_csv(alloc, &mut sink)
    } else {
        statement.write_text(alloc, &mut sink)
    };
    let text = str::from_utf8(sink.bytes()).map_err(|_| ValuesFault::Script)?;
    Ok(format!(in alloc; "{written:?}\n{text}")?)
}

// The sink that a line asks for.
fn sink(alloc: Global, line: &str) -> Result<MemorySink, ValuesFault> {
    let sink = MemorySink::new(alloc);
    match first_word(line) {
        ("pieces", size) => {
            let size = number(size)?;
            if size == 0 {
                Err(ValuesFault::Script)
            } else {
                Ok(sink.in_pieces(size))
            }
        }
        ("failing", call) => {
            let call = number(call)?;
            if call == 0 {
                Err(ValuesFault::Script)
            } else {
                Ok(sink.failing_at(call))
            }
        }
        _ => Err(ValuesFault::Script),
    }
}
