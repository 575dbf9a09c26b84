//! Statements written into sinks, a record at a time.
ghost use Rattle.std.specs.Prelude.{◌≡◌, IfOk, false, string_bytes};
ghost use Rattle.cents.specs.Spelling.{amount_text};
ghost use Rattle.settle.specs.Text.{fields_of, head, record_text, records_text, statement_csv};
ghost use Rattle.settle.specs.Text.{statement_text, table_text, totals_text};
ghost use Rattle.settle.specs.Written.{IsWritten};

use crate::columns::{Columns, Form};
use crate::fault::SettleFault;
use crate::line::Line;
use crate::statement::Statement;
use crate::totals::Totals;
use cents::show;
use device::{Sink, give_all};
use std::alloc::{AllocError, Global};

impl Statement {
    /// Writes the statement as a text: a table in columns, and the four totals, a line each. A
    /// record is made in memory before it is given. Where the sink fails, or there is no memory, a
    /// beginning of the text has gone out.
    pub fn write_text<W: Sink>(&self, alloc: Global, sink: &mut W) -> Result<(), SettleFault>
        ensures { IsWritten (W.taken sink.old) (W.taken sink.new) (W.has_failed sink.old)
            (W.has_failed sink.new) result (statement_text self.now) }
    {
        write_table(alloc, sink, Form::Padded, self.rows())?;
        write_totals(alloc, sink, self.totals())
    }

    /// Writes the lines of the statement as CSV (RFC 4180, lines ending in a line feed), with the
    /// names of the columns before them. Of memory and a failing sink as `write_text`.
    pub fn write_csv<W: Sink>(&self, alloc: Global, sink: &mut W) -> Result<(), SettleFault>
        ensures { IsWritten (W.taken sink.old) (W.taken sink.new) (W.has_failed sink.old)
            (W.has_failed sink.new) result (statement_csv self.now) }
    {
        write_table(alloc, sink, Form::Csv, self.rows())
    }
}

// Writes the names of the columns, and the lines.
fn write_table<W: Sink>(
    alloc: Global,
    sink: &mut W,
    form: Form,
    rows: &[Line],
) -> Result<(), SettleFault>
    ensures { IsWritten (W.taken sink.old) (W.taken sink.new) (W.has_failed sink.old)
        (W.has_failed sink.new) result (table_text form rows.now) }
{
    let names = Columns::names().record(alloc, form)?;
    write_bytes(sink, &names)?;
    write_rows(alloc, sink, form, rows)
}

// Writes lines, one after another, into a sink that goes.
fn write_rows<W: Sink>(
    alloc: Global,
    sink: &mut W,
    form: Form,
    rows: &[Line],
) -> Result<(), SettleFault>
    requires { W.has_failed sink.old ≡ false }
    ensures { IsWritten (W.taken sink.old) (W.taken sink.new) (W.has_failed sink.old)
        (W.has_failed sink.new) result (records_text form rows.now) }
{
    for line in rows {
        let record = line_record(alloc, form, line)?;
        write_bytes(sink, &record)?;
    }
    Ok(())
}

// Writes the four totals.
fn write_totals<W: Sink>(alloc: Global, sink: &mut W, totals: Totals) -> Result<(), SettleFault>
    ensures { IsWritten (W.taken sink.old) (W.taken sink.new) (W.has_failed sink.old)
        (W.has_failed sink.new) result (totals_text totals) }
{
    let text = totals_lines(alloc, totals)?;
    write_bytes(sink, text.as_bytes())
}

// Gives the sink bytes, without any memory.
fn write_bytes<W: Sink>(sink: &mut W, bytes: &[u8]) -> Result<(), SettleFault>
    ensures written { IsWritten (W.taken sink.old) (W.taken sink.new) (W.has_failed sink.old)
        (W.has_failed sink.new) result bytes.now }
{
    match give_all(sink, bytes) {
        Ok(()) => Ok(()),
        Err(_) => Err(SettleFault::Write),
    }
}

// The record of a line.
fn line_record(alloc: Global, form: Form, line: &Line) -> Result<Vec<u8>, AllocError>
    ensures { IfOk result (λ v. v.items ≡ record_text form (fields_of line.now)) }
{
    let day = format!(in alloc; "{}", line.day)?;
    let item = format!(in alloc; "{}", line.item)?;
    let other = format!(in alloc; "{}", line.other)?;
    let amounts = amounts_of(alloc, line)?;
    let columns = Columns {
        day: &day,
        item: &item,
        role: if line.sell { "sell" } else { "buy" },
        other: &other,
        price: &amounts.price,
        fee: &amounts.fee,
        net: &amounts.net,
    };
    columns.record(alloc, form)
}

// The amounts of a line, as texts.
#[derive(Drop)]
struct Amounts {
    price: String,
    fee: String,
    net: String,
}

// The texts of the amounts of a line.
fn amounts_of(alloc: Global, line: &Line) -> Result<Amounts, AllocError>
    ensures price { IfOk result (λ a. string_bytes a.price ≡ amount_text line.now.price) }
    ensures fee { IfOk result (λ a. string_bytes a.fee ≡ amount_text line.now.fee) }
    ensures net { IfOk result (λ a. string_bytes a.net ≡ amount_text line.now.net) }
{
    let price = format!(in alloc; "{}", line.price)?;
    let fee = format!(in alloc; "{}", show(line.fee))?;
    let net = format!(in alloc; "{}", show(line.net))?;
    Ok(Amounts { price, fee, net })
}

// The lines of the totals.
fn totals_lines(alloc: Global, totals: Totals) -> Result<String, AllocError>
    ensures { IfOk result (λ s. string_bytes s ≡ totals_text totals) }
{
    format!(in alloc;
        "sold {}\nfees {}\nnet {}\nbought {}\n",
        show(totals.sold),
        show(totals.fees),
        show(totals.net),
        show(totals.bought)
    )
}
