//! `statement`: what a member sold and bought in a period.
ghost use Rattle.auction_runs.specs.Lines.{IsReported};
ghost use Rattle.std.specs.Prelude.{◌≡◌, ◌≤◌, ◌⊎◌, Err, IfErr, IfOk, IsOk, OnOk};
ghost use Rattle.std.specs.Io.KnownBytes.{Appends, Keeps};
ghost use Rattle.device.specs.Given.{AppendsBeginning};
ghost use Rattle.settle.specs.Calendar.{day_text};
ghost use Rattle.auction_runs.specs.Inquired.{IsUnasked};
ghost use Rattle.auction_runs.specs.Over.{IsReadOver};
ghost use Rattle.auction_runs.specs.Stated.{HasRead, HasStated, IsAccount, IsUnmade, IsUnread, IsUnstated, IsUnwritten, account_text};
ghost use Rattle.house_rows.specs.Answers.{Reads};

use crate::ended::outcome_after_end;
use crate::fault::{TaskFault, finish_run};
use auction_words::StatementWords;
use device::Sink;
use house_rows::{Ends, Keep};
use office::statement;
use settle::{Day, Statement};
use std::alloc::Global;

/// Whose statement is asked for, of which days, and in which form.
#[derive(Clone, Copy)]
pub struct Inquiry {
    /// The number of the member.
    pub member: u64,
    /// The first day.
    pub from: Day,
    /// The last day.
    pub to: Day,
    /// As records of CSV.
    pub csv: bool,
}

impl Inquiry {
    /// What is asked for by words. A day that is none is reported before a period that ends before
    /// it begins.
    pub fn read(words: &StatementWords<'_>) -> Result<Inquiry, TaskFault>
        ensures member { IfOk result (λ i. i.member ≡ words.now.member) }
        ensures from { IfOk result (λ i. words.now.from.now ≡ day_text i.from) }
        ensures to { IfOk result (λ i. words.now.to.now ≡ day_text i.to) }
        ensures order { IfOk result (λ i. i.from ≤ i.to) }
        ensures csv { IfOk result (λ i. i.csv ≡ words.now.csv) }
        ensures fault { IfErr result (IsUnasked words.now) }
    {
        let from = Day::read(words.from)?;
        let to = Day::read(words.to)?;
        if to < from {
            return Err(TaskFault::Order);
        }
        Ok(Inquiry {
            member: words.member,
            from,
            to,
            csv: words.csv,
        })
    }
}

// Writes a statement in the form that is asked for.
fn write_form<W: Sink>(
    alloc: Global,
    sink: &mut W,
    statement: &Statement,
    csv: bool,
) -> Result<(), TaskFault>
    ensures written { OnOk result
        (Appends (W.taken sink.old) (W.taken sink.new) (account_text csv statement.now)) }
    ensures part { AppendsBeginning (W.taken sink.old) (W.taken sink.new)
        (account_text csv statement.now) }
    ensures fault { IfErr result (IsUnwritten (W.has_failed sink.new)) }
{
    if csv {
        Ok(statement.write_csv(alloc, sink)?)
    } else {
        Ok(statement.write_text(alloc, sink)?)
    }
}

// And hands it on.
fn write<W: Sink>(
    alloc: Global,
    sink: &mut W,
    statement: &Statement,
    csv: bool,
) -> Result<(), TaskFault>
    ensures written { OnOk result
        (Appends (W.taken sink.old) (W.taken sink.new) (account_text csv statement.now)) }
    ensures part { AppendsBeginning (W.taken sink.old) (W.taken sink.new)
        (account_text csv statement.now) }
    ensures handed_on { OnOk result (W.handed_on sink.new ≡ W.taken sink.new) }
    ensures fault { IfErr result (IsUnwritten (W.has_failed sink.new)) }
{
    write_form(alloc, sink, statement, csv)?;
    sink.flush().map_err(|_| TaskFault::Write)
}

// The statement from a keep.
fn read_statement<K: Keep>(
    alloc: Global,
    keep: &mut K,
    asked: Inquiry,
) -> Result<Statement, TaskFault>
    ensures shown { K.is_honest keep.new → IfOk result (IsAccount (K.content keep.old) asked) }
    ensures fault { IfErr result (IsUnread K.content K.is_failed K.is_honest asked keep.old keep.new) }
    ensures read { Reads K.Keep keep.old keep.new }
{
    Ok(statement(alloc, keep, asked.member, asked.from, asked.to)?)
}

// And what is left of the keep, which is ended.
fn make_statement<K: Keep + Drop + Ends>(
    alloc: Global,
    keep: K,
    asked: Inquiry,
) -> (Result<Statement, TaskFault>, K::Left)
    ensures made { IfOk result.0 (HasRead K.content K.is_failed K.is_honest K.may_leave
        (λ last. K.is_ended last result.1) asked keep) }
    ensures fault { IfErr result.0 (IsUnmade K.Keep (λ last. K.is_ended last result.1)
        (λ last. K.is_left last result.1) asked keep) }
    ensures over { IsReadOver K.content K.is_failed K.is_honest K.may_leave K.is_ended K.is_left
        keep result.1 }
{
    let mut keep = keep;
    let made = read_statement(alloc, &mut keep, asked);
    let (ended, left) = keep.end();
    (outcome_after_end(made, ended), left)
}

// Writes a statement, once it is made.
fn write_made<W: Sink>(
    alloc: Global,
    sink: &mut W,
    made: Result<Statement, TaskFault>,
    csv: bool,
) -> Result<(), TaskFault>
    ensures written { OnOk result (IfOk made (λ statement.
        Appends (W.taken sink.old) (W.taken sink.new) (account_text csv statement))) }
    ensures handed_on { OnOk result (W.handed_on sink.new ≡ W.taken sink.new) }
    ensures made { OnOk result (IsOk made) }
    ensures fault { IfErr result (λ fault.
        ((made ≡ Err fault) × Keeps (W.taken sink.old) (W.taken sink.new))
        ⊎ (IsUnwritten (W.has_failed sink.new) fault × IsOk made)) }
    ensures part { IfOk made (λ statement.
        AppendsBeginning (W.taken sink.old) (W.taken sink.new) (account_text csv statement)) }
{
    let statement = made?;
    write(alloc, sink, &statement, csv)
}

/// Writes the statement of a member from a keep, which is ended before, and gives the exit status and
/// what is left of the keep, which was only read. A fault is written in its line on `errors`.
pub fn statement_run<W: Sink, E: Sink, K: Keep + Drop + Ends>(
    alloc: Global,
    keep: K,
    asked: Inquiry,
    sink: &mut W,
    errors: &mut E,
) -> (u8, K::Left)
    ensures stated { result.0 ≡ 0 → HasStated K.content K.is_failed K.is_honest K.may_leave
        (λ last. K.is_ended last result.1) asked (W.taken sink.old) (W.taken sink.new) keep }
    ensures handed_on { result.0 ≡ 0 → W.handed_on sink.new ≡ W.taken sink.new }
    ensures over { IsReadOver K.content K.is_failed K.is_honest K.may_leave K.is_ended K.is_left
        keep result.1 }
    ensures reported { IsReported E.Sink (IsUnstated K.Keep (λ last. K.is_ended last result.1)
        (λ last. K.is_left last result.1) asked (W.has_failed sink.new)
        (W.taken sink.old) (W.taken sink.new) keep)
        errors.old errors.new result.0 }
    ensures within { result.0 ≤ 1 }
{
    let csv = asked.csv;
    let (made, left) = make_statement(alloc, keep, asked);
    let status = finish_run(errors, write_made(alloc, sink, made, csv));
    (status, left)
}
