//! A list of messages, played over a new house.
//!
//! Where a call answers that memory ran out, it is asked once more: it has to have changed nothing. A
//! fault that may not come is one of the keep, also where it is `Memory`. What owns a house
//! has one end: each end more would drop it once more.
use crate::keeps::{Connects, Databases, InMemory, Lists, site_over};
use crate::list::Stage;
use house_rows::{Keep, KeepFault};
use house_script::{Makes, ScriptFault};
use site::{Reply, RunFault, Site};
use sqlite::Alter;
use std::alloc::{AllocError, Global};

/// How a list is played.
#[derive(Clone, Copy)]
pub(crate) enum Form {
    /// Each message by itself.
    Replies,
    /// All as one list.
    Run,
}

/// What the house that it is played over keeps its tables in.
#[derive(Clone, Copy)]
pub(crate) enum Tables {
    /// In lists.
    Lists,
    /// In a database.
    Database,
}

/// Adds a text on lines of its own.
pub(crate) fn tell(report: &mut Vec<u8>, text: &[u8]) -> Result<(), AllocError> {
    report.extend_from_slice(text)?;
    report.push(b'\n')?;
    Ok(())
}

// Reports that memory ran out. Another fault is one of the keep.
fn tell_refusal(report: &mut Vec<u8>, fault: KeepFault, refusal: &[u8]) -> Result<(), ScriptFault> {
    match fault {
        KeepFault::Memory => Ok(tell(report, refusal)?),
        KeepFault::Store | KeepFault::Damaged => Err(ScriptFault::Keep),
    }
}

// The site over a second house, where a first had a fault, which has to be `Memory`.
fn made_again<K: Keep + Drop, M: Makes<K>>(
    alloc: Global,
    makes: &M,
    stage: &Stage,
    fault: KeepFault,
    report: &mut Vec<u8>,
) -> Result<Site<K>, ScriptFault> {
    tell_refusal(report, fault, b"site: Memory")?;
    let settings = stage.settings(alloc)?;
    match site_over(alloc, makes.empty(alloc, settings)) {
        Ok(site) => Ok(site),
        Err(_) => Err(ScriptFault::Keep),
    }
}

// The site over a new house, or over a second one.
fn made<K: Keep + Drop, M: Makes<K>>(
    alloc: Global,
    makes: &M,
    stage: &Stage,
    report: &mut Vec<u8>,
) -> Result<Site<K>, ScriptFault> {
    let settings = stage.settings(alloc)?;
    match site_over(alloc, makes.empty(alloc, settings)) {
        Ok(site) => Ok(site),
        Err(fault) => made_again(alloc, makes, stage, fault, report),
    }
}

// Reports the reply to a message.
fn tell_reply<K: Keep + Drop>(
    site: &mut Site<K>,
    message: &[u8],
    report: &mut Vec<u8>,
) -> Result<(), AllocError> {
    let reply = site.reply(message);
    tell(report, &reply)
}

// Reports the reply to each message by itself.
fn tell_each<K: Keep + Drop>(
    site: &mut Site<K>,
    messages: &[Vec<u8>],
    report: &mut Vec<u8>,
) -> Result<(), ScriptFault> {
    for message in messages {
        tell_reply(site, message, report)?;
    }
    Ok(())
}

// Answers all messages as one list.
fn run<K: Keep + Drop>(
    site: &mut Site<K>,
    messages: &[Vec<u8>],
    report: &mut Vec<u8>,
) -> Result<Vec<Reply>, ScriptFault> {
    match site.run(messages) {
        Ok(replies) => Ok(replies),
        Err(RunFault::Memory) => {
            tell(report, b"run: Memory")?;
            site.run(messages).map_err(|_| ScriptFault::Keep)
        }
    }
}

// Reports replies.
fn tell_replies(replies: &[Reply], report: &mut Vec<u8>) -> Result<(), ScriptFault> {
    for reply in replies {
        tell(report, reply)?;
    }
    Ok(())
}

// Reports the replies to all messages as one list.
fn tell_run<K: Keep + Drop>(
    site: &mut Site<K>,
    messages: &[Vec<u8>],
    report: &mut Vec<u8>,
) -> Result<(), ScriptFault> {
    let replies = run(site, messages, report)?;
    tell_replies(&replies, report)
}

// Reports whether the house is new.
fn tell_new<K: Keep + Drop>(site: &mut Site<K>, report: &mut Vec<u8>) -> Result<(), ScriptFault> {
    let is_new = site.is_new().map_err(|_| ScriptFault::Keep)?;
    let word: &[u8] = if is_new { b"new" } else { b"not new" };
    Ok(tell(report, word)?)
}

// The public record.
fn record<K: Keep + Drop>(
    site: &mut Site<K>,
    report: &mut Vec<u8>,
) -> Result<Vec<u8>, ScriptFault> {
    match site.record() {
        Ok(record) => Ok(record),
        Err(fault) => {
            tell_refusal(report, fault, b"record: Memory")?;
            site.record().map_err(|_| ScriptFault::Keep)
        }
    }
}

// Reports the replies to the list, and the record after them.
fn tell_all<K: Keep + Drop>(
    site: &mut Site<K>,
    messages: &[Vec<u8>],
    form: Form,
    report: &mut Vec<u8>,
) -> Result<(), ScriptFault> {
    tell_new(site, report)?;
    match form {
        Form::Replies => tell_each(site, messages, report)?,
        Form::Run => tell_run(site, messages, report)?,
    }
    tell_new(site, report)?;
    let record = record(site, report)?;
    Ok(tell(report, &record)?)
}

// Reports the replies to the list over a new house, and its record after them.
fn play_over<K: Keep + Drop, M: Makes<K>>(
    alloc: Global,
    makes: &M,
    stage: &Stage,
    form: Form,
    report: &mut Vec<u8>,
) -> Result<(), ScriptFault> {
    let mut site = made(alloc, makes, stage, report)?;
    tell_all(&mut site, stage.messages.as_slice(), form, report)
}

// The same over a new house in a database.
fn play_in<S: Alter + Drop, C: Connects<S>>(
    alloc: Global,
    place: &C,
    stage: &Stage,
    form: Form,
    report: &mut Vec<u8>,
) -> Result<(), ScriptFault> {
    play_over(alloc, &Databases { place }, stage, form, report)
}

/// Reports the replies to the list over a new house, and its record after them.
pub(crate) fn play_list(
    alloc: Global,
    stage: &Stage,
    tables: Tables,
    form: Form,
    report: &mut Vec<u8>,
) -> Result<(), ScriptFault> {
    match tables {
        Tables::Lists => play_over(alloc, &Lists, stage, form, report),
        Tables::Database => play_in(alloc, &InMemory { alloc }, stage, form, report),
    }
}

// The tables and forms in which a list has the same report as by itself in lists.
const OTHERS: [(&str, Tables, Form); 3] = [
    ("in a database", Tables::Database, Form::Replies),
    ("run", Tables::Lists, Form::Run),
    ("run in a database", Tables::Database, Form::Run),
];

/// Reports whether the other report is the same as the first, and if not, what it is.
pub(crate) fn tell_same(
    report: &mut Vec<u8>,
    first: &[u8],
    other: &[u8],
) -> Result<(), AllocError> {
    if first == other {
        return tell(report, b": the same");
    }
    tell(report, b": not the same")?;
    report.extend_from_slice(other)
}

/// Reports the replies to the list over a new house in lists, and its record; and whether it is the
/// same in a database, and where the list is run.
pub(crate) fn play_all(
    alloc: Global,
    stage: &Stage,
    report: &mut Vec<u8>,
) -> Result<(), ScriptFault> {
    let mut first = Vec::new(alloc);
    play_list(alloc, stage, Tables::Lists, Form::Replies, &mut first)?;
    report.extend_from_slice(&first)?;
    let mut other = Vec::new(alloc);
    for (name, tables, form) in OTHERS {
        other.clear();
        play_list(alloc, stage, tables, form, &mut other)?;
        report.extend_from_slice(name.as_bytes())?;
        tell_same(report, &first, &other)?;
    }
    Ok(())
}
