//! Streams through an inbox.
ghost use Rattle.std.specs.Prelude.{◌≡◌, ◌≤◌, ◌++◌, length, take};

use crate::messages::message;
use crate::runs::Runs;
use crate::script::MessageFault;
use crate::words::number;
use std::alloc::{AllocError, Global};
use wire::{Inbox, Look};

// Copies as many of the bytes as there is room for, and says how many, as a reader does.
fn give(room: &mut [u8], bytes: &[u8]) -> usize
    ensures room { result ≤ length room.new }
    ensures fits { result ≤ length bytes.now }
    ensures front { take result room.new ≡ take result bytes.now }
{
    let count = room.len().min(bytes.len());
    room[..count].copy_from_slice(&bytes[..count]);
    count
}

// Feeds an inbox. A caller of `space` and `took` that is proved.
fn feed(inbox: &mut Inbox, bytes: &[u8]) -> usize
    ensures fits { result ≤ length bytes.now }
    ensures held { inbox.new.held ≡ inbox.old.held ++ take result bytes.now }
{
    let count = give(inbox.space(), bytes);
    inbox.took(count);
    count
}

/// How many bytes of the text the inbox takes.
pub(crate) fn feed_text(
    alloc: Global,
    inbox: &mut Inbox,
    text: &[u8],
) -> Result<String, AllocError> {
    let count = feed(inbox, text);
    format!(in alloc; "{count}")
}

/// The room after what the inbox holds.
pub(crate) fn space(alloc: Global, inbox: &mut Inbox) -> Result<String, AllocError> {
    let room = inbox.space().len();
    format!(in alloc; "{room}")
}

/// Drops the message at the front, if there is one.
pub(crate) fn done(inbox: &mut Inbox) {
    let length = match inbox.look(false) {
        Look::Whole(request) => request.length(),
        _ => return,
    };
    inbox.done(length);
}

/// The result of a look at the inbox.
pub(crate) fn look(alloc: Global, inbox: &Inbox, ended: bool) -> Result<String, AllocError> {
    match inbox.look(ended) {
        Look::Whole(request) => message(alloc, &request),
        Look::More => format!(in alloc; "More"),
        Look::Clean => format!(in alloc; "Clean"),
        Look::Fault(fault) => format!(in alloc; "{fault:?}"),
    }
}

/// What a look says of each beginning of the text but none of it, before and at the end of the
/// input.
pub(crate) fn looks(alloc: Global, text: &[u8]) -> Result<String, AllocError> {
    let mut runs = Runs::new(alloc);
    for count in 1..text.len() {
        runs.add(both_looks(alloc, &text[..count])?)?;
    }
    let mut inbox = Inbox::new(alloc)?;
    feed(&mut inbox, text);
    runs.finish_line(look(alloc, &inbox, true)?.as_str())
}

// What a look says of a text, before and at the end of the input.
fn both_looks(alloc: Global, text: &[u8]) -> Result<String, AllocError> {
    let mut inbox = Inbox::new(alloc)?;
    feed(&mut inbox, text);
    let (before, after) = (look(alloc, &inbox, false)?, look(alloc, &inbox, true)?);
    format!(in alloc; "{before} and {after}")
}

/// The messages of the text, which comes in pieces of a size, and how it ends.
pub(crate) fn stream(alloc: Global, text: &[u8], size: &str) -> Result<String, MessageFault> {
    let size: usize = number(size)?;
    let mut inbox = Inbox::new(alloc)?;
    let mut runs = Runs::new(alloc);
    let end = add_messages(alloc, &mut runs, &mut inbox, text, size)?;
    Ok(runs.finish_line(end.as_str())?)
}

// Adds the messages of a text that comes in pieces of a size, and gives how it ends.
fn add_messages(
    alloc: Global,
    runs: &mut Runs,
    inbox: &mut Inbox,
    text: &[u8],
    size: usize,
) -> Result<String, MessageFault> {
    let mut rest = text;
    // Each turn takes a message or, where the size isn't 0, bytes.
    for _ in 0..text.len().saturating_mul(2).saturating_add(1) {
        let length = match inbox.look(rest.is_empty()) {
            Look::Whole(request) => {
                runs.add(message(alloc, &request)?)?;
                request.length()
            }
            Look::Clean => return Ok(format!(in alloc; "Clean")?),
            Look::Fault(fault) => return Ok(format!(in alloc; "{fault:?}")?),
            Look::More => {
                let count = feed(inbox, &rest[..size.min(rest.len())]);
                rest = &rest[count..];
                continue;
            }
        };
        inbox.done(length);
    }
    Err(MessageFault::Stream)
}
