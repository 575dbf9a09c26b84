//! Texts as one message.
use crate::runs::Runs;
use crate::script::MessageFault;
use crate::words::spell;
use std::alloc::{AllocError, Global};
use wire::Request;

/// What the text is: a message, or the fault of its frame.
pub(crate) fn whole(alloc: Global, text: &[u8]) -> Result<String, AllocError> {
    match wire::whole(text) {
        Ok(request) => message(alloc, &request),
        Err(fault) => format!(in alloc; "{fault:?}"),
    }
}

/// A message: its method, its target, its length, that of its body, and whether it ends the connection.
pub(crate) fn message(alloc: Global, request: &Request<'_>) -> Result<String, AllocError> {
    let (method, target) = (
        spell(alloc, request.method())?,
        spell(alloc, request.target())?,
    );
    let (length, size) = (request.length(), request.body().len());
    let ends = if request.closes() { "closes" } else { "stays" };
    format!(in alloc; "{method} {target}, {length} bytes, body {size}, {ends}")
}

// The message that the text has to be.
fn read(text: &[u8]) -> Result<Request<'_>, MessageFault> {
    match wire::whole(text) {
        Ok(request) => Ok(request),
        Err(_) => Err(MessageFault::Script),
    }
}

/// The value of a field of the message, or `-` where there isn't exactly one.
pub(crate) fn one(alloc: Global, text: &[u8], name: &[u8]) -> Result<String, MessageFault> {
    let request = read(text)?;
    match request.one(name) {
        Some(value) => Ok(format!(in alloc; "[{}]", spell(alloc, value)?)?),
        None => Ok(format!(in alloc; "-")?),
    }
}

/// The body of the message.
pub(crate) fn body(alloc: Global, text: &[u8]) -> Result<String, MessageFault> {
    let request = read(text)?;
    Ok(format!(in alloc; "[{}]", spell(alloc, request.body())?)?)
}

/// What each beginning of the text is, from none of it to all of it.
pub(crate) fn cuts(alloc: Global, text: &[u8]) -> Result<String, AllocError> {
    let mut runs = Runs::new(alloc);
    for count in 0..text.len() {
        runs.add(whole(alloc, &text[..count])?)?;
    }
    runs.finish_line(whole(alloc, text)?.as_str())
}
