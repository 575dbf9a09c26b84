//! The section on what messages ask: what its lines may be, and the answers to them.
//!
//! `send METHOD TARGET` names the request, `head FIELDS` its further fields, each after a line's
//! end that is spelled out, and `body TEXT` its body; then the answer is what the message asks.
//! `begin` empties the body, `add TEXT` and `times N TEXT` add to it, and `asks` says what is
//! asked. `raw TEXT` says what that text asks as it is. `frames N` reads the frame of the message N
//! times, and gives the sum of the lengths; `repeat N` also reads what it asks, and adds the moment
//! and some of the command's numbers.
use crate::commands;
use crate::script::MessageFault;
use crate::words::{first_word, number, push, repeat};
use house_rows::{Command, Message};
use json::Scratch;
use site_request::{Asked, RequestFault, Routes, read, read_request};
use std::alloc::{AllocError, Global};
use std::fmt::Write;
use wire::{Request, whole};

/// What the lines work on.
#[derive(Drop)]
pub(crate) struct Asks {
    routes: Routes,
    scratch: Scratch,
    request: Vec<u8>,
    fields: Vec<u8>,
    body: Vec<u8>,
}

impl Asks {
    /// No request, no fields, no body.
    pub(crate) fn new(alloc: Global) -> Result<Asks, AllocError> {
        Ok(Asks {
            routes: Routes::new(alloc)?,
            scratch: Scratch::new(alloc),
            request: Vec::new(alloc),
            fields: Vec::new(alloc),
            body: Vec::new(alloc),
        })
    }
}

/// Plays a line, and gives what it asks, if it asks.
pub(crate) fn play(
    alloc: Global,
    asks: &mut Asks,
    line: &str,
) -> Result<Option<String>, MessageFault> {
    let (word, rest) = first_word(line);
    match word {
        "send" => respell(&mut asks.request, rest)?,
        "head" => respell(&mut asks.fields, rest)?,
        "begin" => asks.body.clear(),
        "add" => push(&mut asks.body, rest)?,
        "times" => repeat(&mut asks.body, rest)?,
        _ => return Ok(Some(answer(alloc, asks, word, rest)?)),
    }
    Ok(None)
}

// Puts other bytes into a buffer.
fn respell(bytes: &mut Vec<u8>, text: &str) -> Result<(), MessageFault> {
    bytes.clear();
    push(bytes, text)
}

// The answer to a line that asks.
fn answer(alloc: Global, asks: &mut Asks, word: &str, rest: &str) -> Result<String, MessageFault> {
    let mut text = Vec::new(alloc);
    push_text(alloc, asks, &mut text, word, rest)?;
    answer_of(alloc, asks, &text, word, rest)
}

// Adds the text that a line asks with.
fn push_text(
    alloc: Global,
    asks: &mut Asks,
    text: &mut Vec<u8>,
    word: &str,
    rest: &str,
) -> Result<(), MessageFault> {
    match word {
        "raw" => push(text, rest),
        "body" => {
            respell(&mut asks.body, rest)?;
            Ok(push_message(alloc, asks, text)?)
        }
        _ => Ok(push_message(alloc, asks, text)?),
    }
}

// Adds the message of the section.
fn push_message(alloc: Global, asks: &Asks, text: &mut Vec<u8>) -> Result<(), AllocError> {
    let length = format!(in alloc; "{}", asks.body.len())?;
    let parts: [&[u8]; 7] = [
        &asks.request,
        b" HTTP/1.1\r\nhost: h",
        &asks.fields,
        b"\r\ncontent-length: ",
        length.as_str().as_bytes(),
        b"\r\n\r\n",
        &asks.body,
    ];
    for part in parts {
        text.extend_from_slice(part)?;
    }
    Ok(())
}

// The answer for a text.
fn answer_of(
    alloc: Global,
    asks: &mut Asks,
    text: &[u8],
    word: &str,
    rest: &str,
) -> Result<String, MessageFault> {
    match word {
        "raw" | "body" | "asks" => ask(alloc, asks, text),
        "frames" => sum_text(alloc, sum_of_frames(text, number(rest)?)?),
        "repeat" => sum_text(alloc, sum_of_asks(alloc, asks, text, number(rest)?)?),
        _ => Err(MessageFault::Script),
    }
}

fn sum_text(alloc: Global, sum: u64) -> Result<String, MessageFault> {
    Ok(format!(in alloc; "{sum}")?)
}

// What a text asks.
fn ask(alloc: Global, asks: &mut Asks, text: &[u8]) -> Result<String, MessageFault> {
    match read(alloc, &asks.routes, text, &mut asks.scratch) {
        Ok(asked) => line_of(alloc, &asked),
        Err(_) => Err(MessageFault::Memory),
    }
}

fn line_of(alloc: Global, asked: &Asked) -> Result<String, MessageFault> {
    let mut line = String::new(alloc);
    push_asked(&mut line, asked)?;
    Ok(line)
}

// Adds what is asked, in words.
fn push_asked(line: &mut String, asked: &Asked) -> Result<(), AllocError> {
    match &asked.message {
        Message::Write {
            moment,
            caller,
            command,
        } => {
            write!(line, "{caller} at {moment}: ")?;
            commands::push(line, command)?;
        }
        Message::Read { caller, query } => write!(line, "{caller} reads {query:?}")?,
        Message::Broken { caller, fault } => push_fault(line, *fault, *caller, asked.closes)?,
    }
    if asked.closes {
        line.push_str(", closes")?;
    }
    Ok(())
}

// Adds what is answered to a message that asks for nothing, and whose it is.
fn push_fault(
    line: &mut String,
    fault: RequestFault,
    caller: Option<u64>,
    closes: bool,
) -> Result<(), AllocError> {
    let response = fault.response(closes);
    write!(line, "{} {}", response.status.code(), fault.body())?;
    if let Some(methods) = response.allow {
        write!(line, " allow {}", methods.text())?;
    }
    match caller {
        Some(caller) => write!(line, " of {caller}"),
        None => line.push_str(" of nobody"),
    }
}

// The sum of the lengths of a message whose frame is read so many times.
fn sum_of_frames(text: &[u8], times: u32) -> Result<u64, MessageFault> {
    let mut sum = 0u64;
    for _ in 0..times {
        sum = sum.wrapping_add(length(text)?);
    }
    Ok(sum)
}

fn length(text: &[u8]) -> Result<u64, MessageFault> {
    match whole(text) {
        Ok(request) => Ok(request.length() as u64),
        Err(_) => Err(MessageFault::Script),
    }
}

// The sum of what is seen of a message that is read so many times.
fn sum_of_asks(
    alloc: Global,
    asks: &mut Asks,
    text: &[u8],
    times: u32,
) -> Result<u64, MessageFault> {
    let mut sum = 0u64;
    for _ in 0..times {
        sum = sum.wrapping_add(seen_once(alloc, asks, text)?);
    }
    Ok(sum)
}

fn seen_once(alloc: Global, asks: &mut Asks, text: &[u8]) -> Result<u64, MessageFault> {
    match whole(text) {
        Ok(request) => seen_of_request(alloc, asks, &request),
        Err(_) => Err(MessageFault::Script),
    }
}

fn seen_of_request(
    alloc: Global,
    asks: &mut Asks,
    request: &Request<'_>,
) -> Result<u64, MessageFault> {
    match read_request(alloc, &asks.routes, request, &mut asks.scratch) {
        Ok(asked) => Ok(seen(&asked.message).wrapping_add(request.length() as u64)),
        Err(_) => Err(MessageFault::Memory),
    }
}

// What is seen of a message.
fn seen(message: &Message<RequestFault>) -> u64 {
    match message {
        Message::Write {
            moment,
            command,
            ..
        } => match command {
            Command::Bid { item, maximum } => moment.wrapping_add(*item).wrapping_add(*maximum),
            Command::List { category, end, .. } => moment
                .wrapping_add(*category)
                .wrapping_add(*end),
            _ => *moment,
        },
        _ => 0,
    }
}
