//! The section on devices: what its lines may be, and what is answered to them.
//!
//! Bytes that are moved are a pattern's, in which no 251 that follow each other come again at once.
//!
//! `source T PIECE CALL ROOM ROOM ..` takes from a source in memory of the text T, which gives
//! PIECE bytes a call and fails at CALL, into rooms of so many bytes, and reports each outcome and
//! what was taken. `sink PIECE CALL` begins a sink in memory; `give N` gives it the next N bytes in
//! a call, `all N` in as many as it takes, `flush` flushes it, and `bytes` says how many it has and
//! whether they are the pattern's. `moved N PIECE PIECE` moves N bytes from a source in memory to a
//! sink, `read N` from a reader of std, by a buffer of seven bytes, and says how many calls found
//! bytes. `stumbles ERROR` takes three bytes four times from a reader that fails once, at its
//! second call.
//!
//! `write MOST CALLS ERROR STEP STEP ..` works on a writer of std that takes MOST bytes a call and
//! fails after CALLS calls. A step is `N` or `+N`, as `all` and `give`, or `flush`; each outcome is
//! reported. `offered` says how many bytes the writer was offered in each call, `calls` how many
//! calls those are, and `written` how many flushes it saw and what it has. `failure` says how a
//! failure is shown. `-` stands for no limit.
use crate::script::ValuesFault;
use crate::words::first_word;
use crate::writers::Log;
use crate::{readers, sinks, writers};
use device::{Failure, MemorySink};
use std::alloc::Global;
use std::io::ErrorKind;

/// What the lines work on.
#[derive(Drop)]
pub(crate) struct Devices {
    pub(crate) pattern: Vec<u8>,
    pub(crate) sink: MemorySink,
    pub(crate) log: Log,
}

impl Devices {
    /// A pattern of thirty thousand bytes, an empty sink, and a writer that saw nothing.
    pub(crate) fn new(alloc: Global) -> Result<Devices, ValuesFault> {
        let mut pattern = Vec::new(alloc);
        for at in 0_u32..30_000 {
            pattern
                .push((at % 251) as u8)
                .map_err(|_| ValuesFault::Memory)?;
        }
        Ok(Devices {
            pattern,
            sink: MemorySink::new(alloc),
            log: Log::new(alloc, usize::MAX, u32::MAX, ErrorKind::Other),
        })
    }
}

/// The error of a name.
pub(crate) fn error_of(word: &str) -> Result<ErrorKind, ValuesFault> {
    match word {
        "-" | "Other" => Ok(ErrorKind::Other),
        "Interrupted" => Ok(ErrorKind::Interrupted),
        "OutOfMemory" => Ok(ErrorKind::OutOfMemory),
        "WouldBlock" => Ok(ErrorKind::WouldBlock),
        "UnexpectedEof" => Ok(ErrorKind::UnexpectedEof),
        _ => Err(ValuesFault::Script),
    }
}

/// How many bytes there are, and whether they are the first of the pattern.
pub(crate) fn beginning(
    alloc: Global,
    pattern: &[u8],
    bytes: &[u8],
) -> Result<String, ValuesFault> {
    let order = if pattern.starts_with(bytes) {
        "in order"
    } else {
        "in disorder"
    };
    Ok(format!(in alloc; "{} {order}", bytes.len())?)
}

/// Plays a line, and gives what is answered to it, if anything is.
pub(crate) fn play(
    alloc: Global,
    devices: &mut Devices,
    line: &str,
) -> Result<Option<String>, ValuesFault> {
    let (word, rest) = first_word(line);
    if word == "sink" {
        devices.sink = sinks::sink(alloc, rest)?;
        return Ok(None);
    }
    Ok(Some(answer(alloc, devices, word, rest)?))
}

// What is answered to a line that asks.
fn answer(
    alloc: Global,
    devices: &mut Devices,
    word: &str,
    rest: &str,
) -> Result<String, ValuesFault> {
    match word {
        "give" => sinks::give(alloc, devices, rest),
        "all" => sinks::all(alloc, devices, rest),
        "flush" => sinks::flush(alloc, &mut devices.sink),
        "bytes" => beginning(alloc, &devices.pattern, devices.sink.bytes()),
        "source" => readers::source(alloc, rest),
        "moved" => readers::move_bytes(alloc, &devices.pattern, rest),
        "read" => readers::read(alloc, &devices.pattern, rest),
        "stumbles" => readers::stumbles(alloc, rest),
        "failure" => Ok(format!(in alloc; "{}", Failure)?),
        _ => writers::answer(alloc, devices, word, rest),
    }
}
