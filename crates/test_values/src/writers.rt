//! Writers of std as gathering sinks.
use crate::devices::{Devices, beginning, error_of};
use crate::script::ValuesFault;
use crate::words::{first_word, number, optional};
use device::{Failure, Sink, Writing, give_all};
use std::alloc::Global;
use std::fmt::Write as _;
use std::io;
use std::io::{ErrorKind, Write};

/// A writer that takes at most so many bytes a call and fails once it took so many calls. It notes
/// how many bytes it was offered in each.
#[derive(Drop)]
pub(crate) struct Log {
    bytes: Vec<u8>,
    offered: Vec<usize>,
    flushes: u32,
    most: usize,
    calls_left: u32,
    error: ErrorKind,
}

impl Log {
    /// A writer that saw nothing.
    pub(crate) fn new(alloc: Global, most: usize, calls_left: u32, error: ErrorKind) -> Log {
        Log {
            bytes: Vec::new(alloc),
            offered: Vec::new(alloc),
            flushes: 0,
            most,
            calls_left,
            error,
        }
    }
}

impl Write for Log {
    fn write(&mut self, buf: &[u8]) -> io::Result<usize> {
        self.offered.push(buf.len())?;
        if self.calls_left == 0 {
            return Err(self.error.into());
        }
        self.calls_left -= 1;
        let count = self.most.min(buf.len());
        self.bytes.extend_from_slice(&buf[..count])?;
        Ok(count)
    }

    fn flush(&mut self) -> io::Result<()> {
        self.flushes = self.flushes.saturating_add(1);
        if self.calls_left == 0 {
            return Err(self.error.into());
        }
        Ok(())
    }
}

/// What is answered to a line on a writer.
pub(crate) fn answer(
    alloc: Global,
    devices: &mut Devices,
    word: &str,
    rest: &str,
) -> Result<String, ValuesFault> {
    match word {
        "write" => write_steps(alloc, devices, rest),
        "offered" => Ok(format!(in alloc; "{:?}", devices.log.offered.as_slice())?),
        "calls" => Ok(format!(in alloc; "{}", devices.log.offered.len())?),
        "written" => {
            let bytes = beginning(alloc, &devices.pattern, &devices.log.bytes)?;
            Ok(format!(in alloc; "{} {}", devices.log.flushes, bytes.as_str())?)
        }
        _ => Err(ValuesFault::Script),
    }
}

// Makes the steps of a line on a new writer.
fn write_steps(alloc: Global, devices: &mut Devices, line: &str) -> Result<String, ValuesFault> {
    let (most, line) = first_word(line);
    let (calls, line) = first_word(line);
    let (error, steps) = first_word(line);
    let most = optional(most)?.unwrap_or(usize::MAX);
    let calls = optional(calls)?.unwrap_or(u32::MAX);
    devices.log = Log::new(alloc, most, calls, error_of(error)?);
    let mut answer = String::new(alloc);
    let mut sink = Writing::new(&mut devices.log);
    push_steps(&mut answer, &mut sink, &devices.pattern, steps)?;
    Ok(answer)
}

// Makes steps with the bytes of a pattern, and adds the outcome of each.
fn push_steps<W: Sink>(
    answer: &mut String,
    sink: &mut W,
    pattern: &[u8],
    steps: &str,
) -> Result<(), ValuesFault> {
    let mut rest = pattern;
    for word in steps.split_ascii_whitespace() {
        let (outcome, count) = step(sink, rest, word)?;
        let shown = if outcome.is_ok() { "ok " } else { "failed " };
        answer.push_str(shown)?;
        rest = &rest[count.min(rest.len())..];
    }
    Ok(())
}

// Makes a step, and gives its outcome and how many bytes went.
fn step<W: Sink>(
    sink: &mut W,
    rest: &[u8],
    word: &str,
) -> Result<(Result<(), Failure>, usize), ValuesFault> {
    if word == "flush" {
        return Ok((sink.flush(), 0));
    }
    if let Some(once) = word.strip_prefix('+') {
        let count: usize = number(once)?;
        return Ok(match sink.give(&rest[..count.min(rest.len())]) {
            Ok(given) => (Ok(()), given),
            Err(failure) => (Err(failure), 0),
        });
    }
    let count: usize = number(word)?;
    Ok((give_all(sink, &rest[..count.min(rest.len())]), count))
}
