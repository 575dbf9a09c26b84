//! Sources: in memory, and over readers of std.
use crate::devices::{beginning, error_of};
use crate::script::ValuesFault;
use crate::words::{first_word, number, optional};
use device::{Failure, MemorySink, MemorySource, Reading, Sink, Source, give_all};
use std::alloc::{AllocError, Global};
use std::fmt::Write;
use std::io;
use std::io::{ErrorKind, Read};

/// What comes of takes from a source in memory, and what was taken.
pub(crate) fn source(alloc: Global, line: &str) -> Result<String, ValuesFault> {
    let (text, line) = first_word(line);
    let (piece, line) = first_word(line);
    let (call, rooms) = first_word(line);
    let mut source = in_pieces(text.as_bytes(), piece)?;
    if let Some(call) = optional(call)? {
        if call == 0 {
            return Err(ValuesFault::Script);
        }
        source = source.failing_at(call);
    }
    let mut answer = String::new(alloc);
    let mut taken = String::new(alloc);
    push_takes(&mut answer, &mut taken, &mut source, rooms)?;
    answer.push_str(taken.as_str())?;
    Ok(answer)
}

fn in_pieces<'b>(bytes: &'b [u8], word: &str) -> Result<MemorySource<'b>, ValuesFault> {
    let piece = optional(word)?.unwrap_or(usize::MAX);
    if piece == 0 {
        return Err(ValuesFault::Script);
    }
    Ok(MemorySource::new(bytes).in_pieces(piece))
}

// Adds what comes of takes into rooms of at most ten bytes, and what was taken.
fn push_takes(
    answer: &mut String,
    taken: &mut String,
    source: &mut MemorySource,
    rooms: &str,
) -> Result<(), ValuesFault> {
    for room in rooms.split(' ') {
        let room: usize = number(room)?;
        let mut buffer = [0; 10];
        if room > buffer.len() {
            return Err(ValuesFault::Script);
        }
        let outcome = source.take(&mut buffer[..room]);
        write!(answer, "{outcome:?} ")?;
        for byte in &buffer[..outcome.unwrap_or(0)] {
            taken.push(char::from(*byte))?;
        }
    }
    Ok(())
}

// Moves a source into a sink, by a buffer of seven bytes, and gives the number of calls that found
// bytes; at most a thousand are made.
fn move_all<R: Source, W: Sink>(source: &mut R, sink: &mut W) -> Result<u32, Failure> {
    let mut buffer = [0; 7];
    for moved in 0..1000 {
        let count = source.take(&mut buffer)?;
        if count == 0 {
            sink.flush()?;
            return Ok(moved);
        }
        give_all(sink, &buffer[..count])?;
    }
    Ok(1000)
}

// How many calls find bytes where a source is moved into a sink, and what that has then.
fn outcome<R: Source>(
    alloc: Global,
    pattern: &[u8],
    source: &mut R,
    sink: &mut MemorySink,
) -> Result<String, ValuesFault> {
    let calls = move_all(source, sink);
    let bytes = beginning(alloc, pattern, sink.bytes())?;
    Ok(format!(in alloc; "{calls:?} {}", bytes.as_str())?)
}

fn of_pattern<'b>(pattern: &'b [u8], word: &str) -> Result<&'b [u8], ValuesFault> {
    let count: usize = number(word)?;
    Ok(&pattern[..count.min(pattern.len())])
}

/// Moves bytes from a source in memory to a sink.
pub(crate) fn move_bytes(alloc: Global, pattern: &[u8], line: &str) -> Result<String, ValuesFault> {
    let (count, line) = first_word(line);
    let (from, to) = first_word(line);
    let mut source = in_pieces(of_pattern(pattern, count)?, from)?;
    let piece = optional(to)?.unwrap_or(usize::MAX);
    if piece == 0 {
        return Err(ValuesFault::Script);
    }
    let mut sink = MemorySink::new(alloc).in_pieces(piece);
    outcome(alloc, pattern, &mut source, &mut sink)
}

/// Moves bytes from a reader of std to a sink.
pub(crate) fn read(alloc: Global, pattern: &[u8], word: &str) -> Result<String, ValuesFault> {
    let mut source = Reading::new(of_pattern(pattern, word)?);
    let mut sink = MemorySink::new(alloc);
    outcome(alloc, pattern, &mut source, &mut sink)
}

// A reader that fails once, at its second call, and would give bytes again after that.
#[derive(Drop)]
struct Stumbling {
    calls: u32,
    error: ErrorKind,
}

impl Read for Stumbling {
    fn read(&mut self, buf: &mut [u8]) -> io::Result<usize> {
        self.calls = self.calls.saturating_add(1);
        if self.calls == 2 {
            return Err(self.error.into());
        }
        Ok(buf.len())
    }
}

// Adds what comes of four takes of three bytes.
fn push_four_takes<R: Source>(answer: &mut String, source: &mut R) -> Result<(), AllocError> {
    for _ in 0..4 {
        let mut buffer = [0; 3];
        let outcome = source.take(&mut buffer);
        write!(answer, "{outcome:?} ")?;
    }
    Ok(())
}

/// What comes of four takes from a reader that fails once, and how many calls it had.
pub(crate) fn stumbles(alloc: Global, word: &str) -> Result<String, ValuesFault> {
    let mut reader = Stumbling {
        calls: 0,
        error: error_of(word)?,
    };
    let mut source = Reading::new(&mut reader);
    let mut answer = String::new(alloc);
    push_four_takes(&mut answer, &mut source)?;
    write!(answer, "{}", reader.calls)?;
    Ok(answer)
}
