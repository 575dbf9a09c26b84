//! The section of streams: what a line of it may be, and what is reported of it.
//!
//! `post MEMBER MOMENT TARGET BODY` and `get MEMBER TARGET` add a message to the stream, and `raw
//! TEXT` adds bytes. `house` makes what the stream holds the messages by which each house begins,
//! and empties it, as `clear` does. `takes N`, `gives N` and `flushes N` serve the stream over
//! houses of their own, in pieces of N bytes, with each such call failing in turn. `socket` serves
//! it over a connection, and reports what the other end reads. `connect` makes what the stream
//! holds a connection that waits, and empties it; `connections N` serves the first N of them in
//! turn over one house. An empty line, and one that begins with `--`, reports nothing.
use crate::failures::{Calls, tell};
use crate::fault::SiteFault;
use crate::message::{command, first_word, read};
use crate::socket::tell_received;
use crate::stream::Stream;
use crate::turns::tell_each;
use std::alloc::{AllocError, Global};
use transcript::echo;

/// What the lines work on.
#[derive(Drop)]
pub(crate) struct Stage {
    /// The messages by which each house begins.
    pub(crate) setup: Stream,
    /// The stream that is served.
    pub(crate) stream: Stream,
    /// The connections that wait.
    pub(crate) connections: Vec<Stream>,
}

impl Stage {
    // No messages.
    fn new(alloc: Global) -> Stage {
        Stage {
            setup: Stream::new(alloc),
            stream: Stream::new(alloc),
            connections: Vec::new(alloc),
        }
    }

    // What the stream holds, which is then empty.
    fn take(&mut self, alloc: Global) -> Stream {
        std::mem::replace(&mut self.stream, Stream::new(alloc))
    }

    // What the stream holds is how each house begins.
    fn begin(&mut self, alloc: Global) {
        self.setup = self.take(alloc);
    }

    // What the stream holds is a connection that waits.
    fn connect(&mut self, alloc: Global) -> Result<(), SiteFault> {
        let stream = self.take(alloc);
        match self.connections.push(stream) {
            Ok(()) => Ok(()),
            Err(_) => Err(SiteFault::Memory),
        }
    }

    // Empties the stream.
    fn clear(&mut self, alloc: Global) {
        self.stream = Stream::new(alloc);
    }
}

/// Plays the lines of a section on a stage of their own. What owns the stage has one end: each end
/// more would drop it once more.
pub(crate) fn play(rt: &HostRuntime, alloc: Global, lines: &str) -> Result<(), SiteFault> {
    let mut stage = Stage::new(alloc);
    play_lines(rt, alloc, &mut stage, lines)
}

// Plays lines on a stage.
fn play_lines(
    rt: &HostRuntime,
    alloc: Global,
    stage: &mut Stage,
    lines: &str,
) -> Result<(), SiteFault> {
    for line in lines.lines() {
        play_line(rt, alloc, stage, line)?;
    }
    Ok(())
}

// Plays a line, and prints what is reported.
fn play_line(
    rt: &HostRuntime,
    alloc: Global,
    stage: &mut Stage,
    line: &str,
) -> Result<(), SiteFault> {
    let line = echo(rt, line)?;
    if let Some(report) = tell_line(rt, alloc, stage, line)? {
        println!(rt; "{report}")?;
    }
    Ok(())
}

// The number that a word writes.
fn number(word: &str) -> Result<usize, SiteFault> {
    match word.parse::<u32>() {
        Ok(number) => Ok(number as usize),
        Err(_) => Err(SiteFault::Script),
    }
}

// Plays a line, and reports what came of it, if anything did.
fn tell_line(
    rt: &HostRuntime,
    alloc: Global,
    stage: &mut Stage,
    line: &str,
) -> Result<Option<String>, SiteFault> {
    let (word, rest) = first_word(line);
    match word {
        "socket" => tell_received(rt, alloc, stage),
        "takes" => tell(alloc, stage, Calls::Takes, number(rest)?),
        "gives" => tell(alloc, stage, Calls::Gives, number(rest)?),
        "flushes" => tell(alloc, stage, Calls::Flushes, number(rest)?),
        "connections" => tell_each(alloc, stage, number(rest)? as u64),
        _ => {
            prepare(alloc, stage, word, rest)?;
            Ok(None)
        }
    }
}

// Plays a line of which nothing is reported.
fn prepare(alloc: Global, stage: &mut Stage, word: &str, rest: &str) -> Result<(), SiteFault> {
    match word {
        "" | "--" => Ok(()),
        "post" => add(&mut stage.stream, command(alloc, rest)),
        "get" => add(&mut stage.stream, read(alloc, rest)),
        "raw" => Ok(stage.stream.add(rest)?),
        "house" => {
            stage.begin(alloc);
            Ok(())
        }
        "clear" => {
            stage.clear(alloc);
            Ok(())
        }
        "connect" => stage.connect(alloc),
        _ => Err(SiteFault::Script),
    }
}

// Adds a message.
fn add(stream: &mut Stream, message: Result<String, AllocError>) -> Result<(), SiteFault> {
    let message = message?;
    Ok(stream.add_message(message.as_str())?)
}
