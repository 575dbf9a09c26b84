//! The section of pages: what a line of it may be, and what is shown to it, which has to be the
//! page's tree's text too.
//!
//! `house ZONE` begins a house without members; before the first of these lines the house is one of
//! the zone UTC0. `post MEMBER MOMENT TARGET BODY` is a command that it accepts, and `each COUNT
//! MEMBER MOMENT TARGET BODY` so many of them, with the numbers from 1 on in the place of `#`. `get
//! MEMBER TARGET` shows a page, and `record` the public record; where memory was refused they show
//! `memory`. An empty line, and one that begins with `--`, shows nothing.
use crate::fault::SiteFault;
use crate::message::{command, first_word, read};
use crate::player::House;
use crate::reader::Reader;
use std::alloc::{AllocError, Global};
use std::fmt::Write;
use transcript::echo;

// What the lines work on: what reads messages, and a house.
#[derive(Drop)]
struct Stage {
    reader: Reader,
    house: House,
}

impl Stage {
    // A house without members, of the zone UTC0.
    fn new(alloc: Global) -> Result<Stage, SiteFault> {
        Ok(Stage {
            reader: Reader::new(alloc)?,
            house: House::new(alloc, "UTC0")?,
        })
    }
}

/// Plays the lines of a section on a stage of their own. What owns the stage has one end: each end
/// more would drop it once more.
pub(crate) fn play(rt: &impl Print, alloc: Global, lines: &str) -> Result<(), SiteFault> {
    let mut stage = Stage::new(alloc)?;
    play_lines(rt, alloc, &mut stage, lines)
}

// Plays lines on a stage.
fn play_lines(
    rt: &impl Print,
    alloc: Global,
    stage: &mut Stage,
    lines: &str,
) -> Result<(), SiteFault> {
    for line in lines.lines() {
        play_line(rt, alloc, stage, line)?;
    }
    Ok(())
}

// Plays a line, and prints what is shown.
fn play_line(
    rt: &impl Print,
    alloc: Global,
    stage: &mut Stage,
    line: &str,
) -> Result<(), SiteFault> {
    let line = echo(rt, line)?;
    match show(alloc, stage, line)? {
        None => Ok(()),
        Some(shown) => print(rt, &shown),
    }
}

// Prints what is shown.
fn print(rt: &impl Print, shown: &[u8]) -> Result<(), SiteFault> {
    match str::from_utf8(shown) {
        Ok(text) => Ok(println!(rt; "{text}")?),
        Err(_) => Err(SiteFault::Output),
    }
}

// Plays a line, and gives what is shown, if anything is.
fn show(alloc: Global, stage: &mut Stage, line: &str) -> Result<Option<Vec<u8>>, SiteFault> {
    let (word, rest) = first_word(line);
    match word {
        "" | "--" => Ok(None),
        "house" => {
            stage.house.renew(alloc, rest)?;
            Ok(None)
        }
        "post" => post(alloc, stage, rest),
        "each" => {
            each(alloc, stage, rest)?;
            Ok(None)
        }
        "get" => or_memory(alloc, get(alloc, stage, rest)),
        "record" => or_memory(alloc, stage.house.record(alloc)),
        _ => Err(SiteFault::Script),
    }
}

// What is shown, or that memory was refused.
fn or_memory(
    alloc: Global,
    shown: Result<Option<Vec<u8>>, SiteFault>,
) -> Result<Option<Vec<u8>>, SiteFault> {
    match shown {
        Err(SiteFault::Memory) => Ok(Some(b"memory".to_vec(alloc)?)),
        shown => shown,
    }
}

// What becomes of a message.
fn reply(alloc: Global, stage: &mut Stage, text: &str) -> Result<Option<Vec<u8>>, SiteFault> {
    let asked = stage.reader.ask(alloc, text)?;
    stage.house.reply(alloc, &asked)
}

fn get(alloc: Global, stage: &mut Stage, line: &str) -> Result<Option<Vec<u8>>, SiteFault> {
    let text = read(alloc, line)?;
    reply(alloc, stage, text.as_str())
}

fn post(alloc: Global, stage: &mut Stage, line: &str) -> Result<Option<Vec<u8>>, SiteFault> {
    let text = command(alloc, line)?;
    reply(alloc, stage, text.as_str())
}

// A line with a number in the place of each `#`.
fn with_number(alloc: Global, line: &str, number: u32) -> Result<String, AllocError> {
    let mut text = String::new(alloc);
    for (place, part) in line.split('#').enumerate() {
        if place > 0 {
            write!(text, "{number}")?;
        }
        text.push_str(part)?;
    }
    Ok(text)
}

fn each(alloc: Global, stage: &mut Stage, line: &str) -> Result<(), SiteFault> {
    let (count, line) = first_word(line);
    let Ok(count) = count.parse::<u32>() else {
        return Err(SiteFault::Script);
    };
    for number in 0..count {
        let line = with_number(alloc, line, number.saturating_add(1))?;
        if post(alloc, stage, line.as_str())?.is_some() {
            return Err(SiteFault::Script);
        }
    }
    Ok(())
}
