//! What a line of a script may be, and what is answered to it.
//!
//! A command is `MOMENT CALLER NAME WORD..`, and its answer `ok`, or the refusal's name, for `Low` with the
//! floor. `times N` before it gives it N times, until it is refused, `#` in it being the number of the time,
//! from 1; the answer is the refusal, or `ok`. A question is `? NAME WORD..`, and its answer `-` where there is
//! no such row. Where memory runs out the answer is `Memory`, and nothing is changed.
//!
//! `new` begins with an empty house. So does `record`, and from then on `fill` goes on with a house
//! that is filled with the changes so far; its answer is `ok`. An empty line, and one that begins
//! with `--`, has no answer. After the mark `> `, with which `transcript` prints it before its
//! answer, a line is played as without it.
use crate::fault::ScriptFault;
use crate::makes::Makes;
use crate::played::House;
use crate::script_line::ScriptLine;
use house_rows::{Keep, Refusal};
use std::alloc::{AllocError, Global};
use std::fmt;
use std::fmt::Write;

/// What is answered to a line.
#[derive(Drop)]
pub(crate) enum Answer {
    /// To a command, its refusal, if it is refused. It takes no memory, since the change is made.
    Ordered(Option<Refusal>),
    /// To a question.
    Report(String),
}

impl fmt::Display for Answer {
    fn fmt<W: Write>(&self, f: &mut fmt::Formatter<W>) -> fmt::Result {
        match self {
            Answer::Ordered(None) => write!(f, "ok"),
            Answer::Ordered(Some(Refusal::Low { floor })) => write!(f, "Low {floor}"),
            Answer::Ordered(Some(refusal)) => write!(f, "{}", refusal.name()),
            Answer::Report(text) => write!(f, "{text}"),
        }
    }
}

/// Plays a line, and gives what is answered to it, if anything is.
pub(crate) fn answer_to<K: Keep + Drop, M: Makes<K>>(
    alloc: Global,
    makes: &M,
    house: &mut House<K>,
    line: &str,
) -> Result<Option<Answer>, ScriptFault> {
    let (first, rest) = line.split_once(' ').unwrap_or((line, ""));
    match first {
        "" | "--" => Ok(None),
        "new" => {
            house.renew(alloc, makes)?;
            Ok(None)
        }
        "record" => {
            house.renew_recording(alloc, makes)?;
            Ok(None)
        }
        "fill" => {
            house.refill(alloc, makes)?;
            Ok(Some(Answer::Ordered(None)))
        }
        "?" => Ok(Some(Answer::Report(house.answer(alloc, rest)?))),
        "times" => Ok(Some(Answer::Ordered(repeat(alloc, house, rest)?))),
        _ => Ok(Some(Answer::Ordered(play_line(alloc, house, line)?))),
    }
}

// Gives a command so many times as is written before it, until it is refused.
fn repeat<K: Keep + Drop>(
    alloc: Global,
    house: &mut House<K>,
    counted: &str,
) -> Result<Option<Refusal>, ScriptFault> {
    let (times, command) = counted.split_once(' ').ok_or(ScriptFault::Script)?;
    let times: u64 = times.parse()?;
    for time in 1..=times {
        let command = with_number(alloc, command, time)?;
        let refusal = play_line(alloc, house, command.as_str())?;
        if refusal.is_some() {
            return Ok(refusal);
        }
    }
    Ok(None)
}

// A line with a number in the place of each `#`.
fn with_number(alloc: Global, line: &str, number: u64) -> Result<String, AllocError> {
    let mut text = String::new(alloc);
    for character in line.chars() {
        if character == '#' {
            write!(text, "{number}")?;
        } else {
            text.push(character)?;
        }
    }
    Ok(text)
}

// Gives a command, and says why it is refused, if it is.
fn play_line<K: Keep + Drop>(
    alloc: Global,
    house: &mut House<K>,
    line: &str,
) -> Result<Option<Refusal>, ScriptFault> {
    house.play_line(ScriptLine::of_line(alloc, line)?)
}
