//! A list of messages: what a line of the section of runs may be, and what is reported of it.
//!
//! `house RATE ZONE` begins a list of messages to new houses of a rate and a zone, by the example
//! table; `band AT STEP` adds a band of a table of their own. `post MEMBER MOMENT TARGET BODY` and
//! `get MEMBER TARGET` add a message, and `text N` the N bytes that follow, and a line end after
//! them, which aren't printed.
//!
//! Each other line plays the list over new houses, and reports the replies, a line end after each,
//! and the record. `answers lists` and `answers database` give each message by itself, `run lists`
//! and `run database` the whole list; `all` does all of these, and says which are the same. An
//! empty line, and one that begins with `--`, reports nothing.
//!
//! `replay WORDS` gives the list as one stream to `replay_run`, over a house in lists and one in a
//! database. It reports how that ended, what was written and a line end, the line of a fault, and
//! whether both are the same. WORDS are `preset`, `record`, both in this order or none.
use crate::messages::{command, first_word, read};
use crate::replay::play_replay;
use crate::run_player::{Form, Tables, play_all, play_list};
use auction_words::Replay;
use house_rows::{Rate, Settings, Text};
use house_script::ScriptFault;
use std::alloc::{AllocError, Global};
use steps::{Bands, BandsFault};

/// What is left of a script.
#[derive(Drop)]
pub(crate) struct Script<'s> {
    pub(crate) rest: &'s [u8],
}

impl<'s> Script<'s> {
    /// The next line, if there is one.
    pub(crate) fn line(&mut self) -> Result<Option<&'s str>, ScriptFault> {
        if self.rest.is_empty() {
            return Ok(None);
        }
        let end = self.rest.iter().position(|byte| *byte == b'\n');
        let line = self.bytes(end.ok_or(ScriptFault::Script)?)?;
        match str::from_utf8(line) {
            Ok(text) => Ok(Some(text)),
            Err(_) => Err(ScriptFault::Script),
        }
    }

    // So many bytes, and a line end after them, which is left out.
    fn bytes(&mut self, count: usize) -> Result<&'s [u8], ScriptFault> {
        if count > self.rest.len() {
            return Err(ScriptFault::Script);
        }
        let (bytes, rest) = self.rest.split_at(count);
        match rest.split_first() {
            Some((_, after)) => self.rest = after,
            None => return Err(ScriptFault::Script),
        }
        Ok(bytes)
    }
}

/// What the lines of a script work on.
#[derive(Drop)]
pub(crate) struct Stage {
    rate: u64,
    zone: String,
    bands: Vec<(u64, u64)>,
    /// The list: texts that are to be a message each.
    pub(crate) messages: Vec<Vec<u8>>,
}

impl Stage {
    /// No messages, to houses of the zone UTC.
    pub(crate) fn new(alloc: Global) -> Stage {
        Stage {
            rate: 0,
            zone: String::new(alloc),
            bands: Vec::new(alloc),
            messages: Vec::new(alloc),
        }
    }

    // Begins a list to new houses.
    fn begin(&mut self, line: &str) -> Result<(), ScriptFault> {
        let (rate, zone) = first_word(line);
        self.rate = number(rate)?;
        self.zone.clear();
        self.zone.push_str(zone)?;
        self.bands.clear();
        self.messages.clear();
        Ok(())
    }

    // Adds a band.
    fn add_band(&mut self, line: &str) -> Result<(), ScriptFault> {
        let (at, step) = first_word(line);
        let band = (number(at)?, number(step)?);
        match self.bands.push(band) {
            Ok(()) => Ok(()),
            Err(_) => Err(ScriptFault::Memory),
        }
    }

    // Adds a text.
    fn add(&mut self, alloc: Global, text: &[u8]) -> Result<(), AllocError> {
        self.messages.push(Vec::from_slice(alloc, text)?)?;
        Ok(())
    }

    // Adds a message.
    fn add_message(
        &mut self,
        alloc: Global,
        message: Result<String, AllocError>,
    ) -> Result<(), ScriptFault> {
        let message = message?;
        Ok(self.add(alloc, message.as_bytes())?)
    }

    // Adds the bytes that follow a line.
    fn add_text(
        &mut self,
        alloc: Global,
        script: &mut Script<'_>,
        count: &str,
    ) -> Result<(), ScriptFault> {
        let Ok(count) = count.parse::<usize>() else {
            return Err(ScriptFault::Script);
        };
        let text = script.bytes(count)?;
        Ok(self.add(alloc, text)?)
    }

    /// The list as one stream.
    pub(crate) fn stream(&self, alloc: Global) -> Result<Vec<u8>, AllocError> {
        let mut stream = Vec::new(alloc);
        for message in &self.messages {
            stream.extend_from_slice(message)?;
        }
        Ok(stream)
    }

    // The table of the houses.
    fn bands(&self, alloc: Global) -> Result<Bands, ScriptFault> {
        let bands = if self.bands.is_empty() {
            Bands::example(alloc)
        } else {
            Bands::of_rows(alloc, &self.bands)
        };
        match bands {
            Ok(bands) => Ok(bands),
            Err(BandsFault::Memory) => Err(ScriptFault::Memory),
            Err(_) => Err(ScriptFault::Script),
        }
    }

    /// The settings of the houses.
    pub(crate) fn settings(&self, alloc: Global) -> Result<Settings, ScriptFault> {
        let rate = Rate::new(self.rate).ok_or(ScriptFault::Script)?;
        let zone = Text::copy_of(alloc, self.zone.as_str())?;
        let bands = self.bands(alloc)?;
        Ok(Settings { bands, rate, zone })
    }
}

// The number that a word writes.
fn number(word: &str) -> Result<u64, ScriptFault> {
    match word.parse::<u64>() {
        Ok(number) => Ok(number),
        Err(_) => Err(ScriptFault::Script),
    }
}

/// Plays a line, and what follows it in the script where it is part of it, and reports what came of
/// it.
pub(crate) fn tell_line(
    alloc: Global,
    stage: &mut Stage,
    script: &mut Script<'_>,
    line: &str,
    report: &mut Vec<u8>,
) -> Result<(), ScriptFault> {
    let (word, rest) = first_word(line);
    match word {
        "" | "--" => Ok(()),
        "house" => stage.begin(rest),
        "band" => stage.add_band(rest),
        "post" => stage.add_message(alloc, command(alloc, rest)),
        "get" => stage.add_message(alloc, read(alloc, rest)),
        "text" => stage.add_text(alloc, script, rest),
        "all" => play_all(alloc, stage, report),
        "answers" => play_list(alloc, stage, tables(rest)?, Form::Replies, report),
        "run" => play_list(alloc, stage, tables(rest)?, Form::Run, report),
        "replay" => play_replay(alloc, stage, replay(rest)?, report),
        _ => Err(ScriptFault::Script),
    }
}

// The tables that a word names.
fn tables(word: &str) -> Result<Tables, ScriptFault> {
    match word {
        "lists" => Ok(Tables::Lists),
        "database" => Ok(Tables::Database),
        _ => Err(ScriptFault::Script),
    }
}

// What words ask of a replay.
fn replay(words: &str) -> Result<Replay, ScriptFault> {
    let (preset, record) = match words {
        "" => (false, false),
        "preset" => (true, false),
        "record" => (false, true),
        "preset record" => (true, true),
        _ => return Err(ScriptFault::Script),
    };
    Ok(Replay { preset, record })
}
