//! The words of a line.
ghost use Rattle.std.specs.Prelude.{◌<◌};

use crate::fault::ScriptFault;
use house_rows::{Rating, Rows, Text};
use std::alloc::{AllocError, Global};
use std::str::SplitWhitespace;

/// The words of a line that aren't taken yet.
#[derive(Drop)]
pub(crate) struct Words<'l> {
    alloc: Global,
    words: SplitWhitespace<'l>,
}

impl<'l> Words<'l> {
    /// All words of a line.
    pub(crate) fn new(alloc: Global, line: &'l str) -> Words<'l> {
        Words {
            alloc,
            words: line.split_whitespace(),
        }
    }

    /// The next word, if there is one.
    pub(crate) fn next(&mut self) -> Option<&'l str> {
        self.words.next()
    }

    /// The next word.
    pub(crate) fn word(&mut self) -> Result<&'l str, ScriptFault> {
        self.next().ok_or(ScriptFault::Script)
    }

    /// The number that the next word spells.
    pub(crate) fn number(&mut self) -> Result<u64, ScriptFault> {
        Ok(self.word()?.parse()?)
    }

    /// The numbers that the next three words spell; where there are fewer words, the others are 0.
    pub(crate) fn numbers(&mut self) -> Result<[u64; 3], ScriptFault> {
        let mut numbers = [0; 3];
        for number in &mut numbers {
            if let Some(word) = self.next() {
                *number = word.parse()?;
            }
        }
        Ok(numbers)
    }

    /// The number that the next word spells, or none where it is `-`.
    pub(crate) fn number_or_none(&mut self) -> Result<Option<u64>, ScriptFault> {
        match self.word()? {
            "-" => Ok(None),
            word => Ok(Some(word.parse()?)),
        }
    }

    /// The number that the next word spells, if there is one.
    pub(crate) fn number_if_any(&mut self) -> Result<Option<u64>, ScriptFault> {
        match self.next() {
            None => Ok(None),
            Some(word) => Ok(Some(word.parse()?)),
        }
    }

    /// The pairs of numbers that all other words spell.
    pub(crate) fn pairs(&mut self) -> Result<Rows<(u64, u64)>, ScriptFault> {
        let mut pairs = Vec::new(self.alloc);
        for _ in 0..u64::MAX {
            let Some(word) = self.next() else {
                break;
            };
            let Ok(()) = pairs.push((word.parse()?, self.number()?)) else {
                return Err(ScriptFault::Memory);
            };
        }
        Ok(Rows::new(pairs))
    }

    /// The rating that the next word spells, or none where it spells no rating.
    pub(crate) fn rating(&mut self) -> Result<Option<Rating>, ScriptFault> {
        Ok(match self.word()? {
            "-1" => Some(Rating::Minus),
            "0" => Some(Rating::Zero),
            "1" => Some(Rating::Plus),
            _ => None,
        })
    }

    /// The text that the next word spells: `-` is an empty one, `_` a space, `%7f` a character by two
    /// digits, and `*40` at the end writes what comes before it so often.
    pub(crate) fn text(&mut self) -> Result<Text, ScriptFault> {
        let word = self.word()?;
        let (part, times) = match word.split_once('*') {
            Some((part, times)) => (part, times.parse()?),
            None => (word, 1u32),
        };
        let mut text = String::new(self.alloc);
        if part != "-" {
            for _ in 0..times {
                push(&mut text, part)?;
            }
        }
        Ok(Text::from_string(text)?)
    }
}

// Writes a part once.
fn push(text: &mut String, part: &str) -> Result<(), AllocError> {
    let mut characters = part.chars();
    while let Some(character) = characters.next() {
        match character {
            '_' => text.push(' ')?,
            '%' => {
                let high = digit(characters.next());
                text.push(char::from(high * 16 + digit(characters.next())))?;
            }
            other => text.push(other)?,
        }
    }
    Ok(())
}

// The value of a hexadecimal digit, from 0 to 15.
fn digit(character: Option<char>) -> u8
    ensures { result < 16 }
{
    match character {
        Some(c @ '0'..='9') => c as u8 - b'0',
        Some(c @ 'a'..='f') => c as u8 - b'a' + 10,
        _ => 0,
    }
}
