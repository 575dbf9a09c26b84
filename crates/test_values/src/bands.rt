//! The section on band tables: what its lines may be, and what is answered to them.
//!
//! `text T` begins a text, `add T` adds to it, and `bands N` adds N records of a table with steps
//! of five cents. `table` gives the bands that the text is read as, or its fault, `read T` the same
//! of the text T, and `failing N` what comes of a reader that gives the text a byte a read and
//! fails after N reads. `rows A S A S ..` gives the table of rows, `fifty A S ..` that of rows
//! after fifty good ones. `example` gives the example table, `step N` the step of it at so many
//! cents and the least amount above that may be bid, and `faults` has a line for each.
use crate::script::ValuesFault;
use crate::words::first_word;
use crate::{tables, words};
use std::alloc::Global;
use steps::Bands;

/// What the lines work on.
#[derive(Drop)]
pub(crate) struct Tables {
    text: Vec<u8>,
    example: Bands,
}

impl Tables {
    /// An empty text.
    pub(crate) fn new(alloc: Global) -> Result<Tables, ValuesFault> {
        Ok(Tables {
            text: Vec::new(alloc),
            example: Bands::example(alloc).map_err(|_| ValuesFault::Memory)?,
        })
    }
}

/// Plays a line, and gives what is answered to it, if anything is.
pub(crate) fn play(
    alloc: Global,
    on: &mut Tables,
    line: &str,
) -> Result<Option<String>, ValuesFault> {
    let (word, rest) = first_word(line);
    match word {
        "text" => {
            on.text.clear();
            words::push(&mut on.text, rest)?;
        }
        "add" => words::push(&mut on.text, rest)?,
        "bands" => tables::push_bands(alloc, &mut on.text, rest)?,
        _ => return Ok(Some(answer(alloc, on, word, rest)?)),
    }
    Ok(None)
}

// What is answered to a line.
fn answer(alloc: Global, on: &mut Tables, word: &str, rest: &str) -> Result<String, ValuesFault> {
    match word {
        "read" => {
            on.text.clear();
            words::push(&mut on.text, rest)?;
            tables::read(alloc, &on.text)
        }
        "table" => tables::read(alloc, &on.text),
        "failing" => tables::failing(alloc, &on.text, rest),
        "rows" => tables::rows(alloc, 0, rest),
        "fifty" => tables::rows(alloc, 50, rest),
        "step" => tables::step(alloc, &on.example, rest),
        "example" => tables::outcome(alloc, Bands::example(alloc)),
        "faults" => Ok(tables::faults(alloc)?),
        _ => Err(ValuesFault::Script),
    }
}
