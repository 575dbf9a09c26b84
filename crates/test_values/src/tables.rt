//! Band tables, made of rows and read from texts.
use crate::script::ValuesFault;
use crate::words::{amount, number};
use std::alloc::{AllocError, Global};
use std::fmt::Write;
use std::io;
use std::io::Read;
use steps::{Bands, BandsFault};

/// The bands of a table, or why there is none.
pub(crate) fn outcome(
    alloc: Global,
    table: Result<Bands, BandsFault>,
) -> Result<String, ValuesFault> {
    match table {
        Ok(bands) => Ok(format!(in alloc; "{:?}", bands.rows())?),
        Err(fault) => Ok(format!(in alloc; "{fault:?}")?),
    }
}

/// The table that a text is read as.
pub(crate) fn read(alloc: Global, text: &[u8]) -> Result<String, ValuesFault> {
    outcome(alloc, Bands::read(alloc, text))
}

// Gives its text a byte a read, and fails once so many reads have been answered.
#[derive(Drop)]
struct Broken<'a> {
    text: &'a [u8],
    given: usize,
    reads_left: usize,
}

impl Read for Broken<'_> {
    fn read(&mut self, buf: &mut [u8]) -> io::Result<usize> {
        if self.reads_left == 0 {
            return Err(io::Error::from(io::ErrorKind::BrokenPipe));
        }
        self.reads_left -= 1;
        match (self.text.get(self.given), buf.first_mut()) {
            (Some(byte), Some(place)) => {
                *place = *byte;
                self.given = self.given.saturating_add(1);
                Ok(1)
            }
            _ => Ok(0),
        }
    }
}

/// What comes of a reader of the text that fails after so many reads.
pub(crate) fn failing(alloc: Global, text: &[u8], word: &str) -> Result<String, ValuesFault> {
    let source = Broken {
        text,
        given: 0,
        reads_left: number(word)?,
    };
    outcome(alloc, Bands::read(alloc, source))
}

/// Adds records of bands that begin at 0, 1 and so on, with steps of five cents.
pub(crate) fn push_bands(alloc: Global, text: &mut Vec<u8>, word: &str) -> Result<(), ValuesFault> {
    let bands: u32 = number(word)?;
    for at in 0..bands {
        let record = format!(in alloc; "{at},5\n")?;
        text.extend_from_slice(record.as_str().as_bytes())?;
    }
    Ok(())
}

/// The table of so many good rows, and after them those that a line spells.
pub(crate) fn rows(alloc: Global, good: u64, line: &str) -> Result<String, ValuesFault> {
    let mut rows = Vec::new(alloc);
    for at in 0..good {
        rows.push((at, 5)).map_err(|_| ValuesFault::Memory)?;
    }
    let mut at = None;
    for word in line.split_ascii_whitespace() {
        match at {
            Some(begin) => {
                let step = number(word)?;
                rows.push((begin, step)).map_err(|_| ValuesFault::Memory)?;
                at = None;
            }
            None => at = Some(number(word)?),
        }
    }
    let table = Bands::of_rows(alloc, &rows);
    let is_reported_otherwise = match &table {
        Ok(_) => !Bands::are_rows(&rows),
        Err(BandsFault::Memory) => false,
        Err(_) => Bands::are_rows(&rows),
    };
    if is_reported_otherwise {
        return Err(ValuesFault::Table);
    }
    outcome(alloc, table)
}

/// The step at an amount, and the least amount above it that may be bid.
pub(crate) fn step(alloc: Global, bands: &Bands, word: &str) -> Result<String, ValuesFault> {
    let amount = amount(word)?;
    let (step, over) = (bands.step(amount), bands.over(amount));
    Ok(format!(in alloc; "{step} {over}")?)
}

const FAULTS: [BandsFault; 9] = [
    BandsFault::Csv,
    BandsFault::Head,
    BandsFault::Row { row: 3 },
    BandsFault::First,
    BandsFault::Order { row: 7 },
    BandsFault::Falls { row: 2 },
    BandsFault::TooMany,
    BandsFault::Device,
    BandsFault::Memory,
];

/// Every fault: its name, its number, its row and how it is shown.
pub(crate) fn faults(alloc: Global) -> Result<String, AllocError> {
    let mut lines = String::new(alloc);
    for fault in FAULTS {
        let (name, number, row) = (fault.name(), fault.number(), fault.row());
        write!(lines, "{fault:?}: {name} {number} {row:?} {fault}\n")?;
    }
    Ok(lines)
}
