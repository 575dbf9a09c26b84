//! A reader of std as a source.
ghost use Rattle.std.specs.Prelude.{◌≡◌, false};

use crate::failure::Failure;
use crate::source::Source;
use std::io::Read;

/// A reader of std as a source. Any error of the reader is a failure, also an interrupted call and
/// one that is out of memory.
#[derive(Drop)]
pub struct Reading<R: Read> {
    reader: R,
    failed: bool,
}

impl<R: Read> Reading<R> {
    ghost use Rattle.device.specs.Reading.{reader_of, reading_has_failed};

    /// The reader as a source that has not failed.
    pub fn new(reader: R) -> Reading<R>
        ensures reader { reader_of result ≡ reader }
        ensures failed { reading_has_failed result ≡ false }
    {
        Reading {
            reader,
            failed: false,
        }
    }
}

impl<R: Read> Source for Reading<R> {
    ghost left = { λ s. R.remaining s.reader };

    ghost has_failed = { λ s. s.failed };

    fn take(&mut self, into: &mut [u8]) -> Result<usize, Failure> {
        if self.failed {
            return Err(Failure);
        }
        match self.reader.read(into) {
            Ok(count) => Ok(count),
            Err(_) => {
                self.failed = true;
                Err(Failure)
            }
        }
    }
}
