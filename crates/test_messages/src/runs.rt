//! A line of texts, in which equal ones that follow each other are written once, with their number.
use std::alloc::{AllocError, Global};
use std::fmt::Write;

/// The line, and the last text, which isn't in it yet.
#[derive(Drop)]
pub(crate) struct Runs {
    line: String,
    last: String,
    count: u32,
}

impl Runs {
    /// No texts.
    pub(crate) fn new(alloc: Global) -> Runs {
        Runs {
            line: String::new(alloc),
            last: String::new(alloc),
            count: 0,
        }
    }

    /// One text more.
    pub(crate) fn add(&mut self, text: String) -> Result<(), AllocError> {
        if self.last.as_str() != text.as_str() {
            self.flush()?;
            self.last = text;
        }
        self.count = self.count.saturating_add(1);
        Ok(())
    }

    // Writes the last text with its number.
    fn flush(&mut self) -> Result<(), AllocError> {
        if self.count > 0 {
            write!(self.line, "{}x {}, ", self.count, self.last)?;
        }
        self.count = 0;
        Ok(())
    }

    /// The line, with an ending.
    pub(crate) fn finish_line(mut self, ending: &str) -> Result<String, AllocError> {
        self.flush()?;
        self.line.push_str(ending)?;
        Ok(self.line)
    }
}
