//! A stream of messages, and where each of them ends.
use std::alloc::{AllocError, Global};

/// Messages in a row, and perhaps what is none after them.
#[derive(Drop)]
pub(crate) struct Stream {
    text: String,
    /// After how many bytes each message ends.
    pub(crate) ends: Vec<usize>,
}

impl Stream {
    /// A stream of nothing.
    pub(crate) fn new(alloc: Global) -> Stream {
        Stream {
            text: String::new(alloc),
            ends: Vec::new(alloc),
        }
    }

    /// The bytes.
    pub(crate) fn bytes(&self) -> &[u8] {
        self.text.as_bytes()
    }

    /// Adds a message.
    pub(crate) fn add_message(&mut self, message: &str) -> Result<(), AllocError> {
        self.text.push_str(message)?;
        self.ends.push(self.text.len())?;
        Ok(())
    }

    /// Adds what is no message.
    pub(crate) fn add(&mut self, text: &str) -> Result<(), AllocError> {
        self.text.push_str(text)
    }

    /// How many messages end within so many bytes.
    pub(crate) fn whole_within(&self, length: usize) -> usize {
        let mut count = 0usize;
        for end in &self.ends {
            if *end <= length {
                count = count.saturating_add(1);
            }
        }
        count
    }
}
