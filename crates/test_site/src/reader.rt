//! What reads messages.
use crate::fault::SiteFault;
use json::Scratch;
use site_request::{Asked, Routes, read};
use std::alloc::Global;

/// What reads messages.
#[derive(Drop)]
pub(crate) struct Reader {
    routes: Routes,
    scratch: Scratch,
}

impl Reader {
    /// One that has read nothing yet.
    pub(crate) fn new(alloc: Global) -> Result<Reader, SiteFault> {
        Ok(Reader {
            routes: Routes::new(alloc)?,
            scratch: Scratch::new(alloc),
        })
    }

    /// What a message asks.
    pub(crate) fn ask(&mut self, alloc: Global, text: &str) -> Result<Asked, SiteFault> {
        match read(alloc, &self.routes, text.as_bytes(), &mut self.scratch) {
            Ok(asked) => Ok(asked),
            Err(_) => Err(SiteFault::Memory),
        }
    }
}
