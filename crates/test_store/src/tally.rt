//! How many stops there were, and what was found after them.
use std::alloc::{AllocError, Global};
use stop_files::Side;

/// What was found after a stop.
#[derive(Clone, Copy, Debug)]
pub(crate) enum Found {
    /// The house as it was before the command, which takes the command now.
    Before,
    /// The house as the command leaves it.
    After,
    /// The house before a command that was acknowledged.
    Lost,
    /// Another house, or none.
    Other,
    /// An answer that is neither the command's own nor that the store failed.
    Answer,
}

/// How many stops were tried, how many houses were opened after them, and what was found.
#[derive(Clone, Copy, Debug)]
pub(crate) struct Tally {
    stops: u64,
    houses: u64,
    before: u64,
    after: u64,
    // The first that was wrong: after how many calls of which file.
    wrong: Option<(Side, u64, Found)>,
}

impl Tally {
    /// No stop.
    pub(crate) fn new() -> Tally {
        Tally {
            stops: 0,
            houses: 0,
            before: 0,
            after: 0,
            wrong: None,
        }
    }

    /// One stop more.
    pub(crate) fn stop(&mut self) {
        self.stops = self.stops.saturating_add(1);
    }

    /// What was found in files that were opened again after so many calls of one.
    pub(crate) fn find(&mut self, side: Side, calls: u64, found: Found) {
        self.houses = self.houses.saturating_add(1);
        match found {
            Found::Before => self.before = self.before.saturating_add(1),
            Found::After => self.after = self.after.saturating_add(1),
            _ => self.wrong = self.wrong.or(Some((side, calls, found))),
        }
    }

    // Whether there was a stop, and before or after was found after each.
    fn is_right(&self) -> bool {
        self.wrong.is_none()
            && self.stops > 0
            && self.before.checked_add(self.after) == Some(self.houses)
    }

    /// The line that is reported of a command.
    pub(crate) fn verdict(&self, alloc: Global, name: &str) -> Result<String, AllocError> {
        if self.is_right() {
            format!(in alloc; "{name}: no stop lost it")
        } else {
            format!(in alloc; "wrong {name}: {self:?}")
        }
    }
}
