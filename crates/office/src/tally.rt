//! How many rows of a lot file became what.
ghost use Rattle.std.specs.Prelude.{◌≡◌, ◌<◌};
ghost use Rattle.office.specs.Tallies.{counted, nothing, sum_of};

use crate::outcome::Outcome;

/// How many rows of a lot file became what.
#[derive(Clone, Copy)]
pub struct Imported {
    /// Rows whose item was listed.
    pub listed: u64,
    /// Rows whose seller had an item with this code already.
    pub there: u64,
    /// Rows that can't be read, or were refused for another cause.
    pub refused: u64,
}

impl Imported {
    /// The count of no row.
    pub(crate) fn none() -> Imported
        ensures { result ≡ nothing }
    {
        Imported {
            listed: 0,
            there: 0,
            refused: 0,
        }
    }

    /// The count with one row more.
    pub(crate) fn with_outcome(self, outcome: Outcome) -> Imported
        requires { sum_of self < 18446744073709551615 }
        ensures { result ≡ counted self outcome }
    {
        match outcome {
            Outcome::Listed => Imported {
                listed: self.listed + 1,
                ..self
            },
            Outcome::There => Imported {
                there: self.there + 1,
                ..self
            },
            Outcome::Refused => Imported {
                refused: self.refused + 1,
                ..self
            },
        }
    }
}
