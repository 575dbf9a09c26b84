//! What a house is set up with.
ghost use Rattle.std.specs.Prelude.{◌≡◌, ◌≤◌, ◌↔◌, IsSome, IfSome};

use crate::text::Text;
use std::marker::Model;
use steps::Bands;

/// The greatest rate.
pub const MOST_RATE: u64 = 2000;

/// The rate of the fee in ten-thousandths of a price, from 0 to 2000. Clauses see the number.
#[derive(Clone, Copy)]
pub struct Rate {
    value: u64,
}

impl Model for Rate {
    ghost use Rattle.std.specs.Prelude.{ℕ, ◌≤◌};

    ghost Value = { ℕ };

    ghost view = { λ r. r.value };

    ghost invariant = { λ r. r.value ≤ 2000 };

    ghost inverse = { λ n. record { value = n } };
}

impl Rate {
    /// The rate of so many ten-thousandths; none over 2000.
    pub const fn new(value: u64) -> Option<Rate>
        ensures within { IsSome result ↔ (value ≤ 2000) }
        ensures value { IfSome result (λ r. r ≡ value) }
    {
        if value <= MOST_RATE {
            Some(Rate { value })
        } else {
            None
        }
    }

    /// The rate in ten-thousandths.
    pub const fn value(self) -> u64
        ensures value { result ≡ self }
        ensures within { result ≤ 2000 }
    {
        self.value
    }
}

/// What a house is set up with. It never changes.
#[derive(Drop)]
pub struct Settings {
    /// The first band table.
    pub bands: Bands,
    /// The rate of the fee.
    pub rate: Rate,
    /// The rule of the zone by which days are counted.
    pub zone: Text,
}
