//! An amount, which is never over the limit.
ghost use Rattle.std.specs.Prelude.{◌≡◌, ◌≢◌, ◌≤◌, ◌<◌, ◌↔◌, ℕ, [], Ok, IsSome, IfSome, IsErrOf};
ghost use Rattle.cents.specs.Spelling.{IsSpelling};

use crate::digits;
use crate::fault::CentsFault;
use std::marker::Model;

/// The greatest amount, in cents: ten million of the whole coin.
pub const LIMIT: u64 = 1_000_000_000;

/// An amount of money in whole cents, from 0 to `LIMIT`. Clauses see the number.
#[derive(Clone, Copy, PartialEq, Eq, PartialOrd, Ord)]
pub struct Cents {
    value: u64,
}

impl Model for Cents {
    ghost use Rattle.std.specs.Prelude.{ℕ, ◌≤◌};
    ghost use Rattle.cents.specs.declared.amount.TheConstants.{LIMIT};

    ghost Value = { ℕ };

    ghost view = { λ c. c.value };

    ghost invariant = { λ c. c.value ≤ LIMIT };

    ghost inverse = { λ n. record { value = n } };
}

impl Cents {
    /// An amount of so many cents; none over the limit.
    pub const fn new(value: u64) -> Option<Cents>
        ensures within { IsSome result ↔ (value ≤ LIMIT) }
        ensures value { IfSome result (λ c. c ≡ value) }
    {
        if value <= LIMIT {
            Some(Cents { value })
        } else {
            None
        }
    }

    /// The amount in cents.
    pub const fn value(self) -> u64
        ensures value { result ≡ self }
        ensures within { result ≤ LIMIT }
    {
        self.value
    }

    /// The amount that a text spells: one digit or more for the whole coins, and then nothing or a
    /// point and exactly two digits for the cents. Zeros may lead. Takes no memory.
    pub fn parse(text: &str) -> Result<Cents, CentsFault>
        ensures ok { (n : ℕ) → (result ≡ Ok n) ↔ (IsSpelling text.now n × n ≤ LIMIT) }
        ensures empty { IsErrOf result CentsFault.Empty ↔ (text.now ≡ []) }
        ensures form { IsErrOf result CentsFault.Form ↔
            ((text.now ≢ []) × ((n : ℕ) → ¬ (IsSpelling text.now n))) }
        ensures too_large { IsErrOf result CentsFault.TooLarge ↔
            ((n : ℕ) × IsSpelling text.now n × LIMIT < n) }
    {
        let text = text.as_bytes();
        if text.is_empty() {
            return Err(CentsFault::Empty);
        }
        match digits::split_at_point(text) {
            Some((whole, cents)) => digits::amount(whole, cents),
            None => digits::amount(text, b"00"),
        }
    }
}
