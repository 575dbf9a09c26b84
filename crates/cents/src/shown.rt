//! How amounts are shown.
ghost use Rattle.std.specs.Prelude.{◌≡◌, Some};
ghost use Rattle.cents.specs.Spelling.{amount_text};

use crate::amount::Cents;
use std::fmt;
use std::marker::Model;

/// A number of cents that is shown as an amount is: a sum may pass `LIMIT`. Clauses see the number.
#[derive(Clone, Copy, PartialEq, Eq, PartialOrd, Ord)]
pub struct Shown {
    cents: u64,
}

impl Model for Shown {
    ghost use Rattle.std.specs.Prelude.{ℕ};

    ghost Value = { ℕ };

    ghost view = { λ s. s.cents };

    ghost inverse = { λ n. record { cents = n } };
}

/// So many cents, to be shown with two decimals: `0.05`.
pub const fn show(cents: u64) -> Shown
    ensures { result ≡ cents }
{
    Shown { cents }
}

impl fmt::Display for Shown {
    ghost output = { λ s. Some (amount_text s) };

    fn fmt<W: fmt::Write>(&self, f: &mut fmt::Formatter<W>) -> fmt::Result {
        write!(f, "{}.{:02}", self.cents / 100, self.cents % 100)
    }
}

impl fmt::Display for Cents {
    ghost output = { λ c. Some (amount_text c) };

    fn fmt<W: fmt::Write>(&self, f: &mut fmt::Formatter<W>) -> fmt::Result {
        show(self.value()).fmt(f)
    }
}
