//! Why a text is no amount.
ghost use Rattle.std.specs.Prelude.{◌≡◌};
ghost use Rattle.cents.specs.Fault.{number_of};

use thiserror::Error;

/// Why a text was not read as an amount. The first that fits, in this order.
#[derive(Clone, Copy, Debug, Error)]
pub enum CentsFault {
    /// The text is empty.
    #[error("no amount")]
    Empty = 1,
    /// The text is not digits, and then nothing or a point and two digits.
    #[error("not an amount")]
    Form = 2,
    /// The text spells an amount over `LIMIT`.
    #[error("amount over 10000000.00")]
    TooLarge = 3,
}

impl CentsFault {
    /// The number of the fault, from 1 to 3.
    pub fn number(self) -> u32
        ensures { result ≡ number_of self }
    {
        self as u32
    }
}
