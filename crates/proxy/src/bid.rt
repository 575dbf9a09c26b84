//! What a bid is, and why one is refused.
ghost use Rattle.std.specs.Prelude.{◌≡◌, Some};
ghost use Rattle.proxy.specs.Bids.{refusal_number, refusal_text};

use cents::Cents;
use std::error::Error;
use std::fmt;

/// An accepted bid.
#[derive(Clone, Copy)]
pub struct Bid {
    /// Who bids.
    pub member: u32,
    /// The sealed maximum.
    pub maximum: Cents,
    /// The number of the bid on its item, from 1.
    pub no: u32,
}

/// Why a bid is refused. The standing is then as it was.
#[derive(Clone, Copy, Debug)]
pub enum BidRefusal {
    /// The bidder doesn't lead, and the maximum is under the floor.
    Low {
        /// The least maximum that is taken, in cents.
        floor: u64,
    },
    /// The bidder leads, and the maximum isn't greater than its own.
    NotHigher,
    /// The item has all the bids that it may have.
    Full,
}

impl BidRefusal {
    /// The number of the refusal, from 1 to 3.
    pub fn number(self) -> u32
        ensures { result ≡ refusal_number self }
    {
        match self {
            BidRefusal::Low { .. } => 1,
            BidRefusal::NotHigher => 2,
            BidRefusal::Full => 3,
        }
    }
}

impl fmt::Display for BidRefusal {
    ghost output = { λ refusal. Some (refusal_text refusal) };

    fn fmt<W: fmt::Write>(&self, f: &mut fmt::Formatter<W>) -> fmt::Result {
        match self {
            BidRefusal::Low { floor } => write!(f, "the maximum is under the floor of {floor}"),
            BidRefusal::NotHigher => f.write_str("the maximum is not above the leader's own"),
            BidRefusal::Full => f.write_str("the item takes no more bids"),
        }
    }
}

impl Error for BidRefusal {}
