//! Why a command is refused. A refused command changes nothing.
ghost use Rattle.std.specs.Prelude.{◌≡◌};
ghost use Rattle.house_rows.specs.Names.{refusal_name, refusal_number, refusal_status};

use status::Status;

/// Why a command, or a read, is refused: the first rule that fails.
#[derive(Clone, Copy, Debug)]
pub enum Refusal {
    /// The caller is no member.
    NoCaller,
    /// Only the house may ask for it.
    HouseOnly,
    /// Only the item's seller may ask for it.
    SellerOnly,
    /// There is no such item, category, member or question.
    Unknown,
    /// The moment is before the clock.
    MomentBehind,
    /// The moment is at or after the item's end.
    Ended,
    /// The item isn't open.
    NotOpen,
    /// The caller is the item's seller.
    OwnItem,
    /// The caller doesn't lead, and the maximum is under the floor.
    Low {
        /// The least maximum that is taken, in cents.
        floor: u64,
    },
    /// The caller leads, and the maximum isn't greater than its own.
    NotHigher,
    /// Somebody has bid.
    HasBids,
    /// The item can't be bought at once.
    NoBuyNow,
    /// The seller has an item with this code.
    LotExists,
    /// Another has this name.
    NameTaken,
    /// The question is answered.
    AlreadyAnswered,
    /// The caller has rated this sale.
    AlreadyGiven,
    /// The caller is neither the seller nor the buyer.
    NotParty,
    /// The item wasn't sold, or the sale is settled.
    NotSold,
    /// There are as many as there may be.
    Limit,
    /// A field is out of its range.
    Range,
}

impl Refusal {
    /// The name that an answer gives.
    pub fn name(self) -> &'static str
        ensures { result.now ≡ refusal_name self }
    {
        match self {
            Refusal::NoCaller => "NoCaller",
            Refusal::HouseOnly => "HouseOnly",
            Refusal::SellerOnly => "SellerOnly",
            Refusal::Unknown => "Unknown",
            Refusal::MomentBehind => "MomentBehind",
            Refusal::Ended => "Ended",
            Refusal::NotOpen => "NotOpen",
            Refusal::OwnItem => "OwnItem",
            Refusal::Low { .. } => "Low",
            Refusal::NotHigher => "NotHigher",
            Refusal::HasBids => "HasBids",
            Refusal::NoBuyNow => "NoBuyNow",
            Refusal::LotExists => "LotExists",
            Refusal::NameTaken => "NameTaken",
            Refusal::AlreadyAnswered => "AlreadyAnswered",
            Refusal::AlreadyGiven => "AlreadyGiven",
            Refusal::NotParty => "NotParty",
            Refusal::NotSold => "NotSold",
            Refusal::Limit => "Limit",
            Refusal::Range => "Range",
        }
    }

    /// The number that an answer gives, from 1 to 20.
    pub fn number(self) -> u32
        ensures { result ≡ refusal_number self }
    {
        match self {
            Refusal::NoCaller => 1,
            Refusal::HouseOnly => 2,
            Refusal::SellerOnly => 3,
            Refusal::Unknown => 4,
            Refusal::MomentBehind => 5,
            Refusal::Ended => 6,
            Refusal::NotOpen => 7,
            Refusal::OwnItem => 8,
            Refusal::Low { .. } => 9,
            Refusal::NotHigher => 10,
            Refusal::HasBids => 11,
            Refusal::NoBuyNow => 12,
            Refusal::LotExists => 13,
            Refusal::NameTaken => 14,
            Refusal::AlreadyAnswered => 15,
            Refusal::AlreadyGiven => 16,
            Refusal::NotParty => 17,
            Refusal::NotSold => 18,
            Refusal::Limit => 19,
            Refusal::Range => 20,
        }
    }

    /// The status of its answer: `BadRequest`, `Forbidden`, `NotFound` or `Conflict`.
    pub fn status(self) -> Status
        ensures { result ≡ refusal_status self }
    {
        match self {
            Refusal::NoCaller
            | Refusal::HouseOnly
            | Refusal::SellerOnly
            | Refusal::OwnItem
            | Refusal::NotParty => Status::Forbidden,
            Refusal::Unknown => Status::NotFound,
            Refusal::Range => Status::BadRequest,
            _ => Status::Conflict,
        }
    }
}
