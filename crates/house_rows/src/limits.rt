//! The limits of the house, each in one place.
ghost use Rattle.std.specs.Prelude.{◌≡◌};
ghost use Rattle.house_rows.specs.Limits.{last_moment, most_bids, most_categories, most_cents, most_editions, most_items, most_members, most_questions, most_shown, most_watches};

/// The greatest number of a member, so how many there may be.
pub const MOST_MEMBERS: u32 = 100_000;

/// The greatest number of a category, so how many there may be.
pub const MOST_CATEGORIES: u32 = 1_000;

/// The greatest number of an item, so how many there may be.
pub const MOST_ITEMS: u32 = 1_000_000;

/// The greatest number of an edition of the band table, so how many there may be.
pub const MOST_EDITIONS: u32 = 100;

/// How many items a member may watch at a time.
pub const MOST_WATCHES: u64 = 200;

/// How many questions a member may ask on one item.
pub const MOST_QUESTIONS: u32 = 20;

/// The most rows of a list that begins at a number.
pub const MOST_SHOWN: usize = 50;

/// The limits are these numbers. Definitions of this crate and of `house` have them by name; in the
/// crates below, as in the rule of bids in `proxy`, and in some above, one may stand as a number.
pub fn limits_are_these_numbers()
    ensures moment { last_moment ≡ 4102444800 }
    ensures cents { most_cents ≡ 1000000000 }
    ensures members { most_members ≡ 100000 }
    ensures categories { most_categories ≡ 1000 }
    ensures items { most_items ≡ 1000000 }
    ensures bids { most_bids ≡ 10000 }
    ensures editions { most_editions ≡ 100 }
    ensures watches { most_watches ≡ 200 }
    ensures questions { most_questions ≡ 20 }
    ensures shown { most_shown ≡ 50 }
{}
