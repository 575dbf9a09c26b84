//! Members and categories.
use crate::text::Text;

/// A member.
#[derive(Drop)]
pub struct Member {
    /// The number, from 1 to 100000, in order of registration.
    pub member: u32,
    /// The name, of 1 to 40 bytes. No other member has it.
    pub name: Text,
}

/// A category.
#[derive(Drop)]
pub struct Category {
    /// The number, from 1 to 1000.
    pub category: u32,
    /// The name, of 1 to 40 bytes. No other category has it.
    pub name: Text,
}

/// How many of each the house has. In sound tables, as those of a history are, they are at most
/// `MOST_MEMBERS`, `MOST_CATEGORIES` and `MOST_ITEMS`.
#[derive(Clone, Copy)]
pub struct Counts {
    /// Members.
    pub members: u32,
    /// Categories.
    pub categories: u32,
    /// Items.
    pub items: u32,
}

/// How often a member was rated with each rating.
#[derive(Clone, Copy)]
pub struct Ratings {
    /// How often with 1.
    pub plus: u64,
    /// How often with 0.
    pub zero: u64,
    /// How often with -1.
    pub minus: u64,
}
