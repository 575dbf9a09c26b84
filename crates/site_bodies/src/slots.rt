//! The members of an object that was read in one walk.
ghost use Rattle.std.specs.Prelude.{◌≡◌, ◌≤◌, length};

/// The most members of an object that is read in one walk.
pub(crate) const MOST: usize = 8;

/// A value with nothing inside.
#[derive(Clone, Copy)]
pub(crate) enum Plain<'a> {
    /// A whole number from 0 on.
    Whole(u64),
    /// A whole number below zero.
    Below(i64),
    /// A text.
    Text(&'a str),
    /// Null.
    Null,
}

/// A member of an object.
#[derive(Clone, Copy)]
pub(crate) struct Slot<'a> {
    pub(crate) name: &'a [u8],
    pub(crate) value: Plain<'a>,
}

/// The members of an object, in order.
#[derive(Clone, Copy)]
pub(crate) struct Flat<'a> {
    pub(crate) slots: [Slot<'a>; MOST],
    pub(crate) count: usize,
    ghost fits: { count ≤ 8 },
    ghost long: { length slots ≡ 8 },
}

/// No member yet.
pub(crate) const EMPTY: Slot<'static> = Slot {
    name: &[],
    value: Plain::Whole(0),
};
