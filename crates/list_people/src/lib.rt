//! Members and categories in memory, found by number and by name.
//!
//! Promised: a `Members` or a `Categories` is seen as the plain list of its rows, and every look-up
//! answers what a search of that list would. Read `specs/Named.antt` first, which says what holds of
//! rows and index at every moment, and then `members`.
//!
//! No look-up searches the list, which no clause says: a number is a place, and an index has the
//! place of each name.
#![tactic(auto)]

mod categories;
mod members;
mod names;

pub use categories::Categories;
pub use members::Members;
