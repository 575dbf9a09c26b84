//! Objects and lists of JSON, said by trees, and written as text with no tree in memory or made as
//! trees. Nothing of a house is here.
//!
//! Promised: what is appended is the compact text of its tree, whole or not at all, and what is made
//! is the tree. Brackets, commas and keys are written here; numbers are written by `itoa`, texts by
//! `json`. Read `specs/Words.antt` first, which says what an object and a list are, and then `field`,
//! `object`, `entry` and `tree`.
#![tactic(auto)]

mod entry;
mod field;
mod object;
mod tree;

pub use entry::{Shows, append, finish, put_array};
pub use field::Field;
pub use object::{
    end_object, put_list, put_member, put_member_list, put_members, put_object, put_object_around,
};
pub use tree::{
    Grows, grow_array, grow_list, grow_member_list, grow_members, grow_object, grow_object_around,
};
