//! Bodies that are objects of JSON, and their fields.
//!
//! Promised: a body is read exactly as `serde_json` reads it, with no tree of owned texts, and a
//! field is reported exactly, or as absent or of another kind. An object of up to eight texts
//! without escapes, nulls and whole numbers, also below zero, as most bodies are, is read in one
//! walk over its bytes; every other as a tree. Read `specs/Members.antt` and `specs/Fields.antt`
//! first, and then `body`.
#![tactic(auto)]

mod body;
mod fault;
mod flat;
mod judged;
mod lone;
mod numeral;
mod pairs;
mod slots;
mod tree;

pub use body::Body;
pub use fault::BodyFault;
pub use lone::{lone_text, lone_whole};
pub use pairs::read_pairs;
