//! The public record of the house: what everybody may see, as one text and as one tree.
//!
//! Promised: what is appended is the text of the tree of the tables' public rows, whole or not at all,
//! and what is made is that tree; for every history whose tables a keep has, it is the tree of the
//! public view; the tables stay. Rows are asked for list by list, and no more than one list is held
//! beside the text or the tree. Read `specs/Record.antt` first, then `specs/Promises.antt`; what makes
//! the tree is apart in `trees`.
#![tactic(auto)]

mod editions;
mod laws;
mod record_text;
mod trees;

pub use laws::{the_lists_tell_the_public_view, the_record_is_of_the_public_view};
pub use pages_text::PageFault;
pub use record_text::append_record;
pub use trees::record;
