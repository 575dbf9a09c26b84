//! What the house shows, as JSON: the tree of everything that is shown, its text, which is written
//! with no tree in memory, and of a page the tree itself. No keep is known here.
//!
//! Promised: what is appended is the compact text of its tree, whole or not at all, and what is
//! grown is the tree. Read `specs/Trees.antt` first; what grows trees is apart in `trees`.
#![tactic(auto)]

mod command_result;
mod entries;
mod fault;
mod item;
mod page;
mod refused;
mod statement;
mod trees;

pub use command_result::AsCommandResult;
pub use entries::{
    AsBands, AsCategories, AsFeedback, AsMembers, AsOwnBids, AsOwnReserves, AsQuestions,
};
pub use fault::PageFault;
pub use item::{AsItems, ByEditions, floor};
pub use page::append_page;
pub use refused::{AsFaults, AsRefusals};
pub use trees::grow_page;
