//! The pages of the house: what a read shows, over any keep, as a value, as text and as a tree.
//!
//! Promised: for every history whose tables the keep has, `read` gives the page that `page_of`
//! defines, `show` appends its text, whole or not at all, and `page` makes its tree; the tables
//! stay. Read `specs/Promises.antt` first, and then `reading`; `trees` is for tests alone.
#![tactic(auto)]

mod bidding;
mod items;
mod laws;
mod page_text;
mod people;
mod reading;
mod settings;
mod talk;
mod trees;

pub use laws::alike_histories_show_the_same_text;
pub use page_text::show;
pub use pages_text::PageFault;
pub use reading::read;
pub use trees::page;
