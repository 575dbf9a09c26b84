//! What the house decides: each command gets the verdict of its rules, and where it is accepted the one
//! change that leads to the tables of the history with it.
//!
//! Promised of any keep and any history whose tables it keeps, while nothing is changed here; and of
//! any sound tables, with a history or without, that the verdict is that of the rules by the tables,
//! and that the change is the command's own and fits them.
//! Read `specs/Decides.antt` first, with `Decided`, `ByTables` and `Own` beside it, then `decision`,
//! whose `decide` is the call that matters, and `targets`, which has the rules that every command
//! begins with, and finds the item that a command names.
#![tactic(auto)]

mod answers;
mod auction_end;
mod bands;
mod bidding;
mod changes;
mod decision;
mod listing;
mod people;
mod purchase;
mod questions;
mod ratings;
mod settlement;
mod targets;
mod watch_removal;
mod watchlist;

pub use answers::answer;
pub use auction_end::close;
pub use bands::set_bands;
pub use bidding::bid;
pub use changes::fill;
pub use decision::decide;
pub use listing::{Offer, list};
pub use people::{add_category, register};
pub use purchase::buy;
pub use questions::ask;
pub use ratings::feedback;
pub use settlement::settle;
pub use watch_removal::unwatch;
pub use watchlist::watch;
