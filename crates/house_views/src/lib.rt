//! What two keeps show, compared: what everybody may see, and what waits for a member.
//!
//! Promised: each call says whether the tables of the two have the same settings, the same public rows,
//! or the same questions waiting, and so of the tables of two histories whether these have the same
//! public view; both keeps stay as they were. Read `specs/Views.antt` first, and then `views`.
#![tactic(auto)]

mod same;
mod settings;
mod tables;
mod views;

pub use same::{Same, are_same};
pub use settings::have_same_settings;
pub use views::{agree, have_same_public, have_same_waiting};
