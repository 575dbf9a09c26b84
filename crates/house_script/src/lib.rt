//! Plays a script on a house over any keep: one command or one question a line, and one line of answer.
//!
//! Nothing is promised here; the clauses are in `house` and in the crates of the keeps. Read
//! `script` first, which says what a line may be, and then `makes`, by which a program gives its
//! keep.
#![tactic(auto)]

mod fault;
mod filled_keep;
mod fixed_bytes;
mod makes;
mod played;
mod player;
mod question;
mod script;
mod script_line;
mod shown;
mod words;

pub use fault::ScriptFault;
pub use filled_keep::settings;
pub use fixed_bytes::FixedBytes;
pub use makes::Makes;
pub use player::{ask, play, read_script};
pub use question::answer;
pub use script_line::ScriptLine;
