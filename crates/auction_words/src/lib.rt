//! The words of the auction house's program: what they ask for, and which settings they name.
//!
//! Promised: a task is what the words ask for by the command line of `specs/CommandLine.antt`, with
//! each number in its range. Words that the command line takes, and that ask for such a task, are
//! refused only where memory runs out; of `audit` and `surplus` this isn't said. The settings of a
//! new house are those that its words name, of a zone that can be read, and else a fault says why
//! there are none. Read `command_line` first, with `specs/Tasks.antt`, and then `settings`.
#![tactic(auto)]

mod arguments;
mod command_line;
mod commands;
mod settings;
mod texts;
mod values;

pub use command_line::{
    AuditWords, BandsWords, Beginning, HouseWords, ImportWords, Replay, Serve, StatementWords,
    SurplusWords, Task, read_task,
};
pub use settings::{SettingsFault, read_bands, read_settings, same_settings};
