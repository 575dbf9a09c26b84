//! What is sent to the house.
use crate::command::Command;
use crate::query::Query;

/// A message: a command, a read, or what is neither. The house is caller 0.
#[derive(Drop)]
pub enum Message<F> {
    /// The caller asks the house to do something.
    Write {
        /// When, in whole seconds since 1970-01-01T00:00:00Z.
        moment: u64,
        /// The number of the caller, known or not.
        caller: u64,
        /// What it asks for.
        command: Command,
    },
    /// The caller asks the house to show something.
    Read {
        /// The number of the caller, known or not.
        caller: u64,
        /// What it asks for.
        query: Query,
    },
    /// It can't be read as either.
    Broken {
        /// The number of the caller, where the message names one.
        caller: Option<u64>,
        /// What is wrong with it.
        fault: F,
    },
}
