//! What a message is answered.
use crate::command_result::CommandResult;
use crate::page::Page;
use crate::refusal::Refusal;

/// What a message is answered.
#[derive(Drop)]
pub enum Reply<F> {
    /// The command was accepted, and this is its result.
    Done(CommandResult),
    /// The command is refused.
    Denied(Refusal),
    /// The read shows this.
    Shows(Page),
    /// The message is neither a command nor a read.
    Faulty(F),
}
