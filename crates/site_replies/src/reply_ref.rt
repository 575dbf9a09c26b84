//! Replies as they are written.
use house_rows::{CommandResult, Page, Refusal};
use site_request::RequestFault;

/// A reply that is to be written. It borrows its page, so that who has a reply written drops no page
/// on each of its ways out.
#[derive(Clone, Copy)]
pub enum ReplyRef<'r> {
    /// The command was accepted, and this is its result.
    Done(&'r CommandResult),
    /// The command is refused.
    Denied(Refusal),
    /// The read shows this.
    Shows(&'r Page),
    /// The message is neither a command nor a read.
    Faulty(RequestFault),
}
