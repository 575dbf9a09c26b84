//! The bytes of every reply: status, fields, and a body of JSON.
//!
//! Promised: a reply of the house has one text, which follows from the reply alone, and from the
//! zone where it is a statement; and the text says its status. Read `specs/Texts.antt` first, and
//! then `replies`, whose `write` is the call that matters.
#![tactic(auto)]

mod faults;
mod laws;
mod replies;
mod reply_ref;

pub use faults::fault_text;
pub use laws::texts_tell_their_status;
pub use replies::ReplyWriter;
pub use reply_ref::ReplyRef;
