//! What one message does to a keep, and what it is replied.
//!
//! Promised of any keep and any history whose tables it has: the reply is the definition's, and the
//! tables are then those of the next history; a call that fails has not acted, unless the store
//! failed. Over any tables a command makes its own change or none, as it is answered. Read
//! `specs/Acted.antt` first, and then `messages`, whose `act` is the call that matters.
#![tactic(auto)]

mod commands;
mod messages;
mod reading;

pub use messages::act;
