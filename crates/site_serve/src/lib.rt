//! A stream of messages in, their replies out, over the site.
//!
//! Promised: what is written follows from the bytes of the stream, however reads are cut: the
//! replies of the messages of its cut, and then that of a broken rest. All of it is handed on
//! before each wait for more bytes and at the end. Read `specs/Serving.antt` first, and then
//! `serve`.
#![tactic(auto)]

mod laws;
mod server;

pub use laws::broken_rests_are_answered;
pub use server::{Ending, ServeFault, Served, serve};
