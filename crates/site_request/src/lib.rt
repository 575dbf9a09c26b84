//! What one message asks of the house: the first step of every reply.
//!
//! Promised: a text asks for one thing, which follows from its bytes alone: a command or a read
//! with its caller, or nothing, for the first fault in the order in which faults are judged; and a
//! whole message is its caller's whatever is wrong after that. A target has the route of the one
//! pattern that it fits, with the numbers that are in its own segments. Read `specs/Asked.antt`
//! first, then `specs/Table.antt`, which has the patterns, `specs/Commands.antt`, which has the
//! fields of each command, and then `reading`.
#![tactic(auto)]

mod asked;
mod command_path;
mod commands;
mod days;
mod fault;
mod field;
mod fields;
mod laws;
mod path;
mod reading;
mod route;
mod routes;
mod segment;
mod table;
mod unread;
mod unrouted;

pub use asked::{Asked, NoMemory};
pub use command_path::CommandPath;
pub use commands::command;
pub use fault::RequestFault;
pub use field::Field;
pub use laws::{
    every_text_has_a_meaning, messages_are_their_callers, no_target_fits_two_patterns,
    texts_have_one_meaning,
};
pub use reading::{read, read_request};
pub use route::Route;
pub use routes::Routes;
pub use segment::Segment;
pub use unread::{Unread, Wrong};
pub use unrouted::RouteFault;
