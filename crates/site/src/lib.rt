//! The site: the bytes of a request in, the bytes of its reply out, over any keep.
//!
//! Promised: the site is a small machine over the list of accepted commands. Over the tables of
//! any history each message gets the reply that the definitions give it, and leaves the tables of
//! the next history; or it is answered 503 and has not acted, or 500 and the keep has failed, as
//! is then every later command and read. Over tables of no history, too, a command makes its own
//! change or none, as it is answered. Of two runs that are twins for a member all replies to it are
//! the same, in a house that lives on too, and so are those to all but a leader whose bid is raised
//! further than leading takes. Read `specs/Replies.antt` and `specs/Runs.antt` first, and then
//! `engine`.
#![tactic(auto)]

mod engine;
mod laws;
mod runs;

pub use engine::{Reply, Site};
pub use laws::{isolation, surplus_is_invisible};
pub use runs::RunFault;
