//! Connections, one after the other, each a stream that is served over the site.
//!
//! Promised: each connection is served as `serve` says, between two of them the keep stays, and none is
//! taken after one in which it failed. Read
//! `specs/Turns.antt` first, and then `serve_each`.
#![tactic(auto)]

mod connection;
mod connections;
mod memory;
mod turns;

pub use connection::{Connection, Ended};
pub use connections::Connections;
pub use memory::MemoryConnections;
pub use turns::{TurnFault, serve_each};
