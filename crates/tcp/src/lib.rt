//! Connections over TCP, which come one after the other to a port of this machine.
//!
//! Promised: each connection that comes is counted, and the port is given up with the last of them.
//! Where a call is made again because it was interrupted, no byte is lost, and none is taken twice.
//! No clause says which bytes a socket brings or takes, that a connection on which nothing moves is
//! given up, that an interrupted call is made again, or that the peer may read its last replies:
//! tests look at these. Read `listener` first, and then `stream`.
#![tactic(auto)]

mod listener;
mod stream;

pub use listener::{Listen, Listener, TcpConnection};
pub use stream::Steady;
