//! The audit: whether two lists of messages, answered over two new houses, look alike to a caller;
//! and whether it shows to others how far a bid lies above what leading takes.
//!
//! Promised: two lists are found equal exactly where they are twin runs for the caller, and then
//! one list is the replies to it along both; else the result is the first place at which
//! they are none. A bid's surplus is found hidden exactly where the bid is covered, with the
//! replies to another, the same whether it is raised or not. `audit_from` and `surplus_from` say it
//! of houses that live on. And a stream of messages is read into a list. Read `specs/Audits.antt`
//! first, and then `audit`, `specs/Surplus.antt` and `surplus`.
#![tactic(auto)]

mod bids;
mod fault;
mod leadership;
mod messages;
mod outcome;
mod pair;
mod place;
mod raised_bid;
mod replies;
mod texts;
mod verdict;

pub use fault::AuditFault;
pub use messages::{MessagesFault, read_messages};
pub use outcome::Surplus;
pub use raised_bid::{surplus, surplus_from};
pub use verdict::{Verdict, audit, audit_from};
