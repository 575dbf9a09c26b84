//! The runs of the auction house's program, each over any keep: a stream replayed, connections
//! served, a lot file imported, a band table set, a statement printed, a house in a file made or
//! upgraded, two lists of messages audited, and one with a bid in it raised.
//!
//! Promised: a run ends with 0 only where it has written what its definition says, and has ended the
//! keep of a house in a file. Else it ends with 1. Each fault has its line. What is answered is what
//! the site answers, what is listed and stated is what the office lists and states. Read
//! `specs/Replayed.antt` and `replay` first, then `fault`, and then the other runs.
#![tactic(auto)]

mod audit;
mod bands;
mod ended;
mod fault;
mod import;
mod init;
mod line;
mod replay;
mod serve;
mod setup;
mod statement;
mod surplus;
mod upgrade;

pub use audit::{Houses, Run, audit_run};
pub use bands::bands_run;
pub use fault::{Side, TaskFault, finish_run};
pub use import::import_run;
pub use init::init_run;
pub use replay::replay_run;
pub use serve::{begin_site, serve_connections, serve_run};
pub use statement::{Inquiry, statement_run};
pub use surplus::{Raise, Trial, surplus_run};
pub use upgrade::upgrade_run;
