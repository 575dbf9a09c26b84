//! What the house's office makes of a keep: statements of account, and lots listed from a file.
//!
//! Promised, over any keep: a statement is the one of the kept sales of a member, by the kept zone
//! and rate; who isn't registered has none; the tables stay. A lot file is read as far as each
//! record has its fields, each row that can be read is one order of the member at the moment, made
//! through the site, and what is counted is what the replies said. Read `account` first, then
//! `specs/Lots.antt` and `specs/Imports.antt`, and `imports`.
#![tactic(auto)]

mod account;
mod column;
mod fault;
mod imports;
mod laws;
mod lines;
mod lister;
mod lot;
mod outcome;
mod records;
mod tally;
mod zone;

pub use account::{StatementFault, statement};
pub use fault::ImportFault;
pub use imports::{check_member, import};
pub use laws::{lines_tell_their_answers, orders_ask_for_their_listing};
pub use lister::Lister;
pub use tally::Imported;
pub use zone::check_zone;
