//! Amounts of money, in whole cents.
//!
//! Promised: a `Cents` is never over `LIMIT`, `Cents::parse` reads exactly the spellings of an
//! amount, and the text that shows an amount reads back as it. Read `specs/Spelling.antt` first,
//! which says what a spelling is, and then `amount`.
#![tactic(auto)]

mod amount;
mod digits;
mod fault;
mod laws;
mod shown;

pub use amount::{Cents, LIMIT};
pub use fault::CentsFault;
pub use laws::shown_amounts_read_back;
pub use shown::{Shown, show};
