//! Statements: what a member sold and bought in a period of days.
//!
//! Promised: a statement has exactly the member's sales whose civil day lies in the period, in
//! order of day and item, with the fee rounded down and totals with `sold = fees + net`; over all
//! members what is bought is net plus fees; and its text and CSV reach a sink byte for byte, or a
//! beginning of them. Read `specs/Statement.antt` and `specs/Text.antt` first, and then `statement`.
#![tactic(auto)]

mod columns;
mod day;
mod fault;
mod laws;
mod line;
mod numerals;
mod output;
mod sale;
mod statement;
mod totals;
mod zone;

pub use day::{Day, LAST_DAY};
pub use fault::SettleFault;
pub use laws::{days_and_moments_end, days_are_written_as_dates, zones_of_one_text_agree};
pub use line::Line;
pub use sale::{Sold, fee};
pub use statement::{Statement, lines};
pub use totals::Totals;
pub use zone::{LAST_MOMENT, Zone};
