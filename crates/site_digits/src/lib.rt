//! The numbers that paths and fields write in digits.
//!
//! Promised: a number is 1 to 10 digits without a leading zero, and its value is that of the digits.
//! Read `specs/Digits.antt` first, which says what digits write, and then `number`.
#![tactic(auto)]

mod numeral;

pub use numeral::{count, number};
