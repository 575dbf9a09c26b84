//! Amounts of money, as numbers and as texts.
use crate::script::ValuesFault;
use crate::words::{number, text_of};
use cents::{Cents, show};
use std::alloc::Global;

/// The amount of a number of cents, and how it is shown, or `-`.
pub(crate) fn amount(alloc: Global, word: &str) -> Result<String, ValuesFault> {
    match Cents::new(number(word)?) {
        Some(amount) => Ok(format!(in alloc; "{}, {amount}", amount.value())?),
        None => Ok(format!(in alloc; "-")?),
    }
}

/// The amount that a text is read as, or its fault, the fault's number and how it is shown.
pub(crate) fn read(alloc: Global, text: &str) -> Result<String, ValuesFault> {
    match Cents::parse(text_of(alloc, text)?.as_str()) {
        Ok(amount) => Ok(format!(in alloc; "{}", amount.value())?),
        Err(fault) => Ok(format!(in alloc; "{fault:?}, {}, {fault}", fault.number())?),
    }
}

/// How a sum of amounts is shown.
pub(crate) fn sum(alloc: Global, word: &str) -> Result<String, ValuesFault> {
    Ok(format!(in alloc; "{}", show(number(word)?))?)
}
