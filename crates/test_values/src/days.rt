//! Days as texts, zones, and the day of a moment.
use crate::accounts::{Accounts, fault_name};
use crate::script::ValuesFault;
use crate::words;
use crate::words::text_of;
use settle::{Day, LAST_MOMENT, Zone};
use std::alloc::Global;

// The number of a day, or `-`.
fn number_text(alloc: Global, day: Option<Day>) -> Result<String, ValuesFault> {
    match day {
        Some(day) => Ok(format!(in alloc; "{}", day.number())?),
        None => Ok(format!(in alloc; "-")?),
    }
}

/// The number of the day that a text spells.
pub(crate) fn day(alloc: Global, text: &str) -> Result<String, ValuesFault> {
    match Day::read(text_of(alloc, text)?.as_str()) {
        Ok(day) => number_text(alloc, Some(day)),
        Err(fault) => fault_name(alloc, fault),
    }
}

/// The number of the day with a number.
pub(crate) fn number(alloc: Global, word: &str) -> Result<String, ValuesFault> {
    number_text(alloc, Day::new(words::number(word)?))
}

/// Takes the zone of a rule.
pub(crate) fn zone(
    alloc: Global,
    accounts: &mut Accounts,
    rule: &str,
) -> Result<String, ValuesFault> {
    match Zone::read(text_of(alloc, rule)?.as_str()) {
        Ok(zone) => {
            accounts.zone = zone;
            Ok(format!(in alloc; "ok")?)
        }
        Err(fault) => fault_name(alloc, fault),
    }
}

/// The day of a moment in a zone.
pub(crate) fn at(alloc: Global, zone: &Zone, word: &str) -> Result<String, ValuesFault> {
    let moment = words::number(word)?;
    if moment > LAST_MOMENT {
        return Err(ValuesFault::Script);
    }
    number_text(alloc, zone.day(moment))
}
