//! A civil day.
ghost use Rattle.std.specs.Prelude.{◌≡◌, ◌≢◌, ◌<◌, ◌≤◌, ◌↔◌, ℕ, pos, Some, Ok, IsSome, IsNone, IfSome, IsErrOf};
ghost use Rattle.jiff.specs.Words.{epoch_day};
ghost use Rattle.settle.specs.Calendar.{YearMonthDay, date_of, date_words, day_text};

use crate::fault::SettleFault;
use crate::numerals;
use jiff::civil::Date;
use jiff_core::civil;
use std::fmt;
use std::marker::Model;

/// The number of the last day, 2100-12-31.
pub const LAST_DAY: u32 = 47_846;

/// A day of the calendar from 1970-01-01 to 2100-12-31. Clauses see its number: how many days lie
/// between 1970-01-01 and it.
#[derive(Clone, Copy, Debug, PartialEq, Eq, PartialOrd, Ord)]
pub struct Day {
    number: u32,
}

impl Model for Day {
    ghost use Rattle.std.specs.Prelude.{ℕ, ◌≤◌};
    ghost use Rattle.settle.specs.declared.day.TheConstants.{LAST_DAY};

    ghost Value = { ℕ };

    ghost view = { λ d. d.number };

    ghost invariant = { λ d. d.number ≤ LAST_DAY };

    ghost inverse = { λ n. record { number = n } };
}

impl Day {
    /// The day with that number; none after 2100-12-31.
    pub const fn new(number: u32) -> Option<Day>
        ensures within { IsSome result ↔ (number ≤ LAST_DAY) }
        ensures value { IfSome result (λ d. d ≡ number) }
    {
        if number <= LAST_DAY {
            Some(Day { number })
        } else {
            None
        }
    }

    /// The number of the day: 0 for 1970-01-01.
    pub const fn number(self) -> u32
        ensures value { result ≡ self }
        ensures within { result ≤ LAST_DAY }
    {
        self.number
    }

    /// The day that a text of ten characters spells, `YYYY-MM-DD`. Takes no memory.
    pub fn read(text: &str) -> Result<Day, SettleFault>
        ensures ok { (d : ℕ) → (result ≡ Ok d) ↔ ((d ≤ LAST_DAY) × (text.now ≡ day_text d)) }
        ensures date { IsErrOf result SettleFault.Date ↔
            ((d : ℕ) → d ≤ LAST_DAY → text.now ≢ day_text d) }
    {
        let Some((year, month, day)) = numerals::read_date(text.as_bytes()) else {
            return Err(SettleFault::Date);
        };
        match Day::of_parts(year, month, day) {
            Some(day) => Ok(day),
            None => Err(SettleFault::Date),
        }
    }

    // The day with this date, if it is one of 1970 to 2100.
    fn of_parts(year: u16, month: u8, day: u8) -> Option<Day>
        requires year_in { year < 10000 }
        requires month_in { month < 100 }
        requires day_in { day < 100 }
        ensures some { IfSome result (λ n. (n ≤ LAST_DAY)
            × date_of n ≡ record { year = year; month = month; day = day }) }
        ensures none { IsNone result → (n : ℕ) → n ≤ LAST_DAY
            → date_of n ≢ record { year = year; month = month; day = day } }
    {
        match Date::new(year as i16, month as i8, day as i8) {
            Ok(date) => Day::from_date(date),
            Err(_) => None,
        }
    }

    /// The day of a date, if it is one of 1970 to 2100.
    pub(crate) fn from_date(date: Date) -> Option<Day>
        ensures some { IfSome result (λ d. (d ≤ LAST_DAY) × epoch_day date ≡ pos d) }
        ensures none { IsNone result → (d : ℕ) → d ≤ LAST_DAY → epoch_day date ≢ pos d }
    {
        let number = date.to_plain().to_unix_epoch_day();
        if number < 0 {
            return None;
        }
        Day::new(number as u32)
    }

    // The date of the day.
    fn date(self) -> Date
        ensures value { epoch_day result ≡ pos self }
        ensures within { self ≤ LAST_DAY }
    {
        match civil::Date::from_unix_epoch_day(i64::from(self.number)) {
            Ok(plain) => Date::from_plain(plain),
            Err(_) => unreachable!(),
        }
    }
}

impl fmt::Display for Day {
    ghost output = { λ d. Some (day_text d) };

    fn fmt<W: fmt::Write>(&self, f: &mut fmt::Formatter<W>) -> fmt::Result {
        self.date().fmt(f)
    }
}
