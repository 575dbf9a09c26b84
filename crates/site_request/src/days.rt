//! The days of a statement.
ghost use Rattle.std.specs.Prelude.{◌≡◌};
ghost use Rattle.site_request.specs.Days.{day_in, period_of};

use crate::fault::RequestFault;
use house_rows::Query;
use settle::Day;
use std::str::from_utf8;

// The day that a segment of a path spells.
fn day(text: &[u8]) -> Option<Day>
    ensures { result ≡ day_in text.now }
{
    match from_utf8(text) {
        Ok(text) => match Day::read(text) {
            Ok(day) => Some(day),
            Err(_) => None,
        },
        Err(_) => None,
    }
}

/// The read of a statement from one day to another.
#[tactic(auto, unfolding(crate::specs::Days::period_of))]
pub(crate) fn period(from: &[u8], to: &[u8]) -> Result<Query, RequestFault>
    ensures { result ≡ period_of from.now to.now }
{
    let Some(from) = day(from) else {
        return Err(RequestFault::Date);
    };
    let Some(to) = day(to) else {
        return Err(RequestFault::Date);
    };
    if to.number() < from.number() {
        return Err(RequestFault::Order);
    }
    Ok(Query::MyStatement { from, to })
}
