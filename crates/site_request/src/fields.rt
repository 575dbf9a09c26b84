//! The fields of a body, each by its kind.
ghost use Rattle.std.specs.Prelude.{◌≡◌};
ghost use Rattle.site_bodies.specs.Body.{fields_of};
ghost use Rattle.site_request.specs.Fields.{Gives, integer_at, number_at, optional_at, rating_of, text_at};

use crate::field::Field;
use crate::unread::{Unread, Wrong};
use house_rows::{Rating, Text};
use site_bodies::Body;
use std::alloc::Global;

/// A field that is a whole number of 64 bits.
#[tactic(auto, unfolding(crate::specs::Fields::number_at))]
pub(crate) fn number(body: &Body<'_>, field: Field) -> Result<u64, Unread>
    ensures { Gives result (number_at field (fields_of body.now)) }
{
    match body.whole(field.name()) {
        Some(number) => Ok(number),
        None => Err(Unread::Wrong(Wrong::Field(field))),
    }
}

/// A field that is a whole number of 64 bits, or null, or absent.
#[tactic(auto, unfolding(crate::specs::Fields::optional_at))]
pub(crate) fn optional(body: &Body<'_>, field: Field) -> Result<Option<u64>, Unread>
    ensures { Gives result (optional_at field (fields_of body.now)) }
{
    match body.maybe_whole(field.name()) {
        Some(number) => Ok(number),
        None => Err(Unread::Wrong(Wrong::Field(field))),
    }
}

/// A field that is a whole number of 64 bits with a sign.
#[tactic(auto, unfolding(crate::specs::Fields::integer_at))]
pub(crate) fn integer(body: &Body<'_>, field: Field) -> Result<i64, Unread>
    ensures { Gives result (integer_at field (fields_of body.now)) }
{
    match body.integer(field.name()) {
        Some(number) => Ok(number),
        None => Err(Unread::Wrong(Wrong::Field(field))),
    }
}

/// A field that is a text, copied.
#[tactic(auto, unfolding(crate::specs::Fields::text_at))]
pub(crate) fn text(alloc: Global, body: &Body<'_>, field: Field) -> Result<Text, Unread>
    ensures { Gives result (text_at field (fields_of body.now)) }
{
    match body.text(field.name()) {
        Some(text) => Ok(Text::copy_of(alloc, text)?),
        None => Err(Unread::Wrong(Wrong::Field(field))),
    }
}

/// The rating that a number is, if it is one.
pub(crate) fn rating_of(number: i64) -> Option<Rating>
    ensures { result ≡ rating_of number }
{
    match number {
        -1 => Some(Rating::Minus),
        0 => Some(Rating::Zero),
        1 => Some(Rating::Plus),
        _ => None,
    }
}
