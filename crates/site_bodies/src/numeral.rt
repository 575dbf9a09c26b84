//! Numbers of JSON.
ghost use Rattle.std.specs.Prelude.{◌≡◌, ◌==◌, ◌<◌, length, slice_index, IsTrue, true, false, option_map, option_and_then};
ghost use Rattle.serde_json.specs.Find.{as_i64, as_u64};
ghost use Rattle.serde_json.specs.Read.{float_of, number_from, number_of};
ghost use Rattle.site_bodies.specs.Numerals.{kind_of, signed};

use fast_float::Numeral;

/// What a number is.
#[derive(Clone, Copy)]
pub(crate) enum Numeric {
    /// A whole number that fits 64 bits.
    Whole(u64),
    /// A whole number below zero.
    Below(i64),
    /// Any other.
    Float,
}

// A number that is not whole, or too large for a whole one.
fn float(negative: bool, numeral: &Numeral<'_>) -> Option<Numeric>
    ensures { option_map kind_of (float_of negative numeral.now) ≡ result }
{
    if numeral.to_float::<f64>(negative).is_finite() {
        Some(Numeric::Float)
    } else {
        None
    }
}

// A number with no sign.
fn above(numeral: &Numeral<'_>) -> Option<Numeric>
    ensures { option_map kind_of (number_from false numeral.now) ≡ result }
{
    match numeral.to_u64() {
        Some(n) => Some(Numeric::Whole(n)),
        None => float(false, numeral),
    }
}

// A number after a minus.
fn below(numeral: &Numeral<'_>) -> Option<Numeric>
    ensures { option_map kind_of (number_from true numeral.now) ≡ result }
{
    if let Some(n) = numeral.to_i64(true) {
        if n < 0 {
            return Some(Numeric::Below(n));
        }
    }
    float(true, numeral)
}

fn has_minus(bytes: &[u8]) -> bool
    ensures value { result ≡ (slice_index bytes.now 0 == 45) }
    ensures len { IsTrue result → 0 < length bytes.now }
{
    !bytes.is_empty() && bytes[0] == b'-'
}

/// What the number is that a token of JSON writes; none where it is too large.
pub(crate) fn make_numeric(text: &str) -> Option<Numeric>
    ensures { option_map kind_of (number_of text.now) ≡ result }
{
    let bytes = text.as_bytes();
    if let Some(n) = site_digits::number(bytes) {
        return Some(Numeric::Whole(n));
    }
    if has_minus(bytes) {
        below(&Numeral::scan(&bytes[1..]))
    } else {
        above(&Numeral::scan(bytes))
    }
}

/// The whole number from 0 to 2^64 - 1 that a token writes.
#[tactic(auto, using(crate::proofs::Seen::whole_seen))]
pub(crate) fn whole(text: &str) -> Option<u64>
    ensures { result ≡ option_and_then as_u64 (number_of text.now) }
{
    match make_numeric(text) {
        Some(Numeric::Whole(n)) => Some(n),
        _ => None,
    }
}

/// A number from 0 on with a sign, if it fits.
pub(crate) fn to_signed(n: u64) -> Option<i64>
    ensures { result ≡ signed n }
{
    if n <= i64::MAX as u64 {
        Some(n as i64)
    } else {
        None
    }
}

/// The whole number from -2^63 to 2^63 - 1 that a token writes.
#[tactic(auto, using(crate::proofs::Seen::integer_seen))]
pub(crate) fn integer(text: &str) -> Option<i64>
    ensures { result ≡ option_and_then as_i64 (number_of text.now) }
{
    match make_numeric(text) {
        Some(Numeric::Whole(n)) => to_signed(n),
        Some(Numeric::Below(n)) => Some(n),
        _ => None,
    }
}
