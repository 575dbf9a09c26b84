//! Objects of a few texts, whole numbers and nulls, read in one walk over their bytes.
ghost use Rattle.std.specs.Prelude.{◌≡◌, ◌<◌, ◌≤◌, [], ◌∷◌, IfSome, IsTrue, Some, length, option_map, take, true};
ghost use Rattle.std.specs.Str.{IsAscii, bytes_eq};
ghost use Rattle.json.specs.Lex.{comma, token};
ghost use Rattle.json.specs.Print.{escape};
ghost use Rattle.json.specs.Token.{begin_object, end_object, string};
ghost use Rattle.json.specs.Word.{ends_word};
ghost use Rattle.json_plain.specs.Plain.{IsPlainByte};
ghost use Rattle.serde_json.specs.Data.{no_members};
ghost use Rattle.serde_json.specs.Find.{get_member};
ghost use Rattle.site_bodies.specs.Flat.{IsFlat, flat_fields};
ghost use Rattle.site_bodies.specs.Numerals.{IsMinus};
ghost use Rattle.site_bodies.specs.Passes.{IsMember, IsSize, IsValue, Passes};
ghost use Rattle.site_bodies.specs.Slots.{data_of, put_all};
ghost use Rattle.site_bodies.specs.Values.{integer_in, maybe_whole_in, text_in, whole_in};

use crate::lone::{rest_after, text_of};
use crate::numeral::to_signed;
use crate::slots::{EMPTY, Flat, MOST, Plain, Slot};
use json_plain::plain_length;

fn is_space(byte: u8) -> bool
    ensures { IsTrue result → byte ≡ 32 }
{
    byte == b' '
}

// What comes after the spaces in front.
fn after_spaces(bytes: &[u8]) -> &[u8]
    ensures { Passes bytes.now [] result.now }
{
    let mut end = 0;
    while end < bytes.len() && is_space(bytes[end]) {
        end += 1;
    }
    &bytes[end..]
}

// The text between quotes in front, if it is written without escapes, and what comes after.
fn text(bytes: &[u8]) -> Option<(&str, &[u8])>
    ensures { IfSome result (λ p. Passes bytes.now (token (string p.0.now) ∷ []) p.1.now) }
{
    let inside = rest_after(bytes, b"\"")?;
    let end = plain_length(inside);
    let after = rest_after(&inside[end..], b"\"")?;
    let text = text_of(&inside[..end])?;
    Some((text, after))
}

// Whether a byte is a small letter or `_`.
#[inline(always)]
fn is_name_byte(byte: u8) -> bool
    ensures plain { IsTrue result → IsPlainByte byte }
    ensures ascii { IsTrue result → byte < 128 }
{
    byte.is_ascii_lowercase() || byte == b'_'
}

// How many small letters and `_` are in front.
fn name_length(bytes: &[u8]) -> usize
    ensures plain { escape (take result bytes.now) ≡ take result bytes.now }
    ensures ascii { IsAscii (take result bytes.now) }
    ensures within { result ≤ length bytes.now }
{
    let mut end = 0;
    while end < bytes.len() && is_name_byte(bytes[end]) {
        end += 1;
    }
    end
}

// The name between quotes in front, and what comes after. As bytes it is not tested for UTF-8. Names
// of fields are of small letters and `_`; what has others is read as a tree.
fn name(bytes: &[u8]) -> Option<(&[u8], &[u8])>
    ensures { IfSome result (λ p. Passes bytes.now (token (string p.0.now) ∷ []) p.1.now) }
{
    let inside = rest_after(bytes, b"\"")?;
    let end = name_length(inside);
    let after = rest_after(&inside[end..], b"\"")?;
    Some((&inside[..end], after))
}

// How many digits are in front.
fn digits_length(bytes: &[u8]) -> usize
    ensures { result ≤ length bytes.now }
{
    let mut end = 0;
    while end < bytes.len() && bytes[end].is_ascii_digit() {
        end += 1;
    }
    end
}

// Whether a number that comes before these bytes ends there.
fn ends_word(bytes: &[u8]) -> bool
    ensures { IsTrue result → ends_word bytes.now ≡ true }
{
    matches!(bytes, [b',' | b'}' | b' ', ..])
}

// The number that digits in front write, and what comes after.
fn whole(bytes: &[u8]) -> Option<(u64, &[u8])>
    ensures { IfSome result (λ p. IsSize bytes.now p.0 p.1.now) }
{
    let end = digits_length(bytes);
    let after = &bytes[end..];
    if !ends_word(after) {
        return None;
    }
    let number = site_digits::count(&bytes[..end])?;
    Some((number, after))
}

// The whole number in front, and what comes after.
fn number(bytes: &[u8]) -> Option<(Plain<'_>, &[u8])>
    ensures { IfSome result (λ p. IsValue bytes.now p.0 p.1.now) }
{
    let (number, after) = whole(bytes)?;
    Some((Plain::Whole(number), after))
}

// The text in front, as a value, and what comes after.
fn string(bytes: &[u8]) -> Option<(Plain<'_>, &[u8])>
    ensures { IfSome result (λ p. IsValue bytes.now p.0 p.1.now) }
{
    let (text, after) = text(bytes)?;
    Some((Plain::Text(text), after))
}

// The number below zero of that size. There is none of zero, which after a minus is a float.
fn minus(size: u64) -> Option<i64>
    ensures { IfSome result (IsMinus size) }
{
    match to_signed(size) {
        Some(size) if size > 0 => Some(-size),
        _ => None,
    }
}

// The whole number below zero in front, and what comes after.
fn negative(bytes: &[u8]) -> Option<(Plain<'_>, &[u8])>
    ensures { IfSome result (λ p. IsValue bytes.now p.0 p.1.now) }
{
    let (size, after) = whole(rest_after(bytes, b"-")?)?;
    Some((Plain::Below(minus(size)?), after))
}

// The null in front, and what comes after.
fn null(bytes: &[u8]) -> Option<(Plain<'_>, &[u8])>
    ensures { IfSome result (λ p. IsValue bytes.now p.0 p.1.now) }
{
    let after = rest_after(bytes, b"null")?;
    if ends_word(after) {
        Some((Plain::Null, after))
    } else {
        None
    }
}

// The value in front, if it is no text and no number without a sign, and what comes after.
fn other(bytes: &[u8]) -> Option<(Plain<'_>, &[u8])>
    ensures { IfSome result (λ p. IsValue bytes.now p.0 p.1.now) }
{
    match bytes {
        [b'-', ..] => negative(bytes),
        _ => null(bytes),
    }
}

// The value in front, and what comes after. Texts and numbers without a sign, as most are, come
// first.
fn value(bytes: &[u8]) -> Option<(Plain<'_>, &[u8])>
    ensures { IfSome result (λ p. IsValue bytes.now p.0 p.1.now) }
{
    if let [b'"', ..] = bytes {
        return string(bytes);
    }
    match number(bytes) {
        Some(found) => Some(found),
        None => other(bytes),
    }
}

// The member in front, and what comes after.
fn member(bytes: &[u8]) -> Option<(Slot<'_>, &[u8])>
    ensures { IfSome result (λ p. IsMember bytes.now p.0 p.1.now) }
{
    let (name, after_name) = name(bytes)?;
    let colon = rest_after(after_spaces(after_name), b":")?;
    let (value, after) = value(after_spaces(colon))?;
    Some((Slot { name, value }, after))
}

// What comes after the brace in front.
fn after_brace(bytes: &[u8]) -> Option<&[u8]>
    ensures { IfSome result (λ rest. Passes bytes.now (token begin_object ∷ []) rest.now) }
{
    let inside = rest_after(after_spaces(bytes), b"{")?;
    Some(after_spaces(inside))
}

// What comes after the comma in front.
fn next(bytes: &[u8]) -> Option<&[u8]>
    ensures { IfSome result (λ rest. Passes bytes.now (comma ∷ []) rest.now) }
{
    let more = rest_after(after_spaces(bytes), b",")?;
    Some(after_spaces(more))
}

// Whether nothing is here but the brace at the end.
fn ends(bytes: &[u8]) -> bool
    ensures { IsTrue result → Passes bytes.now (token end_object ∷ []) [] }
{
    match rest_after(after_spaces(bytes), b"}") {
        Some(end) => after_spaces(end).is_empty(),
        None => false,
    }
}

/// The members of an object that the bytes are. Where there are none, the bytes may yet be any. It
/// is a function of its own, so that others clear no room for its table.
#[inline(never)]
pub(crate) fn flat_object(bytes: &[u8]) -> Option<Flat<'_>>
    ensures { IfSome result (IsFlat bytes.now) }
{
    let mut rest = after_brace(bytes)?;
    let mut slots = [EMPTY; MOST];
    for place in 0..MOST {
        let (slot, after) = member(rest)?;
        slots[place] = slot;
        if ends(after) {
            return Some(Flat {
                slots,
                count: place + 1,
            });
        }
        let more = next(after)?;
        rest = more;
    }
    None
}

impl<'a> Plain<'a> {
    // The whole number that a value is.
    fn whole(self) -> Option<u64>
        ensures { result ≡ whole_in (Some (data_of self.entry)) }
    {
        match self {
            Plain::Whole(number) => Some(number),
            Plain::Below(_) | Plain::Text(_) | Plain::Null => None,
        }
    }

    // The whole number with a sign that a value is.
    fn integer(self) -> Option<i64>
        ensures { result ≡ integer_in (Some (data_of self.entry)) }
    {
        match self {
            Plain::Whole(number) => to_signed(number),
            Plain::Below(number) => Some(number),
            Plain::Text(_) | Plain::Null => None,
        }
    }

    // The text that a value is.
    fn text(self) -> Option<&'a str>
        ensures { option_map (λ t. t.now) result ≡ text_in (Some (data_of self.entry)) }
    {
        match self {
            Plain::Text(text) => Some(text),
            Plain::Whole(_) | Plain::Below(_) | Plain::Null => None,
        }
    }

    // The whole number that a value is, or none where it is null.
    fn maybe_whole(self) -> Option<Option<u64>>
        ensures { result ≡ maybe_whole_in (Some (data_of self.entry)) }
    {
        match self {
            Plain::Whole(number) => Some(Some(number)),
            Plain::Null => Some(None),
            Plain::Below(_) | Plain::Text(_) => None,
        }
    }
}

// Whether a member has that name.
fn is_named(slot: &Slot<'_>, name: &str) -> bool
    ensures { result ≡ bytes_eq slot.now.name.now name.now }
{
    slot.name == name.as_bytes()
}

// The last value of that name, which is looked for from the end.
fn last<'a>(slots: &[Slot<'a>], name: &str) -> Option<Plain<'a>>
    ensures { option_map data_of result ≡ get_member name.now (put_all slots.now no_members) }
{
    let mut end = slots.len();
    while end > 0 {
        let slot = &slots[end - 1];
        if is_named(slot, name) {
            return Some(slot.value);
        }
        end -= 1;
    }
    None
}

impl<'a> Flat<'a> {
    ghost use Rattle.site_bodies.specs.Fields.{integer_at, maybe_whole_at, text_at, whole_at};

    // The last value of that name.
    fn get(&self, name: &str) -> Option<Plain<'a>>
        ensures { option_map data_of result ≡ get_member name.now (flat_fields self.now) }
    {
        last(&self.slots[..self.count], name)
    }

    /// The field of that name, if it is a whole number from 0 to 2^64 - 1.
    pub(crate) fn whole(&self, name: &str) -> Option<u64>
        ensures { result ≡ whole_at name.now (flat_fields self.now) }
    {
        match self.get(name) {
            Some(value) => value.whole(),
            None => None,
        }
    }

    /// The field of that name, if it is a whole number from -2^63 to 2^63 - 1.
    pub(crate) fn integer(&self, name: &str) -> Option<i64>
        ensures { result ≡ integer_at name.now (flat_fields self.now) }
    {
        match self.get(name) {
            Some(value) => value.integer(),
            None => None,
        }
    }

    /// The field of that name, if it is a text.
    pub(crate) fn text(&self, name: &str) -> Option<&'a str>
        ensures { option_map (λ t. t.now) result ≡ text_at name.now (flat_fields self.now) }
    {
        match self.get(name) {
            Some(value) => value.text(),
            None => None,
        }
    }

    /// The field of that name, if it is a whole number from 0 to 2^64 - 1, or null, or absent.
    pub(crate) fn maybe_whole(&self, name: &str) -> Option<Option<u64>>
        ensures { result ≡ maybe_whole_at name.now (flat_fields self.now) }
    {
        match self.get(name) {
            Some(value) => value.maybe_whole(),
            None => Some(None),
        }
    }
}
