//! Bodies that are one number or one text under a name.
ghost use Rattle.std.specs.Prelude.{◌≡◌, ◌≢◌, ◌≤◌, ◌++◌, ◌∷◌, [], IfSome, IsTrue};
ghost use Rattle.std.specs.Str.{IsAscii, IsUtf8};
ghost use Rattle.json.specs.Print.{escape};
ghost use Rattle.site_bodies.specs.LoneNumber.{IsLone};
ghost use Rattle.site_bodies.specs.LoneString.{IsLoneText, IsPlain};
ghost use Rattle.site_bodies.specs.Passes.{Passes};

use json_plain::is_plain;

// A text of fewer bytes `simdutf8` hands on to std.
const SHORT: usize = 64;

// What comes after the front.
#[inline(always)]
pub(crate) fn rest_after<'b>(bytes: &'b [u8], front: &[u8]) -> Option<&'b [u8]>
    ensures { IfSome result (λ rest. bytes.now ≡ front.now ++ rest.now) }
{
    if bytes.starts_with(front) {
        Some(&bytes[front.len()..])
    } else {
        None
    }
}

// What comes before the brace at the end.
#[inline(always)]
fn before_brace(bytes: &[u8]) -> Option<&[u8]>
    ensures { IfSome result (λ rest. bytes.now ≡ rest.now ++ 125 ∷ []) }
{
    match bytes {
        [rest @ .., b'}'] => Some(rest),
        _ => None,
    }
}

// What comes after a space, if one is there.
#[inline(always)]
fn after_space(bytes: &[u8]) -> &[u8]
    ensures { Passes bytes.now [] result.now }
{
    match rest_after(bytes, b" ") {
        Some(rest) => rest,
        None => bytes,
    }
}

// What comes before the quote and the brace at the end.
#[inline(always)]
fn before_quote(bytes: &[u8]) -> Option<&[u8]>
    ensures { IfSome result (λ rest. bytes.now ≡ rest.now ++ 34 ∷ 125 ∷ []) }
{
    match bytes {
        [rest @ .., b'"', b'}'] => Some(rest),
        _ => None,
    }
}

// The text that bytes are, if they are UTF-8. A short one, as most are, goes to std without a detour.
pub(crate) fn text_of(bytes: &[u8]) -> Option<&str>
    ensures { IfSome result (λ text. (text.now ≡ bytes.now) × IsUtf8 bytes.now) }
{
    if bytes.len() < SHORT {
        match str::from_utf8(bytes) {
            Ok(text) => Some(text),
            Err(_) => None,
        }
    } else {
        match simdutf8::compat::from_utf8(bytes) {
            Ok(text) => Some(text),
            Err(_) => None,
        }
    }
}

// The text that bytes are, if each stands for itself.
fn plain_text(bytes: &[u8]) -> Option<&str>
    ensures { IfSome result (λ text. IsPlain bytes.now text.now) }
{
    for byte in bytes {
        if !is_plain(*byte) {
            return None;
        }
    }
    text_of(bytes)
}

/// The whole number of a body that is an object of this one number, if it is written without spaces,
/// or with one after the colon. Where there is none, the body may yet be any.
pub fn lone_whole(bytes: &[u8], name: &str) -> Option<u64>
    requires plain { escape name.now ≡ name.now }
    requires ascii { IsAscii name.now }
    ensures { IfSome result (IsLone bytes.now name.now) }
{
    let named = rest_after(rest_after(bytes, b"{\"")?, name.as_bytes())?;
    let value = after_space(rest_after(named, b"\":")?);
    site_digits::number(before_brace(value)?)
}

/// The text of a body that is an object of this one text, if it is written without escapes, and
/// without spaces or with one after the colon. Where there is none, the body may yet be any.
pub fn lone_text<'b>(bytes: &'b [u8], name: &str) -> Option<&'b str>
    requires plain { escape name.now ≡ name.now }
    requires ascii { IsAscii name.now }
    ensures { IfSome result (λ text. IsLoneText bytes.now name.now text.now) }
{
    let named = rest_after(rest_after(bytes, b"{\"")?, name.as_bytes())?;
    let value = rest_after(after_space(rest_after(named, b"\":")?), b"\"")?;
    plain_text(before_quote(value)?)
}
