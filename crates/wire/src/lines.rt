//! The lines of a head.
ghost use Rattle.std.specs.Prelude.{◌≡◌, ◌++◌, ◌∷◌, [], ◌==◌, List, MatchOption, length, option_map, ℕ};
ghost use Rattle.std.specs.List.{before_first};
ghost use Rattle.httparse.specs.Grammar.{IsRequestHead, LineEnd, RequestHead, print_end, print_request};
ghost use Rattle.wire.specs.Fields.{Pair, only, values_of};
ghost use Rattle.wire.specs.Frame.{fields_of};
ghost use Rattle.wire.specs.Known.{IsCount};
ghost use Rattle.wire.specs.Lines.{field_in, fields_in, request_line};

use crate::fields::{Values, is_same, trim};
use memchr::memchr;

/// The lines of the fields of a head: those after the line of the request, which has that length
/// without its end. What is left of that line is its end, in which no field is.
pub(crate) fn field_lines(head: &[u8], line: usize) -> &[u8]
    ensures { (h : RequestHead) → IsRequestHead h → head.now ≡ print_request h
        → line ≡ length (request_line h) → fields_in result.now ≡ fields_of h }
{
    // Empty lines may come before that of the request.
    match head.trim_ascii_start().get(line..) {
        Some(text) => text,
        None => &[],
    }
}

// What comes before the carriage return.
fn before_return(raw: &[u8]) -> &[u8]
    ensures { result.now ≡ before_first (λ b. b == 13) raw.now }
{
    match memchr(b'\r', raw) {
        Some(end) => &raw[..end],
        None => raw,
    }
}

// The value of the field of a line, if it has that name.
fn value_in<'b>(line: &'b [u8], name: &[u8]) -> Option<&'b [u8]>
    ensures { MatchOption result (values_of name.now (field_in line.now) ≡ [])
        (λ value. values_of name.now (field_in line.now) ≡ value.now ∷ []) }
{
    // One look passes over most lines: the name ends at the first colon.
    if line.len() <= name.len() || line[name.len()] != b':' {
        return None;
    }
    if !is_same(&line[..name.len()], name) {
        return None;
    }
    let colon = memchr(b':', line)?;
    if colon < name.len() {
        return None;
    }
    Some(trim(before_return(&line[colon + 1..])))
}

// These values, and that of one more line.
fn and_line<'b>(values: Values<'b>, line: &'b [u8], name: &[u8]) -> Values<'b>
    ensures { (fields : List Pair) → IsCount (values_of name.now fields) values.entry
        → IsCount (values_of name.now (fields ++ field_in line.now)) result }
{
    match value_in(line, name) {
        Some(value) => values.and(true, value),
        None => values,
    }
}

/// The value of the field of that name, if there is exactly one among the lines.
pub(crate) fn one_of<'b>(lines: &'b [u8], name: &[u8]) -> Option<&'b [u8]>
    ensures { option_map (λ value. value.now) result ≡ only (values_of name.now (fields_in lines.now)) }
{
    let mut values = Values::Absent;
    let mut rest = lines;
    while let Some(end) = memchr(b'\n', rest) {
        values = and_line(values, &rest[..end], name);
        rest = &rest[end..][1..];
    }
    match and_line(values, rest, name) {
        Values::One(value) => Some(value),
        _ => None,
    }
}
