//! The plain values of an object.
ghost use Rattle.std.specs.Prelude.{◌≡◌, ◌++◌, OnOk};
ghost use Rattle.std.specs.Io.{StartsWith};
ghost use Rattle.json.specs.Print.{quoted};
ghost use Rattle.pages_json.specs.Words.{text_of};
ghost use Rattle.pages_json.specs.Fields.{field_tree};

use itoa::{Buffer, Integer};
use json::Writer;
use json_plain::are_plain;
use std::alloc::{AllocError, Global};
use std::mem::replace;

/// What a key of an object has.
#[derive(Clone, Copy)]
pub enum Field<'a> {
    /// A number.
    Number(u64),
    /// A number, or null.
    Maybe(Option<u64>),
    /// A text.
    Text(&'a str),
    /// A text, or null.
    MaybeText(Option<&'a str>),
    /// A number that may be below zero.
    Integer(i64),
    /// Whether something holds.
    Flag(bool),
    /// Whether something holds, or null.
    MaybeFlag(Option<bool>),
}

// Appends the digits of a number.
fn put_digits<I: Integer>(out: &mut Vec<u8>, n: I) -> Result<(), AllocError>
    ensures text { OnOk result (out.new.items ≡ out.old.items ++ I.text n) }
    ensures front { StartsWith out.new.items out.old.items }
{
    let mut digits = Buffer::new();
    out.extend_from_slice(digits.format(n).as_bytes())?;
    Ok(())
}

// Appends a text between quotes, with its escapes.
#[tactic(auto, using(crate::proofs::Texts::string_printed))]
fn put_escaped(alloc: Global, out: &mut Vec<u8>, text: &str) -> Result<(), AllocError>
    ensures text { OnOk result (out.new.items ≡ out.old.items ++ quoted text.now) }
    ensures front { StartsWith out.new.items out.old.items }
{
    let mut w = Writer::new(replace(out, Vec::new(alloc)));
    let put = w.string(text);
    *out = w.into_inner();
    put
}

// Appends a text between quotes. One without escapes is copied as it is: a writer clears a kilobyte
// for each text.
#[tactic(auto, using(crate::proofs::Texts::plain_quoted))]
fn put_text(alloc: Global, out: &mut Vec<u8>, text: &str) -> Result<(), AllocError>
    ensures text { OnOk result (out.new.items ≡ out.old.items ++ quoted text.now) }
    ensures front { StartsWith out.new.items out.old.items }
{
    if !are_plain(text.as_bytes()) {
        return put_escaped(alloc, out, text);
    }
    out.push(b'"')?;
    out.extend_from_slice(text.as_bytes())?;
    out.push(b'"')?;
    Ok(())
}

// Appends one value.
#[inline(always)]
#[tactic(auto, unfolding(crate::specs::Words::text_of))]
pub(crate) fn put_value(
    alloc: Global,
    out: &mut Vec<u8>,
    field: &Field<'_>,
) -> Result<(), AllocError>
    ensures text { OnOk result
        (out.new.items ≡ out.old.items ++ text_of (field_tree field.now)) }
    ensures front { StartsWith out.new.items out.old.items }
{
    match field {
        Field::Number(n) | Field::Maybe(Some(n)) => put_digits(out, *n),
        Field::Text(text) | Field::MaybeText(Some(text)) => put_text(alloc, out, text),
        Field::Maybe(None) | Field::MaybeText(None) | Field::MaybeFlag(None) => {
            out.extend_from_slice(b"null")
        }
        Field::Integer(z) => put_digits(out, *z),
        Field::Flag(true) | Field::MaybeFlag(Some(true)) => out.extend_from_slice(b"true"),
        Field::Flag(false) | Field::MaybeFlag(Some(false)) => out.extend_from_slice(b"false"),
    }
}
