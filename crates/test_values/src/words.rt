//! How numbers, bytes and texts are spelled in a script.
use crate::script::ValuesFault;
use cents::Cents;
use std::alloc::Global;
use std::str::FromStr;

/// The first word of a line, and what comes after the space after it.
pub(crate) fn first_word(line: &str) -> (&str, &str) {
    line.split_once(' ').unwrap_or((line, ""))
}

/// The number that a word spells.
pub(crate) fn number<T: FromStr>(word: &str) -> Result<T, ValuesFault>
where
    <T as FromStr>::Err: Drop,
{
    match word.parse() {
        Ok(number) => Ok(number),
        Err(_) => Err(ValuesFault::Script),
    }
}

/// The number that a word spells, where it isn't `-`.
pub(crate) fn optional<T: FromStr>(word: &str) -> Result<Option<T>, ValuesFault>
where
    <T as FromStr>::Err: Drop,
{
    if word == "-" {
        return Ok(None);
    }
    Ok(Some(number(word)?))
}

/// The amount that a word spells, in cents.
pub(crate) fn amount(word: &str) -> Result<Cents, ValuesFault> {
    Cents::new(number(word)?).ok_or(ValuesFault::Script)
}

/// Adds the bytes that a text spells: an ASCII character as itself, and `\r`, `\n`, `\t` and `\xff`.
pub(crate) fn push(bytes: &mut Vec<u8>, text: &str) -> Result<(), ValuesFault> {
    for (place, part) in text.split('\\').enumerate() {
        let mut plain = part.as_bytes();
        if place > 0 {
            let (byte, rest) = unescape(plain)?;
            bytes.extend_from_slice(&[byte])?;
            plain = rest;
        }
        bytes.extend_from_slice(plain)?;
    }
    Ok(())
}

// The byte that what follows a backslash spells, and what comes after it.
fn unescape(part: &[u8]) -> Result<(u8, &[u8]), ValuesFault> {
    match part {
        [b'r', rest @ ..] => Ok((b'\r', rest)),
        [b'n', rest @ ..] => Ok((b'\n', rest)),
        [b't', rest @ ..] => Ok((b'\t', rest)),
        [b'x', high, low, rest @ ..] => Ok((digit(*high) << 4 | digit(*low), rest)),
        _ => Err(ValuesFault::Script),
    }
}

// The value of a hexadecimal digit, or 0.
fn digit(byte: u8) -> u8 {
    match byte {
        b'0'..=b'9' => byte - b'0',
        b'a'..=b'f' => byte - b'a' + 10,
        _ => 0,
    }
}

/// The text that a line spells, in which `\20ac;` is the character of that number.
pub(crate) fn text_of(alloc: Global, line: &str) -> Result<String, ValuesFault> {
    let mut text = String::new(alloc);
    push_characters(&mut text, line)?;
    Ok(text)
}

fn push_characters(text: &mut String, line: &str) -> Result<(), ValuesFault> {
    for (place, part) in line.split('\\').enumerate() {
        let mut plain = part;
        if place > 0 {
            let (number, rest) = part.split_once(';').ok_or(ValuesFault::Script)?;
            let number = u32::from_str_radix(number, 16).map_err(|_| ValuesFault::Script)?;
            text.push(char::from_u32(number).ok_or(ValuesFault::Script)?)?;
            plain = rest;
        }
        text.push_str(plain)?;
    }
    Ok(())
}
