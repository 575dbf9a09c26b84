//! How numbers and bytes are spelled in a script.
use crate::script::MessageFault;
use std::alloc::{AllocError, Global};
use std::fmt::Write;
use std::str::FromStr;

/// The first word of a line, and what comes after the space after it.
pub(crate) fn first_word(line: &str) -> (&str, &str) {
    line.split_once(' ').unwrap_or((line, ""))
}

/// The number that a word spells.
pub(crate) fn number<T: FromStr>(word: &str) -> Result<T, MessageFault>
where
    <T as FromStr>::Err: Drop,
{
    match word.parse() {
        Ok(number) => Ok(number),
        Err(_) => Err(MessageFault::Script),
    }
}

/// Adds the text after the first word as often as that word says.
pub(crate) fn repeat(bytes: &mut Vec<u8>, line: &str) -> Result<(), MessageFault> {
    let (times, text) = first_word(line);
    let times: u32 = number(times)?;
    for _ in 0..times {
        push(bytes, text)?;
    }
    Ok(())
}

/// Adds the bytes that a text spells: an ASCII character as itself, and `\r`, `\n`, `\t` and `\xff`.
pub(crate) fn push(bytes: &mut Vec<u8>, text: &str) -> Result<(), MessageFault> {
    for (place, part) in text.split('\\').enumerate() {
        let mut plain = part.as_bytes();
        if place > 0 {
            let (byte, rest) = unescape(plain)?;
            bytes.extend_from_slice(&[byte])?;
            plain = rest;
        }
        bytes.extend_from_slice(plain)?;
    }
    Ok(())
}

// The byte that what follows a backslash spells, and what comes after it.
fn unescape(part: &[u8]) -> Result<(u8, &[u8]), MessageFault> {
    match part {
        [b'r', rest @ ..] => Ok((b'\r', rest)),
        [b'n', rest @ ..] => Ok((b'\n', rest)),
        [b't', rest @ ..] => Ok((b'\t', rest)),
        [b'x', high, low, rest @ ..] => Ok((digit(*high) << 4 | digit(*low), rest)),
        _ => Err(MessageFault::Script),
    }
}

// The value of a hexadecimal digit, or 0.
fn digit(byte: u8) -> u8 {
    match byte {
        b'0'..=b'9' => byte - b'0',
        b'a'..=b'f' => byte - b'a' + 10,
        _ => 0,
    }
}

/// The spelling of bytes.
pub(crate) fn spell(alloc: Global, bytes: &[u8]) -> Result<String, AllocError> {
    let mut text = String::new(alloc);
    for byte in bytes {
        match *byte {
            b'\r' => text.push_str("\\r")?,
            b'\n' => text.push_str("\\n")?,
            b'\t' => text.push_str("\\t")?,
            b' '..=b'~' => text.push(char::from(*byte))?,
            other => write!(text, "\\x{other:02x}")?,
        }
    }
    Ok(text)
}
