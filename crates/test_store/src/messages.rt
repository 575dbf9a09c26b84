//! The messages that a script's lines spell.
use std::alloc::{AllocError, Global};
use std::fmt::Write;

/// The first word of a line, and what comes after the space after it.
pub(crate) fn first_word(line: &str) -> (&str, &str) {
    line.split_once(' ').unwrap_or((line, ""))
}

/// The command that a line spells: `MEMBER MOMENT TARGET BODY`.
pub(crate) fn command(alloc: Global, line: &str) -> Result<String, AllocError> {
    let (member, line) = first_word(line);
    let (moment, line) = first_word(line);
    let (target, body) = first_word(line);
    let length = body.len();
    let mut text = String::new(alloc);
    write!(
        text,
        "POST {target} HTTP/1.1\r\nhost: h\r\nx-member: {member}\r\nx-moment: {moment}\r\n"
    )?;
    write!(text, "content-length: {length}\r\n\r\n{body}")?;
    Ok(text)
}

/// The read that a line spells: `MEMBER TARGET`.
pub(crate) fn read(alloc: Global, line: &str) -> Result<String, AllocError> {
    let (member, target) = first_word(line);
    format!(in alloc; "GET {target} HTTP/1.1\r\nhost: h\r\nx-member: {member}\r\n\r\n")
}
