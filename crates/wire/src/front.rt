//! What is at the front of the bytes of a stream.
ghost use Rattle.wire.specs.Front.{IsFound, IsFrontSoFar};

use crate::fault::WireFault;
use crate::head::{Head, crowded_head_at, head_at};
use crate::lines::field_lines;
use crate::request::Request;

// What is round the method and the target in the line of a request, of either version.
const VERSION: &[u8] = b"  HTTP/1.1";

/// Why the bytes are no message yet.
#[derive(Clone, Copy)]
pub(crate) enum Missing {
    /// They end inside a head.
    Head,
    /// They end inside a body.
    Body,
    /// They never become one.
    Fault(WireFault),
}

// The message whose head was looked for.
#[inline(always)]
fn message_at<'b>(bytes: &'b [u8], head: Head<'b>) -> Result<Request<'b>, Missing>
    requires { IsFound bytes.now head }
    ensures { IsFrontSoFar bytes.now result }
{
    let head = match head {
        Head::Found(head) => head,
        Head::More => return Err(Missing::Head),
        Head::Never => return Err(Missing::Fault(WireFault::Head)),
    };
    let size = match head.known.body_length(head.minor) {
        Ok(size) => size,
        Err(fault) => return Err(Missing::Fault(fault)),
    };
    let after = &bytes[head.len..];
    if after.len() < size {
        return Err(Missing::Body);
    }
    Ok(Request {
        method: head.method,
        target: head.target,
        minor: head.minor,
        lines: field_lines(
            &bytes[..head.len],
            head.method.len() + head.target.len() + VERSION.len(),
        ),
        body: &after[..size],
        closes: head.known.ends_connection(head.minor),
        member: head.known.member,
        moment: head.known.moment,
        size: head.len + size,
    })
}

// The message at the front of the bytes, where its head has many fields. It is a function of its own,
// so that others clear no room for so many, and keep the parts of a head out of memory.
#[inline(never)]
fn crowded_front<'b>(bytes: &'b [u8]) -> Result<Request<'b>, Missing>
    ensures { IsFrontSoFar bytes.now result }
{
    message_at(bytes, crowded_head_at(bytes))
}

/// The message at the front of the bytes.
#[inline(always)]
pub(crate) fn front<'b>(bytes: &'b [u8]) -> Result<Request<'b>, Missing>
    ensures { IsFrontSoFar bytes.now result }
{
    match head_at(bytes) {
        Some(head) => message_at(bytes, head),
        None => crowded_front(bytes),
    }
}
