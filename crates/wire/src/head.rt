//! A head at the front of some bytes.
ghost use Rattle.std.specs.Prelude.{◌≤◌, length, IfSome, IsNone};
ghost use Rattle.httparse.specs.Spans.{RequestOverflows};
ghost use Rattle.wire.specs.Front.{IsFound};

use crate::known::{Known, known_of};
use httparse::spans::{EMPTY_HEADER_SPAN, HeaderSpan, parse_request};
use httparse::{Error, Status};

// The most fields of a head.
const MOST_FIELDS: usize = 64;

// Most heads have no more fields: a search with this room first has less to clear.
const FEW_FIELDS: usize = 16;

// The most bytes of a head.
const MOST_BYTES: usize = 8192;

/// What the frame takes from a head.
#[derive(Clone, Copy)]
pub(crate) struct Parts<'b> {
    pub(crate) method: &'b [u8],
    pub(crate) target: &'b [u8],
    pub(crate) minor: u8,
    pub(crate) known: Known<'b>,
    /// The length of the head, where the body begins.
    pub(crate) len: usize,
}

/// The result of the search for a head.
#[derive(Drop)]
pub(crate) enum Head<'b> {
    /// The parts of the head.
    Found(Parts<'b>),
    /// The bytes end before a head does.
    More,
    /// No bytes can follow that make a head.
    Never,
}

// Finds the head at the front, unless it has more fields than the room.
#[inline(always)]
fn head_in<'b>(bytes: &'b [u8], room: &mut [HeaderSpan]) -> Option<Head<'b>>
    requires { length room.old ≤ 64 }
    ensures found { IfSome result (IsFound bytes.now) }
    ensures crowded { IsNone result → RequestOverflows (length room.old) bytes.now }
{
    match parse_request(bytes, room) {
        Ok(Status::Complete(spans)) => {
            if spans.len <= MOST_BYTES {
                Some(Head::Found(Parts {
                    method: spans.method.of(bytes),
                    target: spans.path.of(bytes),
                    minor: spans.version,
                    known: known_of(bytes, &room[..spans.headers]),
                    len: spans.len,
                }))
            } else {
                Some(Head::Never)
            }
        }
        Ok(Status::Partial) => {
            if bytes.len() < MOST_BYTES {
                Some(Head::More)
            } else {
                Some(Head::Never)
            }
        }
        Err(Error::TooManyHeaders) => None,
        Err(_) => Some(Head::Never),
    }
}

/// Finds the head at the front, unless it has more fields than most heads have.
#[inline(always)]
pub(crate) fn head_at<'b>(bytes: &'b [u8]) -> Option<Head<'b>>
    ensures { IfSome result (IsFound bytes.now) }
{
    let mut room = [EMPTY_HEADER_SPAN; FEW_FIELDS];
    head_in(bytes, room.as_mut_slice())
}

/// Finds the head at the front, within the limits.
pub(crate) fn crowded_head_at<'b>(bytes: &'b [u8]) -> Head<'b>
    ensures { IsFound bytes.now result }
{
    let mut room = [EMPTY_HEADER_SPAN; MOST_FIELDS];
    match head_in(bytes, room.as_mut_slice()) {
        Some(head) => head,
        None => Head::Never,
    }
}
