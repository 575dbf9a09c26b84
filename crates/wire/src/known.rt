//! What is asked of the fields of a head, picked on one walk over them.
ghost use Rattle.std.specs.Prelude.{◌≡◌, ◌≤◌, ◌<◌, ◌++◌, ◌∷◌, [], List, length, map, All, IfOk, ◌&&◌, codes};
ghost use Rattle.std.specs.Str.{str_eq_ignore_ascii_case};
ghost use Rattle.httparse.specs.Spans.{IsHeaderWithin, header_bytes};
ghost use Rattle.wire.specs.Fields.{Pair, ends_connection, names_close, body_length};
ghost use Rattle.wire.specs.Frame.{announced};
ghost use Rattle.wire.specs.Known.{IsKnown};

use crate::fault::WireFault;
use crate::fields::{Values, has_close, is_same};
use httparse::spans::HeaderSpan;

/// What a frame asks of the fields, and what every message and every command is asked for.
#[derive(Clone, Copy)]
pub(crate) struct Known<'b> {
    pub(crate) hosts: Values<'b>,
    pub(crate) transfer: bool,
    pub(crate) length: Values<'b>,
    pub(crate) closes: bool,
    /// The values of `x-member`, which every message is asked for.
    pub(crate) member: Values<'b>,
    /// The values of `x-moment`, which every command is asked for.
    pub(crate) moment: Values<'b>,
}

/// Reads what is asked off the fields.
#[inline(always)]
pub(crate) fn known_of<'b>(bytes: &'b [u8], spans: &[HeaderSpan]) -> Known<'b>
    requires { All (IsHeaderWithin (length bytes.now)) spans.now }
    ensures { IsKnown (map (header_bytes bytes.now) spans.now) result }
{
    let mut known = Known {
        hosts: Values::Absent,
        transfer: false,
        length: Values::Absent,
        closes: false,
        member: Values::Absent,
        moment: Values::Absent,
    };
    for span in spans {
        known.add(span.name.of(bytes), span.value.of(bytes));
    }
    known
}

// Whether a name is `x-member`, and whether it is `x-moment`. Most names come in the case in which
// they are asked for: then neither is compared without case. The last byte, which parts the two, is
// looked at first: else the compiler compares a name with both at once.
#[inline(always)]
fn are_asked(name: &[u8]) -> (bool, bool)
    ensures member { result.0 ≡ str_eq_ignore_ascii_case name.now (codes "x-member") }
    ensures moment { result.1 ≡ str_eq_ignore_ascii_case name.now (codes "x-moment") }
{
    if name.len() != 8 {
        return (false, false);
    }
    if name[7] == b'r' && name.starts_with(b"x-member") {
        return (true, false);
    }
    if name[7] == b't' && name.starts_with(b"x-moment") {
        return (false, true);
    }
    (
        name.eq_ignore_ascii_case(b"x-member"),
        name.eq_ignore_ascii_case(b"x-moment"),
    )
}

// Whether a field is a `connection` that names `close`.
#[inline(always)]
fn is_closing(name: &[u8], value: &[u8]) -> bool
    ensures { result ≡ (str_eq_ignore_ascii_case name.now (codes "connection") && names_close value.now) }
{
    is_same(name, b"connection") && has_close(value)
}

impl<'b> Known<'b> {
    // Takes one more field in.
    #[inline(always)]
    fn add(&mut self, name: &[u8], value: &'b [u8])
        ensures { (fields : List Pair) → IsKnown fields self.old → IsKnown (fields ++ (name.now, value.now) ∷ []) self.new }
    {
        self.hosts = self.hosts.and(is_same(name, b"host"), value);
        self.transfer |= is_same(name, b"transfer-encoding");
        self.length = self.length.and(is_same(name, b"content-length"), value);
        self.closes |= is_closing(name, value);
        let (is_member, is_moment) = are_asked(name);
        self.member = self.member.and(is_member, value);
        self.moment = self.moment.and(is_moment, value);
    }

    /// The length of the body, or the first rule that the fields break.
    #[tactic(auto, unfolding(crate::specs::Frame::announced, crate::specs::Fields::has_host))]
    pub(crate) fn body_length(&self, minor: u8) -> Result<usize, WireFault>
        ensures value { (fields : List Pair) → IsKnown fields self.now → result ≡ announced minor fields }
        ensures small { IfOk result (λ n. n ≤ 16384) }
    {
        let has_host = minor == 0 || matches!(self.hosts, Values::One(_));
        if !has_host {
            return Err(WireFault::Host);
        }
        if self.transfer {
            return Err(WireFault::Transfer);
        }
        match self.length {
            Values::Absent => Ok(0),
            Values::One(digits) => length_of(digits),
            Values::Many => Err(WireFault::Length),
        }
    }

    /// Whether the connection ends after the message.
    #[tactic(auto, unfolding(crate::specs::Fields::ends_connection))]
    pub(crate) fn ends_connection(&self, minor: u8) -> bool
        ensures { (fields : List Pair) → IsKnown fields self.now → result ≡ ends_connection minor fields }
    {
        minor == 0 || self.closes
    }
}

// The most bytes of a body.
const MOST_BODY: usize = 16384;

/// The number that one or more digits write. Digits are read to their end, however many they are.
pub(crate) fn length_of(digits: &[u8]) -> Result<usize, WireFault>
    ensures value { result ≡ body_length digits.now }
    ensures small { IfOk result (λ n. n ≤ 16384) }
{
    if digits.is_empty() {
        return Err(WireFault::Length);
    }
    let mut number = 0;
    for byte in digits {
        if !byte.is_ascii_digit() {
            return Err(WireFault::Length);
        }
        // A number that is too large stays so.
        if number <= MOST_BODY {
            number = number * 10 + usize::from(*byte - b'0');
        }
    }
    if number > MOST_BODY {
        return Err(WireFault::Size);
    }
    Ok(number)
}
