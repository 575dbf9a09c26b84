//! One whole message.
ghost use Rattle.std.specs.Prelude.{◌≡◌, option_map, IsTrue, List, ℕ};
ghost use Rattle.wire.specs.Fields.{ends_connection, only, values_of};
ghost use Rattle.wire.specs.Known.{IsCount};

use crate::fields::Values;
use crate::lines::one_of;
use std::marker::Model;

/// One whole message: it borrows the bytes that it was read from. Clauses see what it says.
#[derive(Drop)]
pub struct Request<'b> {
    pub(crate) method: &'b [u8],
    pub(crate) target: &'b [u8],
    pub(crate) minor: u8,
    // The lines of the fields, which are read again where a field is asked for: to keep where 64
    // fields are costs more than to read a few lines twice.
    pub(crate) lines: &'b [u8],
    pub(crate) body: &'b [u8],
    pub(crate) closes: bool,
    // Two fields that are asked for again and again, noted when the head was found.
    pub(crate) member: Values<'b>,
    pub(crate) moment: Values<'b>,
    pub(crate) size: usize,
}

impl<'b> Model for Request<'b> {
    ghost use Rattle.std.specs.Prelude.{◌≡◌, codes};
    ghost use Rattle.wire.specs.Fields.{ends_connection, values_of};
    ghost use Rattle.wire.specs.Known.{IsCount};
    ghost use Rattle.wire.specs.Lines.{fields_in};
    ghost use Rattle.wire.specs.Message.{Message};

    ghost Value = { Message };

    ghost view = { λ r. record {
      method = r.method.now;
      target = r.target.now;
      minor = r.minor;
      fields = fields_in r.lines.now;
      body = r.body.now;
      length = r.size;
    } };

    ghost invariant = { λ r. (r.closes ≡ ends_connection r.minor (fields_in r.lines.now))
        × IsCount (values_of (codes "x-member") (fields_in r.lines.now)) r.member
        × IsCount (values_of (codes "x-moment") (fields_in r.lines.now)) r.moment };
}

// Whether a name is the very one that is noted. At a constant, `starts_with` is a compare or two.
#[inline(always)]
fn is_noted(name: &[u8], noted: &[u8]) -> bool
    ensures { IsTrue result → name.now ≡ noted.now }
{
    name.len() == noted.len() && name.starts_with(noted)
}

// The one value among those noted.
#[inline(always)]
fn only_of<'b>(values: Values<'b>) -> Option<&'b [u8]>
    ensures { (all : List (List ℕ)) → IsCount all values.entry → option_map (λ value. value.now) result ≡ only all }
{
    match values {
        Values::One(value) => Some(value),
        _ => None,
    }
}

impl<'b> Request<'b> {
    /// The method, in the case in which it came.
    pub fn method(&self) -> &'b [u8]
        ensures { result.now ≡ self.now.method }
    {
        self.method
    }

    /// The target of the request line.
    pub fn target(&self) -> &'b [u8]
        ensures { result.now ≡ self.now.target }
    {
        self.target
    }

    /// The body.
    pub fn body(&self) -> &'b [u8]
        ensures { result.now ≡ self.now.body }
    {
        self.body
    }

    /// The value of a field that occurs exactly once, without spaces and tabs round it. Names are
    /// compared without ASCII case.
    #[inline(always)]
    pub fn one(&self, name: &[u8]) -> Option<&'b [u8]>
        ensures { option_map (λ value. value.now) result ≡ only (values_of name.now self.now.fields) }
    {
        if is_noted(name, b"x-member") {
            return only_of(self.member);
        }
        if is_noted(name, b"x-moment") {
            return only_of(self.moment);
        }
        one_of(self.lines, name)
    }

    /// Whether the connection ends after the message: it is of HTTP/1.0, or a `connection` names
    /// `close` (RFC 9112, 9.3).
    pub fn closes(&self) -> bool
        ensures { result ≡ ends_connection self.now.minor self.now.fields }
    {
        self.closes
    }

    /// The length of the message, head and body, in bytes.
    pub fn length(&self) -> usize
        ensures { result ≡ self.now.length }
    {
        self.size
    }
}
