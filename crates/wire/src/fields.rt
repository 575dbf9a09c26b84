//! The values that are under a name.
ghost use Rattle.std.specs.Prelude.{◌≡◌, ◌++◌, ◌∷◌, [], List, ℕ, if◌then◌else◌, length, true};
ghost use Rattle.std.specs.Str.{str_eq_ignore_ascii_case};
ghost use Rattle.httparse.specs.Grammar.{is_ows, trim_ows};
ghost use Rattle.wire.specs.Fields.{is_close, names_close};
ghost use Rattle.wire.specs.Known.{IsCount};

/// The values of the fields of one name, as far as anyone asks.
#[derive(Clone, Copy)]
pub(crate) enum Values<'b> {
    Absent,
    One(&'b [u8]),
    Many,
}

impl<'b> Values<'b> {
    /// These values, and one more if the field has the name.
    pub(crate) fn and(self, is_named: bool, value: &'b [u8]) -> Values<'b>
        ensures { (values : List (List ℕ)) → IsCount values self.entry
            → IsCount (if is_named then values ++ value.now ∷ [] else values) result }
    {
        if !is_named {
            return self;
        }
        match self {
            Values::Absent => Values::One(value),
            Values::One(_) => Values::Many,
            Values::Many => Values::Many,
        }
    }
}

/// Whether two names are the same but for ASCII case.
#[inline(always)]
pub(crate) fn is_same(name: &[u8], wanted: &[u8]) -> bool
    ensures { result ≡ str_eq_ignore_ascii_case name.now wanted.now }
{
    // Most names come in the case in which they are asked for.
    name.len() == wanted.len() && (is_exact(name, wanted) || name.eq_ignore_ascii_case(wanted))
}

// Whether a name is another of its length. At a constant, `starts_with` of eight bytes is one
// compare, where `==` is a call.
#[inline(always)]
fn is_exact(name: &[u8], wanted: &[u8]) -> bool
    requires { length name.now ≡ length wanted.now }
    ensures { result ≡ true → name.now ≡ wanted.now }
{
    let front = wanted.len().min(8);
    name.starts_with(&wanted[..front]) && name[front..].starts_with(&wanted[front..])
}

// Whether a byte is a space or a tab.
fn is_blank(byte: u8) -> bool
    ensures { result ≡ is_ows byte }
{
    byte == b' ' || byte == b'\t'
}

/// The bytes without the spaces and tabs at both ends.
pub(crate) fn trim(bytes: &[u8]) -> &[u8]
    ensures { result.now ≡ trim_ows bytes.now }
{
    let mut start = 0;
    let mut end = bytes.len();
    while start < end && is_blank(bytes[start]) {
        start += 1;
    }
    while start < end && is_blank(bytes[end - 1]) {
        end -= 1;
    }
    &bytes[start..end]
}

// Whether a piece of a list is the token `close`.
#[tactic(auto, unfolding(crate::specs::Fields::is_close))]
fn is_close_token(piece: &[u8]) -> bool
    ensures { result ≡ is_close piece.now }
{
    trim(piece).eq_ignore_ascii_case(b"close")
}

/// Whether a list, parted by commas, has the token `close`. Few messages have such a list.
#[inline(never)]
pub(crate) fn has_close(list: &[u8]) -> bool
    ensures { result ≡ names_close list.now }
{
    let mut start = 0;
    for (place, byte) in list.iter().enumerate() {
        if *byte == b',' {
            if is_close_token(&list[start..place]) {
                return true;
            }
            start = place + 1;
        }
    }
    is_close_token(&list[start..])
}
