//! Bytes that stand for themselves in a string of JSON (RFC 8259, section 7).
//!
//! Promised: which bytes these are, how many of them are in front, and whether all are such;
//! together they are written as they are. Read `specs/Plain.antt` first.
#![tactic(auto)]

ghost use Rattle.std.specs.Prelude.{◌≡◌, ◌↔◌, ◌<◌, ◌≤◌, ℕ, false, get_or, length, take, IsTrue};
ghost use Rattle.json.specs.Print.{escape};
ghost use Rattle.json_plain.specs.Plain.{IsPlainByte};

/// Whether a byte stands for itself in a string of JSON.
#[inline(always)]
pub fn is_plain(byte: u8) -> bool
    ensures { IsTrue result ↔ IsPlainByte byte }
{
    byte >= 0x20 && byte != b'"' && byte != b'\\'
}

/// How many bytes in front stand for themselves in a string.
// Inlined, its loop would carry along each place that a caller reckons from its end, an instruction more a byte for
// each.
#[inline(never)]
pub fn plain_length(bytes: &[u8]) -> usize
    ensures plain { escape (take result bytes.now) ≡ take result bytes.now }
    ensures within { result ≤ length bytes.now }
    ensures longest { result < length bytes.now → ¬ (IsPlainByte (get_or bytes.now result 0)) }
{
    let mut end = 0;
    while end < bytes.len() && is_plain(bytes[end]) {
        end += 1;
    }
    end
}

/// Whether all stand for themselves in a string.
// Each is looked at, whatever came before, so that many are looked at in one step.
pub fn are_plain(bytes: &[u8]) -> bool
    ensures plain { IsTrue result → escape bytes.now ≡ bytes.now }
    ensures other { result ≡ false → (place : ℕ) × (place < length bytes.now)
        × ¬ (IsPlainByte (get_or bytes.now place 0)) }
{
    let mut plain = true;
    for byte in bytes {
        plain = is_plain(*byte) & plain;
    }
    plain
}
