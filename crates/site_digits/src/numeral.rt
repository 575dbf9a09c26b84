//! Numbers of a few digits.
ghost use Rattle.std.specs.Prelude.{◌≡◌, ◌≤◌, length};
ghost use Rattle.site_digits.specs.Digits.{count_in, digits_after, number_in};

// The most digits of a number, so that it fits 64 bits.
const MOST_DIGITS: usize = 10;

/// The number that 1 to 10 digits write, the first of which isn't 0.
pub fn number(text: &[u8]) -> Option<u64>
    ensures { result ≡ number_in text.now }
{
    if text.len() > MOST_DIGITS || matches!(text, [] | [b'0', ..]) {
        return None;
    }
    let mut number = 0u64;
    for byte in text {
        if !byte.is_ascii_digit() {
            return None;
        }
        number = number * 10 + u64::from(*byte - b'0');
    }
    Some(number)
}

/// The number that 1 to 10 digits write, the first of which isn't 0 unless it is alone.
pub fn count(text: &[u8]) -> Option<u64>
    ensures { result ≡ count_in text.now }
{
    match text {
        [b'0'] => Some(0),
        _ => number(text),
    }
}
