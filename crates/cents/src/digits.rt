//! Digits read as numbers.
ghost use Rattle.std.specs.Prelude.{◌≡◌, ◌≢◌, ◌↔◌, ◌≤◌, ◌<◌, ◌+◌, ◌*◌, ◌++◌, ◌∷◌, ℕ, List, min};
ghost use Rattle.std.specs.Prelude.{length, Ok, IsSome, IsNone, IfSome, IsErrOf};
ghost use Rattle.std.specs.Str.Parse.{IsNumeral, digits_value};

use crate::amount::{Cents, LIMIT};
use crate::fault::CentsFault;

// More whole coins than any amount has. Counting stops there, so that no run of digits overflows.
const PLENTY: u64 = 10_000_001;

// The number that the digits write, or `PLENTY` where it is more; none where they are no digits.
fn number(digits: &[u8]) -> Option<u64>
    ensures digits { IsSome result ↔ IsNumeral 10 digits.now }
    ensures number { IfSome result (λ n. n ≡ min (digits_value 10 digits.now) PLENTY) }
{
    if digits.is_empty() {
        return None;
    }
    let mut number = 0;
    for byte in digits {
        if !byte.is_ascii_digit() {
            return None;
        }
        number = (number * 10 + u64::from(*byte - b'0')).min(PLENTY);
    }
    Some(number)
}

// What is before and after a point, where two bytes follow it to the end.
pub fn split_at_point(text: &[u8]) -> Option<(&[u8], &[u8])>
    ensures some { IfSome result (λ p. (text.now ≡ p.0.now ++ 46 ∷ p.1.now) × (length p.1.now ≡ 2)) }
    ensures none { IsNone result → (whole cents : List ℕ) → length cents ≡ 2 → text.now ≢ whole ++ 46 ∷ cents }
{
    let (front, cents) = text.split_last_chunk::<2>()?;
    Some((front.strip_suffix(b".")?, cents))
}

// The amount of so many whole coins and cents, both in digits.
pub fn amount(whole: &[u8], cents: &[u8]) -> Result<Cents, CentsFault>
    requires { length cents.now ≡ 2 }
    ensures ok { (n : ℕ) → (result ≡ Ok n) ↔ (IsNumeral 10 whole.now × IsNumeral 10 cents.now
        × n ≡ 100 * digits_value 10 whole.now + digits_value 10 cents.now × n ≤ LIMIT) }
    ensures form { IsErrOf result CentsFault.Form ↔ ¬ (IsNumeral 10 whole.now × IsNumeral 10 cents.now) }
    ensures too_large { IsErrOf result CentsFault.TooLarge ↔ (IsNumeral 10 whole.now × IsNumeral 10 cents.now
        × LIMIT < 100 * digits_value 10 whole.now + digits_value 10 cents.now) }
    ensures not_empty { ¬ (IsErrOf result CentsFault.Empty) }
{
    match (number(whole), number(cents)) {
        (Some(whole), Some(cents)) => {
            Cents::new(100 * whole + cents).ok_or(CentsFault::TooLarge)
        }
        _ => Err(CentsFault::Form),
    }
}
