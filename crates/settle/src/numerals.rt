//! The digits of a date.
ghost use Rattle.std.specs.Prelude.{◌≡◌, ◌≢◌, ◌<◌, ◌∷◌, [], ℕ, IsNone, IfSome};
ghost use Rattle.cents.specs.Spelling.{two_digits};
ghost use Rattle.settle.specs.Calendar.{YearMonthDay, date_words};

/// The year, month and day that a text of ten bytes gives in digits: `YYYY-MM-DD`. The calendar
/// need not have that day.
#[tactic(auto, unfolding(crate::specs::Calendar::date_words))]
pub fn read_date(text: &[u8]) -> Option<(u16, u8, u8)>
    ensures some { IfSome result (λ p. (p.0 < 10000) × (p.1 < 100) × (p.2 < 100)
        × text.now ≡ date_words (record { year = p.0; month = p.1; day = p.2 })) }
    ensures none { IsNone result → (d : YearMonthDay) → d.year < 10000 → d.month < 100 → d.day < 100
        → text.now ≢ date_words d }
{
    let &[y1, y2, y3, y4, b'-', m1, m2, b'-', d1, d2] = text else {
        return None;
    };
    let century = two(y1, y2)?;
    let year = two(y3, y4)?;
    let month = two(m1, m2)?;
    let day = two(d1, d2)?;
    Some((u16::from(century) * 100 + u16::from(year), month, day))
}

// The number that two digits write.
fn two(tens: u8, ones: u8) -> Option<u8>
    ensures some { IfSome result (λ n. (n < 100) × (two_digits n ≡ tens ∷ ones ∷ [])) }
    ensures none { IsNone result → (n : ℕ) → n < 100 → two_digits n ≢ tens ∷ ones ∷ [] }
{
    if tens.is_ascii_digit() && ones.is_ascii_digit() {
        Some((tens - b'0') * 10 + (ones - b'0'))
    } else {
        None
    }
}
