//! What holds of every text and every amount.
ghost use Rattle.std.specs.Prelude.{◌≡◌, ◌<◌, ◌^◌, ℕ, List};
ghost use Rattle.cents.specs.Spelling.{IsSpelling, amount_text};

/// The text that shows an amount spells it, and no text spells two amounts.
pub fn shown_amounts_read_back()
    ensures spelled { (n : ℕ) → n < 2 ^ 64 → IsSpelling (amount_text n) n }
    ensures one { (text : List ℕ) (m n : ℕ) → IsSpelling text m → IsSpelling text n → m ≡ n }
{}
