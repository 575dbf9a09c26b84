//! What a row of a lot file spells.
ghost use Rattle.std.specs.Prelude.{◌≡◌, ◌≤◌, ℕ, List, Option, IfErr, IfOk, IfSome, IsNone, length};
ghost use Rattle.csv.specs.Records.{fields_of};
ghost use Rattle.site_digits.specs.Digits.{digits_after};
ghost use Rattle.office.specs.Lots.{IsAmountAt, IsChoiceAt, IsFirstFault, IsTextAt, Spells, digits_in, number_at};

use crate::column::Column;
use cents::Cents;
use csv::ByteRecord;

// The most digits of a number, so that it fits 64 bits.
const MOST_DIGITS: usize = 10;

/// What a row of a lot file spells: an item to be listed, its amounts in cents.
#[derive(Clone, Copy)]
pub struct Lot<'a> {
    /// The seller's code of the item.
    pub lot: &'a str,
    /// The number of its category.
    pub category: u64,
    /// Its title.
    pub title: &'a str,
    /// What is said of it.
    pub text: &'a str,
    /// Where the bids start.
    pub start: u64,
    /// The price at which it can be bought at once, if it can.
    pub buy_now: Option<u64>,
    /// The moment at which it ends.
    pub end: u64,
}

// The number that so few digits write.
fn value(digits: &[u8]) -> Option<u64>
    requires { length digits.now ≤ 10 }
    ensures { result ≡ digits_after 0 digits.now }
{
    let mut number = 0u64;
    for byte in digits {
        if !byte.is_ascii_digit() {
            return None;
        }
        number = number * 10 + u64::from(*byte - b'0');
    }
    Some(number)
}

// The number that 1 to 10 digits write. Zeros may lead.
fn digits(field: &[u8]) -> Option<u64>
    ensures { result ≡ digits_in field.now }
{
    if field.is_empty() || field.len() > MOST_DIGITS {
        return None;
    }
    value(field)
}

// The number of a field.
fn number(row: &ByteRecord, at: usize) -> Option<u64>
    ensures { result ≡ number_at (fields_of row.now) at }
{
    digits(row.get(at)?)
}

// The text of a field.
fn text(row: &ByteRecord, at: usize) -> Option<&str>
    ensures some { IfSome result (λ text. IsTextAt (fields_of row.now) at text.now) }
    ensures none { IsNone result → (text : List ℕ) → ¬ (IsTextAt (fields_of row.now) at text) }
{
    match str::from_utf8(row.get(at)?) {
        Ok(text) => Some(text),
        Err(_) => None,
    }
}

// The amount of a field, in cents.
fn amount(row: &ByteRecord, at: usize) -> Option<u64>
    ensures some { IfSome result (IsAmountAt (fields_of row.now) at) }
    ensures none { IsNone result → (n : ℕ) → ¬ (IsAmountAt (fields_of row.now) at n) }
{
    match Cents::parse(text(row, at)?) {
        Ok(amount) => Some(amount.value()),
        Err(_) => None,
    }
}

// The amount of a field that may be empty.
fn choice(row: &ByteRecord, at: usize) -> Option<Option<u64>>
    ensures some { IfSome result (IsChoiceAt (fields_of row.now) at) }
    ensures none { IsNone result → (n : Option ℕ) → ¬ (IsChoiceAt (fields_of row.now) at n) }
{
    if row.get(at)?.is_empty() {
        return Some(None);
    }
    match amount(row, at) {
        Some(amount) => Some(Some(amount)),
        None => None,
    }
}

/// What a row spells, or else the first field, in the order of the head, that can't be read.
pub fn lot_of(row: &ByteRecord) -> Result<Lot<'_>, Column>
    ensures lot { IfOk result (Spells (fields_of row.now)) }
    ensures fault { IfErr result (IsFirstFault (fields_of row.now)) }
{
    let Some(lot) = text(row, 0) else {
        return Err(Column::Lot);
    };
    let Some(category) = number(row, 1) else {
        return Err(Column::Category);
    };
    let Some(title) = text(row, 2) else {
        return Err(Column::Title);
    };
    let Some(words) = text(row, 3) else {
        return Err(Column::Text);
    };
    let Some(start) = amount(row, 4) else {
        return Err(Column::Start);
    };
    let Some(buy_now) = choice(row, 5) else {
        return Err(Column::BuyNow);
    };
    let Some(end) = number(row, 6) else {
        return Err(Column::End);
    };
    Ok(Lot {
        lot,
        category,
        title,
        text: words,
        start,
        buy_now,
        end,
    })
}
