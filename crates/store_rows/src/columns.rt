//! The values of a shown row, each as its type. A value is damaged only where it is none of its type.
ghost use Rattle.std.specs.Prelude.{◌≡◌, ◌≢◌, ◌≤◌, ◌<◌, ◌^◌, IfErr, IfOk, IfSome, IsErrOf, length, option_map, string_bytes};
ghost use Rattle.sqlite_value.specs.Order.{column};
ghost use Rattle.house_rows.specs.Limits.{most_cents};
ghost use Rattle.house_rows.specs.declared.fault.KeepFault.TheVariants.{Damaged, Memory, Store};
ghost use Rattle.store_rows.specs.Counts.{count_in};
ghost use Rattle.store_rows.specs.Rows.{maybe_number_in, maybe_text_in, no_text, number_in, text_in};

use cents::Cents;
use house_rows::{KeepFault, Text};
use sqlite::types::FromSql;
use sqlite::{Error, ErrorCode, Row};

/// The value of a column.
pub(crate) fn value_at<T: FromSql>(row: &Row, at: usize) -> Result<T, KeepFault>
    ensures value { IfOk result (λ x. T.FromSql.reads_as (column row.now at) x) }
    ensures damaged { at < length row.now
        → T.FromSql.is_readable (column row.now at)
        → ¬ (IsErrOf result Damaged) }
    ensures working { ¬ (IsErrOf result Store) }
{
    match row.get(at) {
        Ok(value) => Ok(value),
        Err(Error::SqliteFailure(ErrorCode::OutOfMemory)) => Err(KeepFault::Memory),
        Err(_) => Err(KeepFault::Damaged),
    }
}

/// A number.
pub fn number_at(row: &Row, at: usize) -> Result<u32, KeepFault>
    ensures value { IfOk result (λ n. n ≡ number_in (column row.now at)) }
    ensures damaged { number_in (column row.now at) < 2 ^ 32 → ¬ (IsErrOf result Damaged) }
    ensures working { ¬ (IsErrOf result Store) }
{
    value_at(row, at)
}

/// A count.
pub(crate) fn count_at(row: &Row, at: usize) -> Result<u64, KeepFault>
    ensures value { IfOk result (λ n. n ≡ count_in (column row.now at)) }
    ensures damaged { count_in (column row.now at) < 2 ^ 64 → ¬ (IsErrOf result Damaged) }
    ensures working { ¬ (IsErrOf result Store) }
{
    value_at(row, at)
}

/// A number that may be missing.
pub fn maybe_number_at(row: &Row, at: usize) -> Result<Option<u32>, KeepFault>
    ensures value { IfOk result (λ n. n ≡ maybe_number_in (column row.now at)) }
    ensures damaged { at < length row.now
        → IfSome (maybe_number_in (column row.now at)) (λ n. n < 2 ^ 32)
        → ¬ (IsErrOf result Damaged) }
    ensures working { ¬ (IsErrOf result Store) }
{
    value_at(row, at)
}

/// An amount.
pub fn cents_at(row: &Row, at: usize) -> Result<Cents, KeepFault>
    ensures value { IfOk result (λ n. n ≡ number_in (column row.now at)) }
    ensures damaged { number_in (column row.now at) ≤ most_cents → ¬ (IsErrOf result Damaged) }
    ensures working { ¬ (IsErrOf result Store) }
{
    let amount = number_at(row, at)?;
    match Cents::new(u64::from(amount)) {
        Some(cents) => Ok(cents),
        None => Err(KeepFault::Damaged),
    }
}

/// An amount that may be missing.
pub fn maybe_cents_at(row: &Row, at: usize) -> Result<Option<Cents>, KeepFault>
    ensures value { IfOk result (λ n. n ≡ maybe_number_in (column row.now at)) }
    ensures damaged { at < length row.now
        → IfSome (maybe_number_in (column row.now at)) (λ n. n ≤ most_cents)
        → ¬ (IsErrOf result Damaged) }
    ensures working { ¬ (IsErrOf result Store) }
{
    let Some(amount) = maybe_number_at(row, at)? else {
        return Ok(None);
    };
    match Cents::new(u64::from(amount)) {
        Some(cents) => Ok(Some(cents)),
        None => Err(KeepFault::Damaged),
    }
}

/// A text.
pub(crate) fn text_at(row: &Row, at: usize) -> Result<Text, KeepFault>
    ensures value { IfOk result (λ t. t ≡ text_in (column row.now at)) }
    ensures damaged { text_in (column row.now at) ≢ no_text → ¬ (IsErrOf result Damaged) }
    ensures working { ¬ (IsErrOf result Store) }
{
    let text = value_at(row, at)?;
    let shared = text_of(text)?;
    Ok(shared)
}

/// A text that may be missing.
pub(crate) fn maybe_text_at(row: &Row, at: usize) -> Result<Option<Text>, KeepFault>
    ensures value { IfOk result (λ t. t ≡ maybe_text_in (column row.now at)) }
    ensures damaged { at < length row.now
        → IfSome (maybe_text_in (column row.now at)) (λ t. t ≢ no_text)
        → ¬ (IsErrOf result Damaged) }
    ensures working { ¬ (IsErrOf result Store) }
{
    let text = value_at(row, at)?;
    let shared = maybe_text_of(text)?;
    Ok(shared)
}

// A text of the house.
fn text_of(text: String) -> Result<Text, KeepFault>
    ensures value { IfOk result (λ t. t ≡ string_bytes text) }
    ensures memory { IfErr result (λ fault. fault ≡ Memory) }
{
    match Text::from_string(text) {
        Ok(text) => Ok(text),
        Err(_) => Err(KeepFault::Memory),
    }
}

// A text of the house, if there is one.
fn maybe_text_of(text: Option<String>) -> Result<Option<Text>, KeepFault>
    ensures value { IfOk result (λ t. t ≡ option_map string_bytes text) }
    ensures memory { IfErr result (λ fault. fault ≡ Memory) }
{
    match text {
        None => Ok(None),
        Some(text) => Ok(Some(text_of(text)?)),
    }
}
