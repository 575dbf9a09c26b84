//! Lists of item numbers.
ghost use Rattle.std.specs.Prelude.{◌≡◌, ◌||◌, ◌++◌, ℕ, nat_le, filter, IfOk, IfErr, OnOk};
ghost use Rattle.house_rows.specs.declared.fault.KeepFault.TheVariants as fault;
ghost use Rattle.list_items.specs.Rising.{IsRising, is_among};

use house_rows::KeepFault;
use std::alloc::Global;

/// Puts numbers in rising order, each of them once.
pub(crate) fn make_rising(numbers: &mut Vec<u32>)
    ensures rising { IsRising numbers.new.items }
    ensures same { (n : ℕ) → is_among numbers.new.items n ≡ is_among numbers.old.items n }
{
    numbers.sort_unstable();
    numbers.dedup();
}

/// The numbers of three lists in rising order, each of them once.
pub(crate) fn merge(
    alloc: Global,
    first: &[u32],
    second: &[u32],
    third: &[u32],
) -> Result<Vec<u32>, KeepFault>
    ensures rising { IfOk result (λ v. IsRising v.items) }
    ensures same { IfOk result (λ v. (n : ℕ)
        → is_among v.items n ≡ (is_among first.now n
        || (is_among second.now n || is_among third.now n))) }
    ensures memory { IfErr result (λ e. e ≡ fault.Memory) }
{
    let mut numbers = Vec::new(alloc);
    extend(&mut numbers, first)?;
    extend(&mut numbers, second)?;
    extend(&mut numbers, third)?;
    make_rising(&mut numbers);
    Ok(numbers)
}

/// Those of rising numbers that are not below a number.
pub(crate) fn numbers_from(numbers: &[u32], from: u64) -> &[u32]
    requires { IsRising numbers.now }
    ensures { result.now ≡ filter (nat_le from) numbers.now }
{
    let first = numbers.partition_point(|number| u64::from(*number) < from);
    &numbers[first..]
}

// More numbers at the end.
fn extend(numbers: &mut Vec<u32>, more: &[u32]) -> Result<(), KeepFault>
    ensures ok { OnOk result (numbers.new.items ≡ numbers.old.items ++ more.now) }
    ensures memory { IfErr result (λ e. e ≡ fault.Memory) }
{
    match numbers.extend_from_slice(more) {
        Ok(()) => Ok(()),
        Err(_) => Err(KeepFault::Memory),
    }
}
