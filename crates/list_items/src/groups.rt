//! Numbers of items by a number that the items share.
ghost use Rattle.std.specs.Prelude.{◌≡◌, ◌<◌, ◌==◌, ◌++◌, ◌∷◌, [], ℕ, if◌then◌else◌, true, IfErr, OnOk, vec_len, vec_capacity};
ghost use Rattle.house_rows.specs.declared.fault.KeepFault.TheVariants as fault;
ghost use Rattle.list_items.specs.Groups.{has_room, numbers_at};

use house_rows::KeepFault;
use std::alloc::Global;
use std::collections::BTreeMap;

/// The numbers of the items that share a number.
pub(crate) fn numbers_of(groups: &BTreeMap<u64, Vec<u32>>, shared: u64) -> &[u32]
    ensures { result.now ≡ numbers_at groups.now shared }
{
    match groups.get(&shared) {
        Some(numbers) => numbers.as_slice(),
        None => &[],
    }
}

/// Makes room for one more item that shares it.
pub(crate) fn reserve(
    alloc: Global,
    groups: &mut BTreeMap<u64, Vec<u32>>,
    shared: u64,
) -> Result<(), KeepFault>
    ensures same { (k : ℕ) → numbers_at groups.new k ≡ numbers_at groups.old k }
    ensures room { OnOk result (has_room groups.new shared ≡ true) }
    ensures memory { IfErr result (λ e. e ≡ fault.Memory) }
{
    match groups.get_mut(&shared) {
        Some(numbers) => reserve_one(numbers),
        None => reserve_first(alloc, groups, shared),
    }
}

/// One more item shares it, for which there is room.
pub(crate) fn add(groups: &mut BTreeMap<u64, Vec<u32>>, shared: u64, number: u32)
    requires room { has_room groups.old shared ≡ true }
    ensures { (k : ℕ) → numbers_at groups.new k
        ≡ (if shared == k then numbers_at groups.old k ++ number ∷ []
        else numbers_at groups.old k) }
{
    if let Some(numbers) = groups.get_mut(&shared) {
        let _ = numbers.push(number);
    }
}

// Makes room for one more number.
fn reserve_one(numbers: &mut Vec<u32>) -> Result<(), KeepFault>
    ensures same { numbers.new.items ≡ numbers.old.items }
    ensures room { OnOk result (vec_len numbers.new < vec_capacity numbers.new) }
    ensures memory { IfErr result (λ e. e ≡ fault.Memory) }
{
    match numbers.try_reserve(1) {
        Ok(()) => Ok(()),
        Err(_) => Err(KeepFault::Memory),
    }
}

// Makes room for the first item that shares it.
fn reserve_first(
    alloc: Global,
    groups: &mut BTreeMap<u64, Vec<u32>>,
    shared: u64,
) -> Result<(), KeepFault>
    requires new { numbers_at groups.old shared ≡ [] }
    ensures same { (k : ℕ) → numbers_at groups.new k ≡ numbers_at groups.old k }
    ensures room { OnOk result (has_room groups.new shared ≡ true) }
    ensures memory { IfErr result (λ e. e ≡ fault.Memory) }
{
    let mut numbers = Vec::new(alloc);
    reserve_one(&mut numbers)?;
    match groups.insert(shared, numbers) {
        Ok(_) => Ok(()),
        Err(_) => Err(KeepFault::Memory),
    }
}
