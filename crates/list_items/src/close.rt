//! Items that a close takes.
ghost use Rattle.std.specs.Prelude.{◌≡◌, ◌≤◌, ℕ, true, map, nat_le, take_while, IfSome, IfOk, IfErr, None};
ghost use Rattle.std.specs.BTreeSet.{IsOrdered};
ghost use Rattle.std.specs.Ordering.{nat_cmp, ordering_then};
ghost use Rattle.house_rows.specs.Items.{close_sells, is_due};
ghost use Rattle.house_rows.specs.declared.fault.KeepFault.TheVariants as fault;
ghost use Rattle.list_items.specs.Closing.{AllAfter, TakesEnd};
ghost use Rattle.list_items.specs.Groups.{has_end};
ghost use Rattle.list_items.specs.Rising.{is_among};

use house_rows::{KeepFault, State, Terms};
use std::alloc::{AllocError, Global};
use std::collections::BTreeSet;

/// Takes out the first end, if it is not after the moment: the number that lies with it.
pub(crate) fn next_due(ends: &mut BTreeSet<(u64, u32)>, moment: u64) -> Option<u32>
    ensures taken { IfSome result (λ number. TakesEnd ends.old ends.new number moment) }
    ensures none { result ≡ None → AllAfter ends.new moment × (ends.new ≡ ends.old) }
{
    let (end, number) = *ends.first()?;
    if end > moment {
        return None;
    }
    let _ = ends.pop_first();
    Some(number)
}

/// Whether a close at the moment takes an item.
pub(crate) fn is_due(terms: &Terms, moment: u64) -> bool
    ensures { result ≡ is_due moment terms.now }
{
    terms.state == State::Open && terms.end <= moment
}

/// Whether a close sells an item: somebody leads, and its reserve isn't unmet.
pub(crate) fn close_sells(terms: &Terms) -> bool
    ensures { result ≡ close_sells terms.now.leader terms.now.met }
{
    terms.leader.is_some() && terms.met.unwrap_or(true)
}

/// The numbers that lie with the ends up to the moment.
pub(crate) fn ended_by(
    alloc: Global,
    ends: &BTreeSet<(u64, u32)>,
    moment: u64,
) -> Result<Vec<u32>, KeepFault>
    ensures all { IfOk result (λ v. (e n : ℕ) → has_end ends.now e n ≡ true → e ≤ moment → is_among v.items n ≡ true) }
    ensures memory { IfErr result (λ e. e ≡ fault.Memory) }
{
    match first_ends(alloc, ends, moment) {
        Ok(numbers) => Ok(numbers),
        Err(_) => Err(KeepFault::Memory),
    }
}

// The same, in the order of the ends.
fn first_ends(
    alloc: Global,
    ends: &BTreeSet<(u64, u32)>,
    moment: u64,
) -> Result<Vec<u32>, AllocError>
    ensures numbers { IfOk result (λ v. v.items ≡ map (λ (k : ℕ × ℕ). k.1) (take_while (λ k. nat_le k.0 moment) ends.now.keys)) }
    ensures ordered { IsOrdered (λ x y. ordering_then (nat_cmp x.0 y.0) (nat_cmp x.1 y.1)) ends.now }
{
    ends.iter()
        .take_while(|key| key.0 <= moment)
        .map(|key| key.1)
        .collect(alloc)
}
