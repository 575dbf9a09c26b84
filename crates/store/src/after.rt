//! What a keep knows of its tables after a change.
ghost use Rattle.std.specs.Prelude.{◌≡◌, ◌+◌, ◌<◌, ◌≤◌, ℕ, All, Some, length, true, IfSome, IsErrOf, OnErr, OnOk, is_some};
ghost use Rattle.steps.specs.Table.{IsBandTable};
ghost use Rattle.house_rows.specs.Asks.{ChangeFits};
ghost use Rattle.house_rows.specs.Fits.{IsMoment};
ghost use Rattle.house_rows.specs.Found.{counts_of};
ghost use Rattle.house_rows.specs.Limits.{most_editions, most_items};
ghost use Rattle.house_rows.specs.Tables.{Tables};
ghost use Rattle.house_rows.specs.declared.fault.KeepFault.TheVariants.{Damaged, Store};
ghost use Rattle.store_rows.specs.Tables.{with_reserve};
ghost use Rattle.store_rows.specs.declared.rules.Rules.{Rules as TheRules};
ghost use Rattle.store.specs.After.{CanAdd, bands_set, clock_after, counts_after, rules_after, with_table};

use cents::Cents;
use house_rows::{
    Change, Counts, Editions, KeepFault, MOST_CATEGORIES, MOST_EDITIONS, MOST_ITEMS, MOST_MEMBERS,
};
use settle::LAST_MOMENT;
use std::alloc::Global;
use store_open::table_of;
use store_rows::{Reserves, Rules};

// One more, if there is room.
fn one_more(count: u32, most: u32) -> Option<u32>
    ensures value { IfSome result (λ n. n ≡ count + 1) }
    ensures few { IfSome result (λ n. n ≤ most) }
    ensures room { count < most → is_some result ≡ true }
{
    if count < most {
        count.checked_add(1)
    } else {
        None
    }
}

/// The clock after a change, in seconds since 1970-01-01T00:00:00Z; none over the last moment.
#[tactic(auto, using(crate::proofs::Moves::fits_moment))]
pub(crate) fn clock_after(clock: u64, change: &Change<'_>) -> Option<u64>
    ensures value { IfSome result (λ moment. moment ≡ clock_after clock change.now) }
    ensures fits { IfSome result IsMoment }
    ensures late { IsMoment clock → (t : Tables) → ChangeFits t change.now → is_some result ≡ true }
{
    let moment = match *change {
        Change::Register { moment, .. } => moment,
        Change::AddCategory { moment, .. } => moment,
        Change::List { moment, .. } => moment,
        Change::Bid { moment, .. } => moment,
        Change::Buy { moment, .. } => moment,
        Change::Close { moment } => moment,
        Change::Settle { moment, .. } => moment,
        Change::Answer { moment, .. } => moment,
        Change::Feedback { moment, .. } => moment,
        Change::SetBands { moment, .. } => moment,
        Change::Watch { .. } => clock,
        Change::Unwatch { .. } => clock,
        Change::Ask { .. } => clock,
    };
    if moment <= LAST_MOMENT {
        Some(moment)
    } else {
        None
    }
}

/// The counts after a change; none where there is no room for one more.
pub(crate) fn counts_after(counts: Counts, change: &Change<'_>) -> Option<Counts>
    ensures value { IfSome result (λ after. after ≡ counts_after counts change.now) }
    ensures room { (t : Tables)
        → counts_of t ≡ counts
        → ChangeFits t change.now
        → is_some result ≡ true }
{
    match *change {
        Change::Register { .. } => Some(Counts {
            members: one_more(counts.members, MOST_MEMBERS)?,
            ..counts
        }),
        Change::AddCategory { .. } => Some(Counts {
            categories: one_more(counts.categories, MOST_CATEGORIES)?,
            ..counts
        }),
        Change::List { .. } => Some(Counts {
            items: one_more(counts.items, MOST_ITEMS)?,
            ..counts
        }),
        _ => Some(counts),
    }
}

// Adds the reserve of a listing, if it has one.
fn add_reserve(reserves: &mut Reserves, item: u32, amount: Option<Cents>) -> Result<(), KeepFault>
    ensures value { OnOk result (reserves.new ≡ with_reserve item amount reserves.old) }
    ensures left { OnErr result (reserves.new ≡ reserves.old) }
    ensures damaged { All (λ r. r.item < item) reserves.old → ¬ (IsErrOf result Damaged) }
    ensures working { ¬ (IsErrOf result Store) }
{
    match amount {
        Some(amount) => reserves.add(item, amount),
        None => Ok(()),
    }
}

// Sets a band table as the next edition, which begins with the item after so many. `Damaged` where it
// is none, or where there are as many as there may be.
fn add_table(
    alloc: Global,
    editions: &mut Editions,
    items: u32,
    rows: &[(u64, u64)],
) -> Result<(), KeepFault>
    ensures value { OnOk result (editions.new ≡ with_table editions.old items (Some rows.now)) }
    ensures valid { OnOk result (IsBandTable rows.now) }
    ensures left { OnErr result (editions.new ≡ editions.old) }
    ensures damaged { IsBandTable rows.now
        → length editions.old.later + 1 < most_editions
        → items ≤ most_items
        → ¬ (IsErrOf result Damaged) }
    ensures working { ¬ (IsErrOf result Store) }
{
    if editions.newest() >= MOST_EDITIONS {
        return Err(KeepFault::Damaged);
    }
    let Some(first) = items.checked_add(1) else {
        return Err(KeepFault::Damaged);
    };
    let bands = table_of(alloc, rows)?;
    match editions.set(first, bands) {
        Ok(()) => Ok(()),
        Err(_) => Err(KeepFault::Memory),
    }
}

/// Adds the reserve or the band table of a change, if it has one. The counts are those after it. After
/// an error all is as it was.
pub(crate) fn add_rules(
    alloc: Global,
    rules: &mut Rules,
    after: Counts,
    change: &Change<'_>,
) -> Result<(), KeepFault>
    ensures value { OnOk result (rules.new ≡ rules_after rules.old after.items change.now) }
    ensures valid { OnOk result (IfSome (bands_set change.now) IsBandTable) }
    ensures left { OnErr result (rules.new ≡ rules.old) }
    ensures damaged { CanAdd rules.old after.items change.now → ¬ (IsErrOf result Damaged) }
    ensures working { ¬ (IsErrOf result Store) }
{
    match *change {
        Change::List { ref item, .. } => {
            add_reserve(&mut rules.reserves, after.items, item.reserve)
        }
        Change::SetBands { bands, .. } => {
            add_table(alloc, &mut rules.editions, after.items, bands)
        }
        _ => Ok(()),
    }
}

/// Takes back what a change has added.
pub(crate) fn remove_rules(rules: &mut Rules, change: &Change<'_>)
    ensures { (before : TheRules) (items : ℕ) → rules.old ≡ rules_after before items change.now
        → rules.new ≡ before }
{
    match *change {
        Change::List { ref item, .. } => {
            if item.reserve.is_some() {
                rules.reserves.remove_last();
            }
        }
        Change::SetBands { .. } => rules.editions.unset(),
        _ => {}
    }
}
