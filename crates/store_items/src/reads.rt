//! Items as their rows give them. A row is damaged that has what no bids and no purchase leave.
ghost use Rattle.std.specs.Prelude.{◌≡◌, ◌++◌, true, [], ◌∷◌, IfOk, IfSome, IsErrOf, OnOk, is_some, map, option_map, slice_get};
ghost use Rattle.std.specs.List.{AllByRecursion};
ghost use Rattle.house_rows.specs.Editions.{bands_in};
ghost use Rattle.house_rows.specs.Fits.{ItemFits, StandingFits, TermsFit};
ghost use Rattle.house_rows.specs.Keeping.{IsConsistentBy, IsKeptItemBy, IsKeptRowBy};
ghost use Rattle.house_rows.specs.declared.fault.KeepFault.TheVariants.{Damaged};
ghost use Rattle.store_rows.specs.ItemRows.{amount_of, auction_by, item_by, kept_from, row_by, terms_by, with_met};
ghost use Rattle.store_items.specs.Standing.{IsShownKept, ItemHolds, TermsHold, is_bought, is_consistent};

use cents::Cents;
use house_rows::{Auction, Item, KeepFault, State, Terms};
use list_rows::push;
use proxy::Standing;
use sqlite::Row;
use std::alloc::Global;
use steps::Bands;
use store_rows::{Rules, Stored, maybe_cents_at};

// Whether nobody has bid, and the item was sold to somebody at its buy-now price.
fn is_bought(terms: &Terms) -> bool
    ensures { result ≡ is_bought terms.now }
{
    let is_sold = terms.state == State::Sold || terms.state == State::Settled;
    let is_at_once = match terms.buy_now {
        Some(amount) => amount == terms.price,
        None => false,
    };
    is_sold && terms.leader.is_some() && terms.count == 0 && is_at_once
}

// The standing that terms give where they are consistent, by the reserve and by what is sealed of
// their bids; of a bought item that of no bids.
#[tactic(auto, using(crate::proofs::IsConsistent::bought_reported, crate::proofs::IsConsistent::row_reported))]
fn standing_from(
    bands: &Bands,
    terms: &Terms,
    reserve: Option<Cents>,
    top: Option<Cents>,
    second: Option<Cents>,
) -> Option<Standing>
    ensures is_consistent { is_some result ≡ is_consistent bands.now terms.now reserve top second }
    ensures value { IfSome result (λ s. s ≡ kept_from terms.now.start reserve terms.now.price
        terms.now.leader top second terms.now.count) }
{
    // A reserve is over the start, and at most the buy-now price.
    let may_be = match (reserve, terms.buy_now) {
        (None, _) => true,
        (Some(amount), None) => terms.start < amount,
        (Some(amount), Some(most)) => terms.start < amount && amount <= most,
    };
    if !may_be {
        return None;
    }
    if top.is_none() && second.is_none() && is_bought(terms) {
        return Some(Standing::open(terms.start, reserve));
    }
    Standing::of_row(
        terms.start,
        reserve,
        bands,
        terms.price,
        terms.leader,
        top,
        second,
        terms.count,
    )
}

// The auction of terms, with the reserve of their item, if it has one, where they are consistent
// with it and with what is sealed of their bids.
#[tactic(auto, using(crate::proofs::IsConsistent::stand, crate::proofs::IsConsistent::met_fits, crate::proofs::StandingLemmas::report_fits))]
fn with_sealed(
    rules: &Rules,
    mut terms: Terms,
    top: Option<Cents>,
    second: Option<Cents>,
) -> Result<Auction, KeepFault>
    ensures value { IfOk result (λ a. a ≡ record {
      terms = with_met (amount_of rules.now.reserves terms.item) top terms;
      standing = kept_from terms.start (amount_of rules.now.reserves terms.item) terms.price
          terms.leader top second terms.count;
    }) }
    ensures fits { TermsFit terms → IfOk result (λ a. TermsFit a.terms × StandingFits a.standing) }
    ensures is_consistent { IfOk result (λ a. IsConsistentBy rules.now.editions a.terms) }
    ensures kept { IfOk result (λ a. IsKeptItemBy rules.now.editions a.terms a.standing) }
    ensures damaged { is_consistent (bands_in rules.now.editions terms.item)
        terms (amount_of rules.now.reserves terms.item) top second ≡ true
        → ¬ (IsErrOf result Damaged) }
{
    let item = u64::from(terms.item);
    let bands = rules.editions.bands_for(item);
    let reserve = rules.reserves.amount(item);
    let Some(standing) = standing_from(bands, &terms, reserve, top, second) else {
        return Err(KeepFault::Damaged);
    };
    // What was bought at once meets its reserve.
    terms.met = match reserve {
        Some(reserve) => Some(match top {
            Some(top) => reserve <= top,
            None => terms.leader.is_some(),
        }),
        None => None,
    };
    Ok(Auction { terms, standing })
}

// The auction that a row gives, whose terms are consistent with their band table. What is sealed
// comes after them.
fn auction_read(rules: &Rules, row: &Row) -> Result<Auction, KeepFault>
    ensures value { IfOk result (λ a. a ≡ auction_by rules.now.reserves row.now) }
    ensures fits { IfOk result (λ a. TermsFit a.terms × StandingFits a.standing) }
    ensures is_consistent { IfOk result (λ a. IsConsistentBy rules.now.editions a.terms) }
    ensures kept { IfOk result (λ a. IsKeptItemBy rules.now.editions a.terms a.standing) }
    ensures shown { OnOk result (IsShownKept rules.now.editions rules.now.reserves row.now) }
    ensures damaged { TermsHold rules.now.editions rules.now.reserves row.now
        → ¬ (IsErrOf result Damaged) }
{
    let terms = Terms::read(row)?;
    let top = maybe_cents_at(row, 11)?;
    let second = maybe_cents_at(row, 12)?;
    with_sealed(rules, terms, top, second)
}

/// The terms that a row gives, which are consistent with their band table. What is sealed comes
/// after them.
pub(crate) fn terms_read(rules: &Rules, row: &Row) -> Result<Terms, KeepFault>
    ensures value { IfOk result (λ it. it ≡ terms_by rules.now.reserves row.now) }
    ensures fits { IfOk result TermsFit }
    ensures is_consistent { IfOk result (IsConsistentBy rules.now.editions) }
    ensures shown { OnOk result (IsShownKept rules.now.editions rules.now.reserves row.now) }
    ensures damaged { TermsHold rules.now.editions rules.now.reserves row.now
        → ¬ (IsErrOf result Damaged) }
{
    Ok(auction_read(rules, row)?.terms)
}

// The item that a row gives, which is consistent with its band table. What is sealed comes after
// its texts.
fn item_read(rules: &Rules, row: &Row) -> Result<Item, KeepFault>
    ensures value { IfOk result (λ it. it ≡ item_by rules.now.reserves row.now) }
    ensures fits { IfOk result ItemFits }
    ensures is_consistent { IfOk result (λ it. IsConsistentBy rules.now.editions it.terms) }
    ensures kept { OnOk result (IsKeptRowBy rules.now.editions (row_by rules.now.reserves row.now)) }
    ensures damaged { ItemHolds rules.now.editions rules.now.reserves row.now
        → ¬ (IsErrOf result Damaged) }
{
    let mut item = Item::read(row)?;
    let top = maybe_cents_at(row, 14)?;
    let second = maybe_cents_at(row, 15)?;
    let auction = with_sealed(rules, item.terms, top, second)?;
    item.terms = auction.terms;
    Ok(item)
}

/// The auction that the first of the rows gives.
pub(crate) fn first_auction(rules: &Rules, rows: &[Row]) -> Result<Option<Auction>, KeepFault>
    ensures value { IfOk result (λ found. found ≡ option_map (auction_by rules.now.reserves)
        (slice_get rows.now 0)) }
    ensures fits { IfOk result (λ found. IfSome found
        (λ a. TermsFit a.terms × StandingFits a.standing)) }
    ensures is_consistent { IfOk result (λ found. IfSome found
        (λ a. IsConsistentBy rules.now.editions a.terms)) }
    ensures kept { IfOk result (λ found. IfSome found
        (λ a. IsKeptItemBy rules.now.editions a.terms a.standing)) }
    ensures damaged { IfSome (slice_get rows.now 0)
        (TermsHold rules.now.editions rules.now.reserves)
        → ¬ (IsErrOf result Damaged) }
{
    match rows.first() {
        None => Ok(None),
        Some(row) => Ok(Some(auction_read(rules, row)?)),
    }
}

/// The item that the first of the rows gives.
pub(crate) fn first_item(rules: &Rules, rows: &[Row]) -> Result<Option<Item>, KeepFault>
    ensures value { IfOk result (λ found. found ≡ option_map (item_by rules.now.reserves)
        (slice_get rows.now 0)) }
    ensures fits { IfOk result (λ found. IfSome found ItemFits) }
    ensures is_consistent { IfOk result (λ found. IfSome found
        (λ it. IsConsistentBy rules.now.editions it.terms)) }
    ensures kept { OnOk result (IfSome (option_map (row_by rules.now.reserves)
        (slice_get rows.now 0)) (IsKeptRowBy rules.now.editions)) }
    ensures damaged { IfSome (slice_get rows.now 0)
        (ItemHolds rules.now.editions rules.now.reserves)
        → ¬ (IsErrOf result Damaged) }
{
    match rows.first() {
        None => Ok(None),
        Some(row) => Ok(Some(item_read(rules, row)?)),
    }
}

// Adds the terms that a row gives.
fn add_terms(rules: &Rules, row: &Row, all: &mut Vec<Terms>) -> Result<(), KeepFault>
    ensures value { OnOk result (all.new.items
        ≡ all.old.items ++ terms_by rules.now.reserves row.now ∷ []) }
    ensures fits { AllByRecursion TermsFit all.old.items
        → OnOk result (AllByRecursion TermsFit all.new.items) }
    ensures is_consistent { AllByRecursion (λ it. IsConsistentBy rules.now.editions it) all.old.items
        → OnOk result (AllByRecursion (λ it. IsConsistentBy rules.now.editions it) all.new.items) }
    ensures shown { OnOk result (IsShownKept rules.now.editions rules.now.reserves row.now) }
    ensures damaged { TermsHold rules.now.editions rules.now.reserves row.now
        → ¬ (IsErrOf result Damaged) }
{
    // As `terms_read`: the prover wants Option and Cents, which Terms holds, named where one is added.
    let terms = Terms::read(row)?;
    let top = maybe_cents_at(row, 11)?;
    let second = maybe_cents_at(row, 12)?;
    let auction = with_sealed(rules, terms, top, second)?;
    push(all, auction.terms)
}

/// The terms that rows give.
pub(crate) fn terms_list(
    alloc: Global,
    rules: &Rules,
    rows: &[Row],
) -> Result<Vec<Terms>, KeepFault>
    ensures value { IfOk result (λ all. all.items ≡ map (terms_by rules.now.reserves) rows.now) }
    ensures fits { IfOk result (λ all. AllByRecursion TermsFit all.items) }
    ensures is_consistent { IfOk result (λ all. AllByRecursion
        (λ it. IsConsistentBy rules.now.editions it) all.items) }
    ensures kept { OnOk result (AllByRecursion
        (IsShownKept rules.now.editions rules.now.reserves) rows.now) }
    ensures damaged { AllByRecursion (TermsHold rules.now.editions rules.now.reserves) rows.now
        → ¬ (IsErrOf result Damaged) }
{
    let mut all = Vec::new(alloc);
    for row in rows {
        add_terms(rules, row, &mut all)?;
    }
    Ok(all)
}

// Adds the item that a row gives.
fn add_item(rules: &Rules, row: &Row, all: &mut Vec<Item>) -> Result<(), KeepFault>
    ensures value { OnOk result (all.new.items
        ≡ all.old.items ++ item_by rules.now.reserves row.now ∷ []) }
    ensures fits { AllByRecursion ItemFits all.old.items
        → OnOk result (AllByRecursion ItemFits all.new.items) }
    ensures is_consistent { AllByRecursion (λ it. IsConsistentBy rules.now.editions it.terms) all.old.items
        → OnOk result (AllByRecursion (λ it. IsConsistentBy rules.now.editions it.terms) all.new.items) }
    ensures kept { OnOk result (IsKeptRowBy rules.now.editions (row_by rules.now.reserves row.now)) }
    ensures damaged { ItemHolds rules.now.editions rules.now.reserves row.now
        → ¬ (IsErrOf result Damaged) }
{
    let item = item_read(rules, row)?;
    push(all, item)
}

/// The items that rows give.
pub(crate) fn item_list(alloc: Global, rules: &Rules, rows: &[Row]) -> Result<Vec<Item>, KeepFault>
    ensures value { IfOk result (λ all. all.items ≡ map (item_by rules.now.reserves) rows.now) }
    ensures fits { IfOk result (λ all. AllByRecursion ItemFits all.items) }
    ensures is_consistent { IfOk result (λ all. AllByRecursion
        (λ it. IsConsistentBy rules.now.editions it.terms) all.items) }
    ensures kept { OnOk result (AllByRecursion (IsKeptRowBy rules.now.editions)
        (map (row_by rules.now.reserves) rows.now)) }
    ensures damaged { AllByRecursion (ItemHolds rules.now.editions rules.now.reserves) rows.now
        → ¬ (IsErrOf result Damaged) }
{
    let mut all = Vec::new(alloc);
    for row in rows {
        add_item(rules, row, &mut all)?;
    }
    Ok(all)
}
