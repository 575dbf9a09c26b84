//! Listing an item for sale.
ghost use Rattle.std.specs.Prelude.{◌≡◌, ◌<◌, ◌^◌, ◌==◌, ◌&&◌, ◌++◌, nat_le, IfOk, IfSome, OnOk, false, is_some};
ghost use Rattle.std.specs.List.{list_all, list_any};
ghost use Rattle.proxy.specs.Rules.{first_failing};
ghost use Rattle.house_rows.specs.Answers.{Answers};
ghost use Rattle.house_rows.specs.declared.command.Command.TheVariants as command;
ghost use Rattle.house_rows.specs.Limits.{most_cents};
ghost use Rattle.house_rows.specs.Text.{has_length, is_lot, is_lot_byte, same_text};
ghost use Rattle.house_rows.specs.Verdict.{are_terms, is_buy_now, is_reserve};
ghost use Rattle.house.specs.Decides.{Decides};
ghost use Rattle.house.specs.Judged.{first_rules};
ghost use Rattle.house.specs.Offered.{AreOf, offer_rules, terms_rules, report};
ghost use Rattle.house.specs.Taken.{LotAndCategoryFit};
ghost use Rattle.house_rows.specs.Taken.{CategoryFitsAt, ItemIsOurs};

use crate::targets::{common, is_text};
use cents::Cents;
use house_rows::{Change, Keep, KeepFault, MOST_ITEMS, NewItem, Refusal, Text};
use settle::LAST_MOMENT;

/// What a member offers for sale, in range or not. Amounts are in cents, and the end is in whole
/// seconds since 1970-01-01T00:00:00Z.
#[derive(Clone, Copy)]
pub struct Offer<'c> {
    /// The number of the category.
    pub category: u64,
    /// The seller's own code for the item.
    pub lot: &'c Text,
    /// The title.
    pub title: &'c Text,
    /// The description.
    pub text: &'c Text,
    /// The price that bidding begins with.
    pub start: u64,
    /// The price for which the item may be bought at once.
    pub buy_now: Option<u64>,
    /// When the offer ends.
    pub end: u64,
    /// The least for which the item is sold, which is sealed.
    pub reserve: Option<u64>,
}

// The prices of an offer that are in range.
#[derive(Clone, Copy)]
struct Prices {
    start: Cents,
    buy_now: Option<Cents>,
    reserve: Option<Cents>,
}

/// Decides on the listing of an item.
pub fn list<'c, K: Keep>(
    keep: &mut K,
    moment: u64,
    caller: u64,
    offer: &Offer<'c>,
) -> Result<Result<Change<'c>, Refusal>, KeepFault>
    ensures { Decides K.Keep keep.old keep.new result moment caller (command.List
        offer.now.category offer.now.lot.now offer.now.title.now offer.now.text.now
        offer.now.start offer.now.buy_now offer.now.end offer.now.reserve) }
{
    let (category, prices) = match judge_offer(keep, moment, caller, offer)? {
        Ok(taken) => taken,
        Err(refusal) => return Ok(Err(refusal)),
    };
    let item = NewItem {
        seller: caller as u32,
        category,
        lot: offer.lot,
        title: offer.title,
        text: offer.text,
        start: prices.start,
        buy_now: prices.buy_now,
        end: offer.end,
        reserve: prices.reserve,
    };
    Ok(Ok(Change::List { moment, item }))
}

// The category and the prices of an offer, or why it is refused.
#[tactic(auto, using(crate::proofs::Found::first_some, crate::proofs::Found::first_none))]
fn judge_offer<K: Keep>(
    keep: &mut K,
    moment: u64,
    caller: u64,
    offer: &Offer<'_>,
) -> Result<Result<(u32, Prices), Refusal>, KeepFault>
    ensures answers { Answers K.Keep keep.old keep.new result (λ t r. report r ≡ first_failing
        (first_rules t moment caller false ++ offer_rules t moment caller offer.now))
        (λ t. LotAndCategoryFit t caller offer.now.lot.now offer.now.category) }
    ensures same { K.is_honest keep.new → IfOk result (λ r. IfOk r (AreOf offer.now)) }
    ensures numbered { IfOk result (λ r. OnOk r (caller < 2 ^ 32)) }
{
    match common(keep, moment, caller, false)? {
        Some(refusal) => Ok(Err(refusal)),
        None => judge_lot(keep, moment, caller, offer),
    }
}

// The same by an offer's own rules.
fn judge_lot<K: Keep>(
    keep: &mut K,
    moment: u64,
    caller: u64,
    offer: &Offer<'_>,
) -> Result<Result<(u32, Prices), Refusal>, KeepFault>
    requires going { K.is_failed keep.old ≡ false }
    ensures answers { Answers K.Keep keep.old keep.new result
        (λ t r. report r ≡ first_failing (offer_rules t moment caller offer.now))
        (λ t. LotAndCategoryFit t caller offer.now.lot.now offer.now.category) }
    ensures same { K.is_honest keep.new → IfOk result (λ r. IfOk r (AreOf offer.now)) }
{
    if !is_lot(offer.lot) {
        return Ok(Err(Refusal::Range));
    }
    if has_lot(keep, caller, offer.lot)? {
        return Ok(Err(Refusal::LotExists));
    }
    judge_terms(keep, moment, offer)
}

// The same after the rules of its lot.
fn judge_terms<K: Keep>(
    keep: &mut K,
    moment: u64,
    offer: &Offer<'_>,
) -> Result<Result<(u32, Prices), Refusal>, KeepFault>
    requires going { K.is_failed keep.old ≡ false }
    ensures answers { Answers K.Keep keep.old keep.new result
        (λ t r. report r ≡ first_failing (terms_rules t moment offer.now))
        (CategoryFitsAt offer.now.category) }
    ensures same { K.is_honest keep.new → IfOk result (λ r. IfOk r (AreOf offer.now)) }
{
    let Some(prices) = prices_in_range(moment, offer) else {
        return Ok(Err(Refusal::Range));
    };
    let Some(category) = category_number(keep, offer.category)? else {
        return Ok(Err(Refusal::Unknown));
    };
    if keep.counts()?.items >= MOST_ITEMS {
        return Ok(Err(Refusal::Limit));
    }
    Ok(Ok((category, prices)))
}

// The number of a category, if it is there.
#[tactic(auto, using(crate::proofs::Offers::known_category))]
fn category_number<K: Keep>(keep: &mut K, category: u64) -> Result<Option<u32>, KeepFault>
    ensures answers { Answers K.Keep keep.old keep.new result
        (λ t number. is_some number ≡ list_any (λ k. k.category == category) t.categories)
        (CategoryFitsAt category) }
    ensures same { K.is_honest keep.new → IfOk result (λ v. IfSome v (λ n. n ≡ category)) }
{
    if keep.has_category(category)? {
        Ok(Some(category as u32))
    } else {
        Ok(None)
    }
}

// Whether a seller has an item with a lot.
#[tactic(auto, using(crate::proofs::Offers::lot_found))]
fn has_lot<K: Keep>(keep: &mut K, seller: u64, lot: &Text) -> Result<bool, KeepFault>
    ensures { Answers K.Keep keep.old keep.new result (λ t has. has ≡ list_any
        (λ row. (row.item.terms.seller == seller) && same_text row.item.lot lot.now) t.items)
        (ItemIsOurs seller lot.now) }
{
    Ok(keep.item_of(seller, lot.as_str())?.is_some())
}

// The prices of an offer, where all of it but lot and category is in range.
fn prices_in_range(moment: u64, offer: &Offer<'_>) -> Option<Prices>
    ensures fits { is_some result ≡ are_terms moment offer.now.title.now offer.now.text.now
        offer.now.start offer.now.buy_now offer.now.end offer.now.reserve }
    ensures same { IfSome result (λ p. (p.start ≡ offer.now.start) × (p.buy_now ≡ offer.now.buy_now)
        × (p.reserve ≡ offer.now.reserve)) }
{
    let is_described = is_text(1, 80, offer.title) && is_text(0, 2000, offer.text);
    if !is_described || offer.end <= moment || offer.end > LAST_MOMENT {
        return None;
    }
    prices_of(offer.start, offer.buy_now, offer.reserve)
}

// Prices of so many cents, where they are in range.
fn prices_of(start: u64, buy_now: Option<u64>, reserve: Option<u64>) -> Option<Prices>
    ensures fits { is_some result ≡ (nat_le 1 start
        && (nat_le start most_cents && (is_buy_now start buy_now
        && is_reserve start buy_now reserve))) }
    ensures same { IfSome result (λ p. (p.start ≡ start) × (p.buy_now ≡ buy_now) × (p.reserve ≡ reserve)) }
{
    if start == 0 {
        return None;
    }
    let (start, buy_now) = bought_from(start, buy_now)?;
    let reserve = reserve_of(start, &buy_now, reserve)?;
    Some(Prices {
        start,
        buy_now,
        reserve,
    })
}

// A start and a buy-now price of so many cents, where they are in range.
fn bought_from(start: u64, buy_now: Option<u64>) -> Option<(Cents, Option<Cents>)>
    ensures fits { is_some result ≡ (nat_le start most_cents && is_buy_now start buy_now) }
    ensures same { IfSome result (λ p. (p.0 ≡ start) × (p.1 ≡ buy_now)) }
{
    let start = Cents::new(start)?;
    let Some(amount) = buy_now else {
        return Some((start, None));
    };
    let amount = Cents::new(amount)?;
    if amount < start {
        return None;
    }
    Some((start, Some(amount)))
}

// A reserve of so many cents, where it is above the start, and at most the buy-now price.
fn reserve_of(start: Cents, buy_now: &Option<Cents>, reserve: Option<u64>) -> Option<Option<Cents>>
    ensures fits { is_some result ≡ is_reserve start buy_now.now reserve }
    ensures same { IfSome result (λ r. r ≡ reserve) }
{
    let Some(amount) = reserve else {
        return Some(None);
    };
    let amount = Cents::new(amount)?;
    if amount <= start || buy_now.is_some_and(|most| most < amount) {
        return None;
    }
    Some(Some(amount))
}

// Whether a text is a seller's code for an item.
fn is_lot(text: &Text) -> bool
    ensures { result ≡ is_lot text.now }
{
    has_length(1, 20, text) && has_lot_bytes(text)
}

// Whether it has so many bytes.
fn has_length(least: usize, most: usize, text: &Text) -> bool
    ensures { result ≡ has_length least most text.now }
{
    least <= text.len() && text.len() <= most
}

// Whether it has none but the bytes of a code.
fn has_lot_bytes(text: &Text) -> bool
    ensures { result ≡ list_all is_lot_byte text.now }
{
    text.as_str().as_bytes().iter().all(|b| is_lot_byte(*b))
}

// Whether a byte is an ASCII letter, a digit or `-`.
fn is_lot_byte(byte: u8) -> bool
    ensures { result ≡ is_lot_byte byte }
{
    byte.is_ascii_alphanumeric() || byte == b'-'
}
