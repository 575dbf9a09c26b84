//! What every command begins with, and every command on an item.
ghost use Rattle.std.specs.Prelude.{◌≡◌, ◌<◌, ◌^◌, ⊤, List, IfOk, OnOk, MatchResult, None, Some, false, ◌≤◌, ◌&&◌};
ghost use Rattle.proxy.specs.Rules.{first_failing};
ghost use Rattle.house_rows.specs.Answers.{Answers};
ghost use Rattle.house_rows.specs.declared.item.Terms.{Terms as TheTerms};
ghost use Rattle.house_rows.specs.Found.{standing_at, terms_at};
ghost use Rattle.house_rows.specs.Verdict.{Rule, open_rules};
ghost use Rattle.house.specs.Judged.{IsNamed, first_rules, item_rules};
ghost use Rattle.house_rows.specs.Text.{is_text};
ghost use Rattle.house_rows.specs.Taken.{ItemFitsAt};

use house_rows::{Keep, KeepFault, Refusal, State, Terms, Text};
use proxy::Standing;
use settle::LAST_MOMENT;

/// A member, and the item that its command names.
#[derive(Clone, Copy)]
pub(crate) struct OnItem {
    /// The number of the member.
    pub(crate) member: u32,
    /// The item without its texts.
    pub(crate) terms: Terms,
}

/// A member, and the auction of the item that its command names.
#[derive(Clone, Copy)]
pub(crate) struct OnAuction {
    /// The number of the member.
    pub(crate) member: u32,
    /// The item without its texts.
    pub(crate) terms: Terms,
    /// The standing of its bids.
    pub(crate) standing: Standing,
}

/// The terms of the item that a command names, or why the command is refused before the item's own
/// rules. A caller that passes has a number that fits a `u32`.
#[tactic(auto, using(crate::proofs::Found::first_some, crate::proofs::Found::first_none))]
pub(crate) fn named_item<K: Keep>(
    keep: &mut K,
    moment: u64,
    caller: u64,
    of_house: bool,
    item: u64,
) -> Result<Result<Terms, Refusal>, KeepFault>
    ensures answers { Answers K.Keep keep.old keep.new result
        (λ t named. IsNamed t moment caller of_house item named) (ItemFitsAt item) }
    ensures numbered { IfOk result (λ r. OnOk r (caller < 2 ^ 32)) }
{
    if let Some(refusal) = common(keep, moment, caller, of_house)? {
        return Ok(Err(refusal));
    }
    Ok(keep.terms(item)?.ok_or(Refusal::Unknown))
}

/// The member that calls and the item that it names; or why the command is refused, whatever the
/// rules of the item are.
pub(crate) fn on_item<K: Keep>(
    keep: &mut K,
    moment: u64,
    caller: u64,
    item: u64,
) -> Result<Result<OnItem, Refusal>, KeepFault>
    ensures { Answers K.Keep keep.old keep.new result (λ t r. MatchResult r
        (λ on. (on.member ≡ caller) × (terms_at t item ≡ Some on.terms)
        × (None ≡ first_failing (first_rules t moment caller false)))
        (λ refusal. (rules : TheTerms → List Rule)
        → Some refusal ≡ first_failing (item_rules t moment caller false item rules)))
        (ItemFitsAt item) }
{
    let terms = match named_item(keep, moment, caller, false, item)? {
        Ok(terms) => terms,
        Err(refusal) => return Ok(Err(refusal)),
    };
    Ok(Ok(OnItem {
        member: caller as u32,
        terms,
    }))
}

/// The member that calls and the auction of the item that it names; or why the command is refused,
/// whatever the rules of the item are.
#[tactic(auto, using(crate::proofs::Found::first_some, crate::proofs::Found::first_none, crate::proofs::Auctions::auction_terms, crate::proofs::Auctions::auction_standing, crate::proofs::Auctions::no_auction))]
pub(crate) fn on_auction<K: Keep>(
    keep: &mut K,
    moment: u64,
    caller: u64,
    item: u64,
) -> Result<Result<OnAuction, Refusal>, KeepFault>
    ensures { Answers K.Keep keep.old keep.new result (λ t r. MatchResult r
        (λ on. (on.member ≡ caller) × (terms_at t item ≡ Some on.terms)
        × (standing_at t item ≡ Some on.standing)
        × (None ≡ first_failing (first_rules t moment caller false)))
        (λ refusal. (rules : TheTerms → List Rule)
        → Some refusal ≡ first_failing (item_rules t moment caller false item rules)))
        (ItemFitsAt item) }
{
    if let Some(refusal) = common(keep, moment, caller, false)? {
        return Ok(Err(refusal));
    }
    let Some(auction) = keep.auction(item)? else {
        return Ok(Err(Refusal::Unknown));
    };
    Ok(Ok(OnAuction {
        member: caller as u32,
        terms: auction.terms,
        standing: auction.standing,
    }))
}

/// Why the caller may not bid on an item, buy it or ask about it, if it may not: it sells the item,
/// or the item isn't open, or has ended.
pub(crate) fn open_refused(moment: u64, caller: u64, terms: &Terms) -> Option<Refusal>
    ensures { result ≡ first_failing (open_rules moment caller terms.now) }
{
    if u64::from(terms.seller) == caller {
        return Some(Refusal::OwnItem);
    }
    if terms.state != State::Open {
        return Some(Refusal::NotOpen);
    }
    if terms.end <= moment {
        return Some(Refusal::Ended);
    }
    None
}

/// Why a command is refused whatever it asks for, if it is. A caller that passes has a number that
/// fits a `u32`.
pub(crate) fn common<K: Keep>(
    keep: &mut K,
    moment: u64,
    caller: u64,
    of_house: bool,
) -> Result<Option<Refusal>, KeepFault>
    ensures answers { Answers K.Keep keep.old keep.new result
        (λ t r. r ≡ first_failing (first_rules t moment caller of_house)) (λ _. ⊤) }
    ensures numbered { IfOk result (λ r. r ≡ None → caller < 2 ^ 32) }
{
    let members = keep.counts()?.members;
    let clock = keep.clock()?;
    if moment > LAST_MOMENT {
        return Ok(Some(Refusal::Range));
    }
    if caller > u64::from(members) || (caller == 0 && !of_house) {
        return Ok(Some(Refusal::NoCaller));
    }
    if of_house && caller != 0 {
        return Ok(Some(Refusal::HouseOnly));
    }
    if moment < clock {
        return Ok(Some(Refusal::MomentBehind));
    }
    Ok(None)
}

/// Whether a field takes a text: plain, and of so many bytes.
pub(crate) fn is_text(least: usize, most: usize, text: &Text) -> bool
    ensures { result ≡ is_text least most text.now }
{
    least <= text.len() && text.len() <= most && text.is_plain()
}
