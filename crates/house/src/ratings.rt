//! Feedback of one party of a sale on the other.
ghost use Rattle.std.specs.Prelude.{◌≡◌, ◌==◌, ◌||◌, MatchResult, None, Some};
ghost use Rattle.proxy.specs.Bids.{is_leader};
ghost use Rattle.proxy.specs.Rules.{first_failing};
ghost use Rattle.house_rows.specs.declared.command.Command.TheVariants as command;
ghost use Rattle.house_rows.specs.Ratings.{other_party};
ghost use Rattle.house_rows.specs.Verdict.{feedback_rules};
ghost use Rattle.house.specs.Decides.{Decides};

use crate::targets::{is_text, on_item};
use house_rows::{Change, Keep, KeepFault, Rating, Refusal, State, Terms, Text};

/// Decides on feedback to the other party of a sale. A rating of none is one that was out of range.
pub fn feedback<'c, K: Keep>(
    keep: &mut K,
    moment: u64,
    caller: u64,
    item: u64,
    rating: Option<Rating>,
    text: &'c Text,
) -> Result<Result<Change<'c>, Refusal>, KeepFault>
    ensures { Decides K.Keep keep.old keep.new result moment caller
        (command.Feedback item rating text.now) }
{
    let on = match on_item(keep, moment, caller, item)? {
        Ok(on) => on,
        Err(refusal) => return Ok(Err(refusal)),
    };
    let is_given = keep.given(item, caller)?;
    match taken_rating(caller, rating, text, is_given, &on.terms) {
        Err(refusal) => Ok(Err(refusal)),
        Ok(rating) => Ok(Ok(Change::Feedback {
            moment,
            item: on.terms.item,
            from: on.member,
            to: other_party(&on.terms, caller),
            rating,
            text,
        })),
    }
}

// The rating that the caller gives on the item; or why its feedback is refused.
fn taken_rating(
    caller: u64,
    rating: Option<Rating>,
    text: &Text,
    is_given: bool,
    terms: &Terms,
) -> Result<Rating, Refusal>
    ensures { MatchResult result
        (λ taken. (rating ≡ Some taken) × (None ≡ first_failing (feedback_rules caller rating text.now is_given terms.now)))
        (λ refusal. Some refusal ≡ first_failing (feedback_rules caller rating text.now is_given terms.now)) }
{
    if !matches!(terms.state, State::Sold | State::Settled) {
        return Err(Refusal::NotSold);
    }
    if !is_party(terms, caller) {
        return Err(Refusal::NotParty);
    }
    if is_given {
        return Err(Refusal::AlreadyGiven);
    }
    match rating {
        Some(rating) if is_text(0, 200, text) => Ok(rating),
        _ => Err(Refusal::Range),
    }
}

// Whether a member sells the item, or leads it.
fn is_party(terms: &Terms, member: u64) -> bool
    ensures { result ≡ ((terms.now.seller == member) || is_leader terms.now.leader member) }
{
    u64::from(terms.seller) == member
        || terms
            .leader
            .is_some_and(|leader| u64::from(leader) == member)
}

// The other party of the sale of an item that somebody leads.
fn other_party(terms: &Terms, member: u64) -> u32
    ensures { result ≡ other_party terms.now.seller terms.now.leader member }
{
    if u64::from(terms.seller) == member {
        terms.leader.unwrap_or(0)
    } else {
        terms.seller
    }
}
