//! Asking the seller of an item.
ghost use Rattle.std.specs.Prelude.{◌≡◌, ◌+◌, MatchResult, None, Some};
ghost use Rattle.proxy.specs.Rules.{first_failing};
ghost use Rattle.house_rows.specs.declared.command.Command.TheVariants as command;
ghost use Rattle.house_rows.specs.Verdict.{question_rules};
ghost use Rattle.house.specs.Decides.{Decides};

use crate::targets::{is_text, on_item, open_refused};
use house_rows::{Change, Keep, KeepFault, MOST_QUESTIONS, Refusal, Terms, Text};

/// Decides on a question, which takes the next number among the caller's on the item.
pub fn ask<'c, K: Keep>(
    keep: &mut K,
    moment: u64,
    caller: u64,
    item: u64,
    text: &'c Text,
) -> Result<Result<Change<'c>, Refusal>, KeepFault>
    ensures { Decides K.Keep keep.old keep.new result moment caller (command.Ask item text.now) }
{
    let on = match on_item(keep, moment, caller, item)? {
        Ok(on) => on,
        Err(refusal) => return Ok(Err(refusal)),
    };
    let count = keep.ask_count(item, caller)?;
    match next_number(moment, caller, text, count, &on.terms) {
        Err(refusal) => Ok(Err(refusal)),
        Ok(number) => Ok(Ok(Change::Ask {
            item: on.terms.item,
            asker: on.member,
            number,
            text,
        })),
    }
}

// The number that a question takes of a caller that has asked so many on the item; or why it is refused.
fn next_number(
    moment: u64,
    caller: u64,
    text: &Text,
    count: u64,
    terms: &Terms,
) -> Result<u32, Refusal>
    ensures { MatchResult result
        (λ number. (number ≡ count + 1) × (None ≡ first_failing (question_rules moment caller text.now count terms.now)))
        (λ refusal. Some refusal ≡ first_failing (question_rules moment caller text.now count terms.now)) }
{
    if let Some(refusal) = open_refused(moment, caller, terms) {
        return Err(refusal);
    }
    if !is_text(1, 500, text) {
        return Err(Refusal::Range);
    }
    if count >= u64::from(MOST_QUESTIONS) {
        return Err(Refusal::Limit);
    }
    Ok(count as u32 + 1)
}
