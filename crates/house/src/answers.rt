//! Answering a question.
ghost use Rattle.std.specs.Prelude.{◌≡◌, MatchResult, None, Some};
ghost use Rattle.proxy.specs.Rules.{first_failing};
ghost use Rattle.house_rows.specs.declared.command.Command.TheVariants as command;
ghost use Rattle.house.specs.Decides.{Decides};
ghost use Rattle.house.specs.Waiting.{waiting_rules};

use crate::targets::{is_text, on_item};
use house_rows::{Change, Keep, KeepFault, Question, Refusal, Text};

/// Decides on an answer to the question that an asker asked with that number on the item.
pub fn answer<'c, K: Keep>(
    keep: &mut K,
    moment: u64,
    caller: u64,
    item: u64,
    asker: u64,
    number: u64,
    text: &'c Text,
) -> Result<Result<Change<'c>, Refusal>, KeepFault>
    ensures { Decides K.Keep keep.old keep.new result moment caller
        (command.Answer item asker number text.now) }
{
    let terms = match on_item(keep, moment, caller, item)? {
        Ok(on) => on.terms,
        Err(refusal) => return Ok(Err(refusal)),
    };
    if u64::from(terms.seller) != caller {
        return Ok(Err(Refusal::SellerOnly));
    }
    match waiting(keep.question(item, asker, number)?, text) {
        Err(refusal) => Ok(Err(refusal)),
        Ok(question) => Ok(Ok(Change::Answer {
            moment,
            item: question.item,
            asker: question.asker,
            number: question.number,
            text,
        })),
    }
}

// The question that was looked for, where the text may be its answer; or why not.
fn waiting(question: Option<Question>, text: &Text) -> Result<Question, Refusal>
    ensures { MatchResult result
        (λ found. (question ≡ Some found) × (None ≡ first_failing (waiting_rules question text.now)))
        (λ refusal. Some refusal ≡ first_failing (waiting_rules question text.now)) }
{
    let question = question.ok_or(Refusal::Unknown)?;
    if question.answer.is_some() {
        return Err(Refusal::AlreadyAnswered);
    }
    if !is_text(1, 500, text) {
        return Err(Refusal::Range);
    }
    Ok(question)
}
