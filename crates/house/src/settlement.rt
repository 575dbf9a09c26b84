//! Settling a sale.
ghost use Rattle.std.specs.Prelude.{◌≡◌};
ghost use Rattle.proxy.specs.Rules.{first_failing};
ghost use Rattle.house_rows.specs.declared.command.Command.TheVariants as command;
ghost use Rattle.house_rows.specs.Verdict.{settlement_rules};
ghost use Rattle.house.specs.Decides.{Decides};

use crate::targets::named_item;
use house_rows::{Change, Keep, KeepFault, Refusal, State, Terms};

/// Decides on the settlement of a sale.
pub fn settle<'c, K: Keep>(
    keep: &mut K,
    moment: u64,
    caller: u64,
    item: u64,
) -> Result<Result<Change<'c>, Refusal>, KeepFault>
    ensures { Decides K.Keep keep.old keep.new result moment caller (command.Settle item) }
{
    let terms = match named_item(keep, moment, caller, true, item)? {
        Ok(terms) => terms,
        Err(refusal) => return Ok(Err(refusal)),
    };
    match settlement_refused(&terms) {
        Some(refusal) => Ok(Err(refusal)),
        None => Ok(Ok(Change::Settle {
            moment,
            item: terms.item,
        })),
    }
}

// Why the sale of an item can't be settled.
fn settlement_refused(terms: &Terms) -> Option<Refusal>
    ensures { result ≡ first_failing (settlement_rules terms.now) }
{
    if terms.state != State::Sold {
        return Some(Refusal::NotSold);
    }
    None
}
