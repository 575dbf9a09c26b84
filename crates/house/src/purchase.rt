//! Buying an item at once.
ghost use Rattle.house_rows.specs.declared.command.Command.TheVariants as command;
ghost use Rattle.house.specs.Decides.{Decides};
ghost use Rattle.house.specs.Judged.{IsPurchase};

use crate::targets::{named_item, open_refused};
use cents::Cents;
use house_rows::{Change, Keep, KeepFault, Refusal, Terms};

/// Decides on the purchase of an item at once.
pub fn buy<'c, K: Keep>(
    keep: &mut K,
    moment: u64,
    caller: u64,
    item: u64,
) -> Result<Result<Change<'c>, Refusal>, KeepFault>
    ensures { Decides K.Keep keep.old keep.new result moment caller (command.Buy item) }
{
    let terms = match named_item(keep, moment, caller, false, item)? {
        Ok(terms) => terms,
        Err(refusal) => return Ok(Err(refusal)),
    };
    match purchase_price(moment, caller, &terms) {
        Ok(price) => Ok(Ok(Change::Buy {
            moment,
            item: terms.item,
            buyer: caller as u32,
            price,
        })),
        Err(refusal) => Ok(Err(refusal)),
    }
}

// The price at which the caller may buy an item, or why it may not.
#[tactic(auto, using(crate::proofs::Found::first_some, crate::proofs::Found::first_none))]
fn purchase_price(moment: u64, caller: u64, terms: &Terms) -> Result<Cents, Refusal>
    ensures { IsPurchase moment caller terms.now result }
{
    if let Some(refusal) = open_refused(moment, caller, terms) {
        return Err(refusal);
    }
    let price = terms.buy_now.ok_or(Refusal::NoBuyNow)?;
    if terms.count > 0 {
        return Err(Refusal::HasBids);
    }
    Ok(price)
}
