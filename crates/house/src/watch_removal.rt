//! Watching an item no longer.
ghost use Rattle.house_rows.specs.declared.command.Command.TheVariants as command;
ghost use Rattle.house.specs.Decides.{Decides};

use crate::targets::on_item;
use house_rows::{Change, Keep, KeepFault, Refusal};

/// Decides on the end of a watch. One of an item that the caller doesn't watch is accepted, and
/// changes nothing.
pub fn unwatch<'c, K: Keep>(
    keep: &mut K,
    moment: u64,
    caller: u64,
    item: u64,
) -> Result<Result<Change<'c>, Refusal>, KeepFault>
    ensures { Decides K.Keep keep.old keep.new result moment caller (command.Unwatch item) }
{
    match on_item(keep, moment, caller, item)? {
        Err(refusal) => Ok(Err(refusal)),
        Ok(on) => Ok(Ok(Change::Unwatch {
            member: on.member,
            item: on.terms.item,
        })),
    }
}
