//! Closing the items that are due.
ghost use Rattle.house_rows.specs.declared.command.Command.TheVariants as command;
ghost use Rattle.house.specs.Decides.{Decides};

use crate::targets::common;
use house_rows::{Change, Keep, KeepFault, Refusal};

/// Decides on a close of every item that is due.
pub fn close<'c, K: Keep>(
    keep: &mut K,
    moment: u64,
    caller: u64,
) -> Result<Result<Change<'c>, Refusal>, KeepFault>
    ensures { Decides K.Keep keep.old keep.new result moment caller command.Close }
{
    match common(keep, moment, caller, true)? {
        Some(refusal) => Ok(Err(refusal)),
        None => Ok(Ok(Change::Close { moment })),
    }
}
