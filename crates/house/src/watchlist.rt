//! Watching an item.
ghost use Rattle.std.specs.Prelude.{◌≡◌, ◌==◌, ◌||◌, nat_lt};
ghost use Rattle.house_rows.specs.Answers.{Answers};
ghost use Rattle.house_rows.specs.declared.command.Command.TheVariants as command;
ghost use Rattle.house_rows.specs.Found.{is_watched, watch_count};
ghost use Rattle.house_rows.specs.Limits.{most_watches};
ghost use Rattle.house_rows.specs.Taken.{WatchesFit};
ghost use Rattle.house.specs.Decides.{Decides};

use crate::targets::on_item;
use house_rows::{Change, Keep, KeepFault, MOST_WATCHES, Refusal};

/// Decides on a watch. One of an item that the caller watches is accepted, and changes nothing.
pub fn watch<'c, K: Keep>(
    keep: &mut K,
    moment: u64,
    caller: u64,
    item: u64,
) -> Result<Result<Change<'c>, Refusal>, KeepFault>
    ensures { Decides K.Keep keep.old keep.new result moment caller (command.Watch item) }
{
    let on = match on_item(keep, moment, caller, item)? {
        Ok(on) => on,
        Err(refusal) => return Ok(Err(refusal)),
    };
    if !may_watch(keep, caller, item)? {
        return Ok(Err(Refusal::Limit));
    }
    Ok(Ok(Change::Watch {
        member: on.member,
        item: on.terms.item,
    }))
}

// Whether a member watches the item already, which then takes no room, or has room for it.
fn may_watch<K: Keep>(keep: &mut K, member: u64, item: u64) -> Result<bool, KeepFault>
    ensures { Answers K.Keep keep.old keep.new result
        (λ t may. may ≡ (is_watched t member item || nat_lt (watch_count t member) most_watches))
        (WatchesFit member) }
{
    if keep.watched(member, item)? {
        return Ok(true);
    }
    Ok(keep.watch_count(member)? < MOST_WATCHES)
}
