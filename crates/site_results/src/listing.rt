//! The result of a listing: the item's number.
ghost use Rattle.std.specs.Prelude.{◌≡◌, ◌<◌, ◌+◌, ⊤, length};
ghost use Rattle.house_rows.specs.Answers.{Answers};
ghost use Rattle.house_rows.specs.Limits.{most_items};

use house_rows::{CommandResult, Keep, KeepFault};

/// The number of the next item, where there is room for one.
pub(crate) fn tell_listing<K: Keep>(keep: &mut K) -> Result<CommandResult, KeepFault>
    ensures { Answers K.Keep keep.old keep.new result (λ t r. length t.items < most_items
        → r ≡ CommandResult.Listing (length t.items + 1)) (λ _. ⊤) }
{
    let counts = keep.counts()?;
    Ok(CommandResult::Listing {
        item: counts.items.saturating_add(1),
    })
}
