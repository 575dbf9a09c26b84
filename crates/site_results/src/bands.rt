//! The result of a new band table: its edition.
ghost use Rattle.std.specs.Prelude.{◌≡◌, ◌<◌, ◌+◌, length, IfOk};
ghost use Rattle.house_rows.specs.Keeping.{Faults};
ghost use Rattle.house_rows.specs.Limits.{most_editions};
ghost use Rattle.house_rows.specs.Taken.{IsUndamaged};

use house_rows::{CommandResult, Keep, KeepFault};

/// The number of the next edition, where there is room for one.
pub(crate) fn next_edition<K: Keep>(keep: &K) -> Result<CommandResult, KeepFault>
    ensures value { K.is_honest keep.now → length (K.content keep.now).editions + 1 < most_editions
        → IfOk result (λ r. r ≡ CommandResult.Edition (length (K.content keep.now).editions + 2)) }
    ensures faults { Faults result (K.is_honest keep.now) (K.is_failed keep.now) (K.content keep.now) }
    ensures damaged { K.is_honest keep.now → IsUndamaged result }
{
    let newest = keep.editions()?.newest();
    Ok(CommandResult::Edition {
        edition: newest.saturating_add(1),
    })
}
