//! The result of a close: how many items it leaves sold, and how many unsold.
ghost use Rattle.std.specs.Prelude.{◌≡◌};
ghost use Rattle.house_rows.specs.Answers.{Answers};
ghost use Rattle.house_rows.specs.Found.{due_at};
ghost use Rattle.house_rows.specs.Taken.{DueItemsFit};

use house_rows::{CommandResult, Keep, KeepFault};

/// How many items a close at the moment leaves sold, and how many unsold. The moment is in whole
/// seconds since 1970-01-01T00:00:00Z.
pub(crate) fn tell_close<K: Keep>(keep: &mut K, moment: u64) -> Result<CommandResult, KeepFault>
    ensures { Answers K.Keep keep.old keep.new result
        (λ t r. r ≡ CommandResult.Closed (due_at t moment).sold (due_at t moment).unsold)
        (DueItemsFit moment) }
{
    let due = keep.due(moment)?;
    Ok(CommandResult::Closed {
        sold: due.sold,
        unsold: due.unsold,
    })
}
