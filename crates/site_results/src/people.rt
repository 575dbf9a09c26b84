//! The result of a registration and of a new category: a number.
ghost use Rattle.std.specs.Prelude.{◌≡◌, ◌<◌, ◌+◌, ⊤, length};
ghost use Rattle.house_rows.specs.Answers.{Answers};
ghost use Rattle.house_rows.specs.Limits.{most_categories, most_members};

use house_rows::{CommandResult, Keep, KeepFault};

/// The number of the next member, where there is room for one.
pub(crate) fn tell_member<K: Keep>(keep: &mut K) -> Result<CommandResult, KeepFault>
    ensures { Answers K.Keep keep.old keep.new result (λ t r. length t.members < most_members
        → r ≡ CommandResult.Registered (length t.members + 1)) (λ _. ⊤) }
{
    let counts = keep.counts()?;
    Ok(CommandResult::Registered {
        member: counts.members.saturating_add(1),
    })
}

/// The number of the next category, where there is room for one.
pub(crate) fn tell_category<K: Keep>(keep: &mut K) -> Result<CommandResult, KeepFault>
    ensures { Answers K.Keep keep.old keep.new result (λ t r. length t.categories < most_categories
        → r ≡ CommandResult.Added (length t.categories + 1)) (λ _. ⊤) }
{
    let counts = keep.counts()?;
    Ok(CommandResult::Added {
        category: counts.categories.saturating_add(1),
    })
}
