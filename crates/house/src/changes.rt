//! Filling a keep with changes.
ghost use Rattle.std.specs.Prelude.{◌≡◌, ◌⊎◌, ◌↔◌, OnOk, OnErr, IsErrOf, false, true};
ghost use Rattle.house_rows.specs.declared.fault.KeepFault.TheVariants.{Store, Damaged};
ghost use Rattle.house_rows.specs.Keeping.{AreSound};
ghost use Rattle.house_rows.specs.Tables.{Tables};
ghost use Rattle.house.specs.Filled.{AreFreeInTurn, FitInTurn, IsBegun, RowsFitInTurn, after};

use house_rows::{Change, Keep, KeepFault};

/// Makes changes in turn, until one isn't made: then the tables are those after the changes before it.
/// A crash may leave the tables after any beginning of the changes.
pub fn fill<K: Keep>(keep: &mut K, changes: &[Change<'_>]) -> Result<(), KeepFault>
    requires fits { K.is_honest keep.old → FitInTurn (K.content keep.old) changes.now }
    ensures ok { K.is_honest keep.new → OnOk result (K.content keep.new ≡ after (K.content keep.old) changes.now) }
    ensures err { K.is_honest keep.new → K.is_failed keep.new ≡ false
        → OnErr result (IsBegun (K.content keep.old) changes.now (K.content keep.new)) }
    ensures store { K.is_failed keep.old ≡ false → (IsErrOf result Store ↔ (K.is_failed keep.new ≡ true)) }
    // Damaged has a cause: a row that a change takes and that doesn't fit, so tables that aren't sound, or
    // a key that is taken. After Ok no key was taken.
    ensures damaged { K.is_honest keep.new → AreSound (K.content keep.old) → AreFreeInTurn (K.content keep.old) changes.now
        → ¬ (IsErrOf result Damaged) }
    ensures rows { K.is_honest keep.new → RowsFitInTurn (K.content keep.old) changes.now
        → AreFreeInTurn (K.content keep.old) changes.now → ¬ (IsErrOf result Damaged) }
    ensures taken { K.is_honest keep.new → OnOk result (AreFreeInTurn (K.content keep.old) changes.now) }
    ensures honest { K.is_honest keep.new → K.is_honest keep.old }
    ensures stays { K.is_failed keep.old ≡ true → K.is_failed keep.new ≡ true }
    ensures crash { K.is_honest keep.new → (t : Tables) → K.may_leave keep.new t
        → K.may_leave keep.old t ⊎ IsBegun (K.content keep.old) changes.now t }
{
    for change in changes {
        keep.apply(change)?;
    }
    Ok(())
}
