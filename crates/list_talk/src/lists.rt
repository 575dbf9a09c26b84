//! Copies of rows that pass a test, one part of a table after another.
ghost use Rattle.std.specs.Prelude.{◌≡◌, ◌≤◌, ◌++◌, Bool, IfErr, OnOk, filter, length, take};
ghost use Rattle.house_rows.specs.Limits.{most_shown};
ghost use Rattle.house_rows.specs.declared.fault.KeepFault.TheVariants as fault;

use house_rows::{KeepFault, MOST_SHOWN};
use list_rows::{Copied, push_copy};

/// Copies of the rows that pass go after what was found.
pub(crate) fn push_passing<R: Copied + Drop, F: Fn(&R) -> bool + Drop>(
    found: &mut Vec<R>,
    rows: &[R],
    passes: F,
) -> Result<(), KeepFault>
    requires callable { F.IsAlwaysCallable passes }
    ensures ok { (test : R → Bool) → ((row : _) (answer : Bool) → F.post passes row answer → answer ≡ test row.now)
        → OnOk result (found.new.items ≡ found.old.items ++ filter test rows.now) }
    ensures memory { IfErr result (λ e. e ≡ fault.Memory) }
{
    for row in rows {
        if passes(row) {
            push_copy(found, row)?;
        }
    }
    Ok(())
}

/// Copies of the rows that pass go after what was found, up to fifty in all.
pub(crate) fn push_shown<R: Copied + Drop, F: Fn(&R) -> bool + Drop>(
    found: &mut Vec<R>,
    rows: &[R],
    passes: F,
) -> Result<(), KeepFault>
    requires callable { F.IsAlwaysCallable passes }
    requires room { length found.old.items ≤ most_shown }
    ensures ok { (test : R → Bool) → ((row : _) (answer : Bool) → F.post passes row answer → answer ≡ test row.now)
        → OnOk result (found.new.items ≡ take most_shown (found.old.items ++ filter test rows.now)) }
    ensures memory { IfErr result (λ e. e ≡ fault.Memory) }
{
    for row in rows {
        if found.len() >= MOST_SHOWN {
            return Ok(());
        }
        if passes(row) {
            push_copy(found, row)?;
        }
    }
    Ok(())
}
