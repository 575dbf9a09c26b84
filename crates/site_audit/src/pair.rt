//! Two sites, side by side.
ghost use Rattle.std.specs.Prelude.{◌≡◌, IfOk, IsErrOf, true};
ghost use Rattle.steps.specs.Table.{IsBandTable};
ghost use Rattle.house_rows.specs.Answers.{Reads};
ghost use Rattle.house_rows.specs.declared.settings.Settings.{Settings as TheSettings};
ghost use Rattle.house_rows.specs.History.{History};
ghost use Rattle.house_rows.specs.Runs.{Agrees};
ghost use Rattle.house_rows.specs.Tables.{tables_of};
ghost use Rattle.house_rows.specs.Verdict.{IsHistory};
ghost use Rattle.site_audit.specs.Audits.{MayBegin};
ghost use Rattle.site_audit.specs.Places.{IsSeen, IsUsed, keep_of};

use crate::fault::AuditFault;
use house_rows::Keep;
use house_views::{agree, have_same_settings};
use site::Site;

/// Whether what is public and what waits for the caller agree.
pub(crate) fn sites_agree<K: Keep + Drop>(
    left: &mut Site<K>,
    right: &mut Site<K>,
    caller: u64,
) -> Result<bool, AuditFault>
    ensures report { K.is_honest (keep_of left.new) → K.is_honest (keep_of right.new)
        → (settings : TheSettings) (h k : History) → IsHistory settings h → IsHistory settings k
        → K.content (keep_of left.old) ≡ tables_of settings h
        → K.content (keep_of right.old) ≡ tables_of settings k
        → IsSeen K.content K.is_failed (Agrees settings caller h k)
        (keep_of left.old) (keep_of right.old) (keep_of left.new) (keep_of right.new) result }
    ensures never { ¬ (IsErrOf result AuditFault.NotNew) }
    ensures left { IsUsed K.is_failed K.is_honest left.old left.new }
    ensures right { IsUsed K.is_failed K.is_honest right.old right.new }
{
    Ok(agree(left.keep_mut(), right.keep_mut(), caller)?)
}

// Whether both were set up alike.
fn are_alike<K: Keep + Drop>(left: &mut Site<K>, right: &mut Site<K>) -> Result<bool, AuditFault>
    ensures report { K.is_honest (keep_of left.new) → K.is_honest (keep_of right.new)
        → (settings others : TheSettings) (h k : History)
        → IsHistory settings h → IsHistory others k
        → K.content (keep_of left.old) ≡ tables_of settings h
        → K.content (keep_of right.old) ≡ tables_of others k
        → IsSeen K.content K.is_failed (settings ≡ others)
        (keep_of left.old) (keep_of right.old) (keep_of left.new) (keep_of right.new) result }
    ensures valid { K.is_honest (keep_of left.new)
        → IfOk result (λ _. IsBandTable (K.content (keep_of left.old)).settings.bands) }
    ensures left_read { Reads K.Keep (keep_of left.old) (keep_of left.new) }
    ensures right_read { Reads K.Keep (keep_of right.old) (keep_of right.new) }
    ensures left { IsUsed K.is_failed K.is_honest left.old left.new }
    ensures right { IsUsed K.is_failed K.is_honest right.old right.new }
{
    Ok(have_same_settings(left.keep_mut(), right.keep_mut())?)
}

/// Whether both houses are new, and were set up alike.
pub(crate) fn may_begin<K: Keep + Drop>(
    left: &mut Site<K>,
    right: &mut Site<K>,
) -> Result<bool, AuditFault>
    ensures report { K.is_honest (keep_of left.new) → K.is_honest (keep_of right.new)
        → (settings others : TheSettings) (h k : History)
        → IsHistory settings h → IsHistory others k
        → K.content (keep_of left.old) ≡ tables_of settings h
        → K.content (keep_of right.old) ≡ tables_of others k
        → IsSeen K.content K.is_failed
        (MayBegin (K.content (keep_of left.old)) (K.content (keep_of right.old)))
        (keep_of left.old) (keep_of right.old) (keep_of left.new) (keep_of right.new) result }
    ensures valid { K.is_honest (keep_of left.new) → IfOk result (λ begins.
        begins ≡ true → IsBandTable (K.content (keep_of left.old)).settings.bands) }
    ensures left_read { Reads K.Keep (keep_of left.old) (keep_of left.new) }
    ensures right_read { Reads K.Keep (keep_of right.old) (keep_of right.new) }
    ensures left { IsUsed K.is_failed K.is_honest left.old left.new }
    ensures right { IsUsed K.is_failed K.is_honest right.old right.new }
{
    if !left.is_new()? {
        return Ok(false);
    }
    if !right.is_new()? {
        return Ok(false);
    }
    are_alike(left, right)
}
