//! One place of two lists of messages.
ghost use Rattle.std.specs.Prelude.{if◌then◌else◌, ◌≡◌, ◌∷◌, ◌++◌, [], false, IfErr, IsErrOf, Ok, OnOk, map};
ghost use Rattle.std.specs.Cow.{cow_slice_items};
ghost use Rattle.house_rows.specs.declared.settings.Settings.{Settings as TheSettings};
ghost use Rattle.house_rows.specs.History.{History};
ghost use Rattle.house_rows.specs.Tables.{tables_of};
ghost use Rattle.house_rows.specs.Verdict.{IsHistory};
ghost use Rattle.site.specs.Replies.{zone_of};
ghost use Rattle.site_audit.specs.Places.{ArePaired, Heard, IsHeard, IsPlaceReported, IsUsed, keep_of};

use crate::fault::AuditFault;
use crate::pair::sites_agree;
use crate::replies::reply;
use crate::texts::{is_callers, may_pair};
use house_rows::Keep;
use site::{Reply, Site};

// Keeps a reply, where it is the caller's.
fn keep_reply(replies: &mut Vec<Reply>, reply: Reply, is_callers: bool) -> Result<(), AuditFault>
    ensures ok { OnOk result (map cow_slice_items replies.new.items
        ≡ map cow_slice_items replies.old.items
        ++ (if is_callers then cow_slice_items reply.entry ∷ [] else [])) }
    ensures err { IfErr result (λ fault. fault ≡ AuditFault.Memory) }
{
    if !is_callers {
        return Ok(());
    }
    match replies.push(reply) {
        Ok(()) => Ok(()),
        Err(_) => Err(AuditFault::Memory),
    }
}

/// Answers two texts, keeps the left reply where it is the caller's, and says whether the place is
/// one of twin runs for it. Where the texts may not be at one place, neither is answered.
pub(crate) fn take_place<K: Keep + Drop>(
    left: &mut Site<K>,
    right: &mut Site<K>,
    text: &[u8],
    other: &[u8],
    caller: u64,
    replies: &mut Vec<Reply>,
) -> Result<bool, AuditFault>
    ensures report { K.is_honest (keep_of left.new) → K.is_honest (keep_of right.new)
        → (settings : TheSettings) (h k : History) → IsHistory settings h → IsHistory settings k
        → K.content (keep_of left.old) ≡ tables_of settings h
        → K.content (keep_of right.old) ≡ tables_of settings k
        → (x y : Heard) → IsHeard text.now x → IsHeard other.now y
        → IsPlaceReported K.content K.is_failed settings (zone_of left.old) caller h k x y
        (map cow_slice_items replies.old.items) (map cow_slice_items replies.new.items)
        (keep_of left.new) (keep_of right.new) result }

    // Whatever the houses are.
    ensures unpaired { (x y : Heard) → IsHeard text.now x → IsHeard other.now y
        → ¬ (ArePaired caller x y)
        → (result ≡ Ok false) × (left.new ≡ left.old) × (right.new ≡ right.old)
        × (replies.new ≡ replies.old) }
    ensures never { ¬ (IsErrOf result AuditFault.NotNew) }
    ensures left { IsUsed K.is_failed K.is_honest left.old left.new }
    ensures right { IsUsed K.is_failed K.is_honest right.old right.new }
{
    if !may_pair(text, other, caller) {
        return Ok(false);
    }
    let left_reply = reply(left, text)?;
    reply(right, other)?;
    keep_reply(replies, left_reply, is_callers(text, caller))?;
    sites_agree(left, right, caller)
}
