//! Who leads, and whether the leader's maximum covers what leading takes.
ghost use Rattle.std.specs.Prelude.{◌≡◌, ◌≤◌, ◌↔◌, IfOk, IfSome, IsErrOf, Some, true};
ghost use Rattle.steps.specs.Table.{over};
ghost use Rattle.proxy.specs.Surplus.{Covers};
ghost use Rattle.house_laws.specs.Covered.{LeadsBy};
ghost use Rattle.house_rows.specs.Answers.{Reads};
ghost use Rattle.house_rows.specs.declared.settings.Settings.{Settings as TheSettings};
ghost use Rattle.house_rows.specs.History.{History};
ghost use Rattle.house_rows.specs.Keeping.{Faults};
ghost use Rattle.house_rows.specs.Tables.{tables_of};
ghost use Rattle.house_rows.specs.Verdict.{IsHistory};
ghost use Rattle.site_audit.specs.Places.{IsSeen, IsUsed, keep_of};
ghost use Rattle.site_audit.specs.SealedBids.{IsLedKept};

use crate::bids::SealedBid;
use crate::fault::AuditFault;
use cents::Cents;
use house_rows::{Keep, KeepFault};
use proxy::Standing;
use site::Site;
use steps::Bands;

// Whether a maximum is at least one step over the second, if there is one.
fn is_over(bands: &Bands, second: Option<Cents>, maximum: u64) -> bool
    ensures { (result ≡ true) ↔ IfSome second (λ s. over bands.now s ≤ maximum) }
{
    match second {
        Some(second) => bands.over(second) <= maximum,
        None => true,
    }
}

// Whether a maximum is at least the reserve, if there is one.
fn meets(reserve: Option<Cents>, maximum: u64) -> bool
    ensures { (result ≡ true) ↔ IfSome reserve (λ r. r ≤ maximum) }
{
    match reserve {
        Some(reserve) => reserve.value() <= maximum,
        None => true,
    }
}

// Whether a maximum covers what leading takes.
fn covers(bands: &Bands, reserve: Option<Cents>, second: Option<Cents>, maximum: u64) -> bool
    ensures { (result ≡ true) ↔ Covers bands.now reserve second maximum }
{
    is_over(bands, second, maximum) && meets(reserve, maximum)
}

// Whether a member is the leader that there is.
fn is_leader(leader: Option<u32>, member: u64) -> bool
    ensures { (result ≡ true) ↔ (leader ≡ Some member) }
{
    match leader {
        Some(leader) => u64::from(leader) == member,
        None => false,
    }
}

// Whether a maximum is the top that there is.
fn is_top(top: Option<Cents>, maximum: u64) -> bool
    ensures { (result ≡ true) ↔ (top ≡ Some maximum) }
{
    match top {
        Some(top) => top.value() == maximum,
        None => false,
    }
}

// Whether a member leads by that maximum, and it covers what leading takes.
fn is_led_by(standing: &Standing, bands: &Bands, member: u64, maximum: u64) -> bool
    ensures { (result ≡ true) ↔ IsLedKept bands.now member maximum standing.now }
{
    is_leader(standing.leader(), member)
        && is_top(standing.top(), maximum)
        && covers(bands, standing.reserve(), standing.second(), maximum)
}

// Whether a bidder leads its item by that maximum, and it covers what leading takes.
fn leads_by<K: Keep>(keep: &mut K, bid: SealedBid, maximum: u64) -> Result<bool, KeepFault>
    ensures leads { K.is_honest keep.new → (settings : TheSettings) (h : History)
        → IsHistory settings h → K.content keep.old ≡ tables_of settings h
        → IfOk result (λ leads. (leads ≡ true)
        ↔ LeadsBy settings h bid.item bid.member maximum) }
    ensures faults { Faults result (K.is_honest keep.new) (K.is_failed keep.new)
        (K.content keep.old) }
    ensures read { Reads K.Keep keep.old keep.new }
{
    let Some(standing) = keep.standing(bid.item)? else {
        return Ok(false);
    };
    let bands = keep.editions()?.bands_for(bid.item);
    Ok(is_led_by(&standing, bands, bid.member, maximum))
}

/// Whether the bidder leads in both houses, by its bid in the left one and by the raised one in the
/// right one, and both cover what leading takes.
pub(crate) fn both_lead<K: Keep + Drop>(
    left: &mut Site<K>,
    right: &mut Site<K>,
    bid: SealedBid,
    maximum: u64,
) -> Result<bool, AuditFault>
    ensures lead { K.is_honest (keep_of left.new) → K.is_honest (keep_of right.new)
        → (settings : TheSettings) (h k : History) → IsHistory settings h → IsHistory settings k
        → K.content (keep_of left.old) ≡ tables_of settings h
        → K.content (keep_of right.old) ≡ tables_of settings k
        → IsSeen K.content K.is_failed
        (LeadsBy settings h bid.item bid.member bid.maximum
        × LeadsBy settings k bid.item bid.member maximum)
        (keep_of left.old) (keep_of right.old) (keep_of left.new) (keep_of right.new) result }
    ensures never { ¬ (IsErrOf result AuditFault.NotNew) }
    ensures left { IsUsed K.is_failed K.is_honest left.old left.new }
    ensures right { IsUsed K.is_failed K.is_honest right.old right.new }
{
    if !leads_by(left.keep_mut(), bid, bid.maximum)? {
        return Ok(false);
    }
    Ok(leads_by(right.keep_mut(), bid, maximum)?)
}
