//! Whether it shows to others how far a bid lies above what leading takes.
ghost use Rattle.std.specs.Prelude.{◌≡◌, ◌↔◌, ◌≤◌, ℕ, List, IsErrOf, Ok, map, true, length};
ghost use Rattle.std.specs.List.{AllZip};
ghost use Rattle.steps.specs.Table.{IsBandTable};
ghost use Rattle.house_laws.specs.Covered.{Sealed, raised, with_maximum as the_with_maximum};
ghost use Rattle.house_rows.specs.Answers.{Reads};
ghost use Rattle.house_rows.specs.declared.settings.Settings.{Settings as TheSettings};
ghost use Rattle.house_rows.specs.History.{History};
ghost use Rattle.house_rows.specs.Tables.{tables_of};
ghost use Rattle.house_rows.specs.Verdict.{IsHistory};
ghost use Rattle.settle.specs.declared.zone.Zone.{Zone as TheZone};
ghost use Rattle.site.specs.Replies.{zone_of};
ghost use Rattle.site_audit.specs.AuditsFrom.{IsFoundFrom};
ghost use Rattle.site_audit.specs.Places.{Heard, IsHeard, IsUsed, keep_of};
ghost use Rattle.site_audit.specs.SealedBids.{IsBidAt, IsRaise, MayRaise};
ghost use Rattle.site_audit.specs.Surplus.{IsSurplusResult};
ghost use Rattle.site_audit.specs.SurplusFrom.{IsSurplusFoundFrom};
ghost use Rattle.site_bids.specs.Spelt.{bid_text};

use crate::bids::{SealedBid, bid_at, can_send, list_with};
use crate::fault::AuditFault;
use crate::leadership::both_lead;
use crate::outcome::Surplus;
use crate::pair::may_begin;
use crate::verdict::{Verdict, audit_from};
use house_rows::Keep;
use site::Site;
use std::alloc::Global;

// The greatest amount, in cents.
const MOST_CENTS: u64 = 1_000_000_000;

// The same bid with another maximum.
fn with_maximum(bid: SealedBid, maximum: u64) -> SealedBid
    ensures { result ≡ the_with_maximum maximum bid }
{
    SealedBid { maximum, ..bid }
}

// Whether a bid may be raised to that maximum at all, as another sees it.
fn may_raise(bid: SealedBid, maximum: u64, other: u64) -> bool
    ensures { (result ≡ true) ↔ MayRaise other maximum bid }
{
    can_send(with_maximum(bid, maximum))
        && bid.maximum < maximum
        && maximum <= MOST_CENTS
        && bid.member != other
}

// Compares a list, over houses of one history, with the one that has another bid in a place.
fn compare_with<K: Keep + Drop>(
    alloc: Global,
    left: &mut Site<K>,
    right: &mut Site<K>,
    messages: &[Vec<u8>],
    place: u64,
    bid: SealedBid,
    other: u64,
) -> Result<Verdict, AuditFault>
    requires place { (1 ≤ place) × (place ≤ length messages.now) }
    ensures found { K.is_honest (keep_of left.new) → K.is_honest (keep_of right.new)
        → (settings : TheSettings) (h : History) → IsHistory settings h
        → K.content (keep_of left.old) ≡ tables_of settings h
        → K.content (keep_of right.old) ≡ tables_of settings h
        → (heards : List Heard) → AllZip IsHeard (map (λ m. m.items) messages.now) heards
        → (text : Heard) → IsHeard (bid_text bid) text
        → IsFoundFrom K.content K.is_failed settings (zone_of left.old) other h h heards
        (raised place text heards) (keep_of left.new) (keep_of right.new) result }
    ensures never { ¬ (IsErrOf result AuditFault.NotNew) }
    ensures left { IsUsed K.is_failed K.is_honest left.old left.new }
    ensures right { IsUsed K.is_failed K.is_honest right.old right.new }
{
    let list = list_with(alloc, messages, place, bid)?;
    audit_from(alloc, left, right, messages, &list, other)
}

// Whether a bid is covered, by what comparing the two lists gave and by who leads in the end.
fn judge<K: Keep + Drop>(
    left: &mut Site<K>,
    right: &mut Site<K>,
    verdict: Verdict,
    bid: SealedBid,
    maximum: u64,
) -> Result<Surplus, AuditFault>
    ensures found { K.is_honest (keep_of left.new) → K.is_honest (keep_of right.new)
        → (settings : TheSettings) → IsBandTable settings.bands
        → (h : History) → IsHistory settings h
        → (zone : TheZone) (other place : ℕ) (heards : List Heard) (text : Heard)
        → IsBidAt place bid heards → MayRaise other maximum bid → IsRaise maximum bid text
        → IsFoundFrom K.content K.is_failed settings zone other h h heards
        (raised place text heards) (keep_of left.old) (keep_of right.old) (Ok verdict)
        → IsSurplusFoundFrom K.content K.is_failed settings zone other h place maximum heards
        (keep_of left.new) (keep_of right.new) result }
    ensures never { ¬ (IsErrOf result AuditFault.NotNew) }
    ensures left { IsUsed K.is_failed K.is_honest left.old left.new }
    ensures right { IsUsed K.is_failed K.is_honest right.old right.new }
{
    match verdict {
        Verdict::Apart { .. } => Ok(Surplus::NotCovered),
        Verdict::Equal { replies } => match both_lead(left, right, bid, maximum) {
            Ok(true) => Ok(Surplus::Same { replies }),
            Ok(false) => Ok(Surplus::NotCovered),
            Err(fault) => Err(fault),
        },
    }
}

/// Answers a list of messages over a house that lives on, and over another of equal tables the same
/// list in which the bid in a place, counted from 1, has another maximum; and says whether that bid
/// is covered, with the replies to another, which are then the same in both.
///
/// Which bids are covered is said at `surplus`. NotNew is never answered. Where the place has no bid
/// that may be raised to that maximum, no message is answered, and both houses stay.
pub fn surplus_from<K: Keep + Drop>(
    alloc: Global,
    left: &mut Site<K>,
    right: &mut Site<K>,
    messages: &[Vec<u8>],
    place: u64,
    maximum: u64,
    other: u64,
) -> Result<Surplus, AuditFault>
    ensures found { K.is_honest (keep_of left.new) → K.is_honest (keep_of right.new)
        → (settings : TheSettings) → IsBandTable settings.bands
        → (h : History) → IsHistory settings h
        → K.content (keep_of left.old) ≡ tables_of settings h
        → K.content (keep_of right.old) ≡ tables_of settings h
        → (heards : List Heard) → AllZip IsHeard (map (λ m. m.items) messages.now) heards
        → IsSurplusFoundFrom K.content K.is_failed settings (zone_of left.old) other h place
        maximum heards (keep_of left.new) (keep_of right.new) result }

    // Whatever the houses are: where the place has no bid that may be raised so, they stay.
    ensures unasked { (heards : List Heard) → AllZip IsHeard (map (λ m. m.items) messages.now) heards
        → ((b : Sealed) → IsBidAt place b heards → ¬ (MayRaise other maximum b))
        → (left.new ≡ left.old) × (right.new ≡ right.old) }
    ensures never { ¬ (IsErrOf result AuditFault.NotNew) }
    ensures left { IsUsed K.is_failed K.is_honest left.old left.new }
    ensures right { IsUsed K.is_failed K.is_honest right.old right.new }
{
    let Some(bid) = bid_at(alloc, messages, place)? else {
        return Ok(Surplus::NotCovered);
    };
    if !may_raise(bid, maximum, other) {
        return Ok(Surplus::NotCovered);
    }
    let raised = with_maximum(bid, maximum);
    let verdict = compare_with(alloc, left, right, messages, place, raised, other)?;
    judge(left, right, verdict, bid, maximum)
}

/// Answers a list of messages over a new house, and over another the same list in which the bid in
/// a place, counted from 1, has another maximum; and says whether that bid is covered, with the
/// replies to another, which are then the same in both.
///
/// A bid is covered where it is accepted and its bidder's last on its item, and in the end its bidder
/// leads, by a maximum of at least one step over the second, if there is one; and the other maximum
/// is a greater amount. NotNew is answered exactly where a house isn't new, or the two were set up
/// differently, and then nothing is changed.
pub fn surplus<K: Keep + Drop>(
    alloc: Global,
    left: &mut Site<K>,
    right: &mut Site<K>,
    messages: &[Vec<u8>],
    place: u64,
    maximum: u64,
    other: u64,
) -> Result<Surplus, AuditFault>
    ensures surplus { K.is_honest (keep_of left.new) → K.is_honest (keep_of right.new)
        → (settings others : TheSettings) (h k : History)
        → IsHistory settings h → IsHistory others k
        → K.content (keep_of left.old) ≡ tables_of settings h
        → K.content (keep_of right.old) ≡ tables_of others k
        → (heards : List Heard) → AllZip IsHeard (map (λ m. m.items) messages.now) heards
        → IsSurplusResult K.content K.is_failed settings (zone_of left.old) other place maximum
        heards (keep_of left.old) (keep_of right.old) (keep_of left.new) (keep_of right.new)
        result }

    // Whatever the houses are.
    ensures unbegun { IsErrOf result AuditFault.NotNew
        → Reads K.Keep (keep_of left.old) (keep_of left.new)
        × Reads K.Keep (keep_of right.old) (keep_of right.new) }
    ensures left { IsUsed K.is_failed K.is_honest left.old left.new }
    ensures right { IsUsed K.is_failed K.is_honest right.old right.new }
{
    if !may_begin(left, right)? {
        return Err(AuditFault::NotNew);
    }
    surplus_from(alloc, left, right, messages, place, maximum, other)
}
