//! Whose a text is, and which texts may be at one place.
ghost use Rattle.std.specs.Prelude.{◌≡◌, ◌↔◌, true};
ghost use Rattle.site.specs.Runs.{is_from};
ghost use Rattle.site_request.specs.Asked.{IsAsked, caller_of};
ghost use Rattle.site_request.specs.Heads.{caller_in};
ghost use Rattle.site_request.specs.declared.asked.Asked.{Asked as TheAsked};
ghost use Rattle.site_audit.specs.Places.{ArePaired, Heard, IsHeard};

use site_digits::count;
use wire::{Request, whole};

// The number of the field `x-member`, where it occurs exactly once.
#[tactic(auto, unfolding(site_request::specs::Heads::caller_in, site_request::specs::Heads::numbered))]
fn number_in(request: &Request<'_>) -> Option<u64>
    ensures { result ≡ caller_in request.now }
{
    match request.one(b"x-member") {
        Some(digits) => count(digits),
        None => None,
    }
}

// Whose a text is.
fn caller_of(text: &[u8]) -> Option<u64>
    ensures { (asked : TheAsked) → IsAsked text.now asked → result ≡ caller_of asked.message }
{
    match whole(text) {
        Ok(request) => number_in(&request),
        Err(_) => None,
    }
}

/// Whether a text is a caller's message.
pub(crate) fn is_callers(text: &[u8], caller: u64) -> bool
    ensures { (asked : TheAsked) → IsAsked text.now asked → result ≡ is_from caller asked }
{
    match caller_of(text) {
        Some(number) => number == caller,
        None => false,
    }
}

// Whether two texts are equal, byte for byte.
fn are_equal(left: &[u8], right: &[u8]) -> bool
    ensures { (result ≡ true) ↔ (left.now ≡ right.now) }
{
    left == right
}

/// Whether two texts may be at one place of twin runs: where either is the caller's, both are
/// equal, byte for byte.
pub(crate) fn may_pair(left: &[u8], right: &[u8], caller: u64) -> bool
    ensures { (x y : Heard) → IsHeard left.now x → IsHeard right.now y
        → (result ≡ true) ↔ ArePaired caller x y }
{
    if are_equal(left, right) {
        return true;
    }
    if is_callers(left, caller) {
        return false;
    }
    !is_callers(right, caller)
}
