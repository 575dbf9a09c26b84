//! Scans of a list of bids.
ghost use Rattle.std.specs.Prelude.{◌≡◌, max, unwrap_or};
ghost use Rattle.std.specs.Option.{option_map};
ghost use Rattle.proxy.specs.Bids.{bids_not_by, greatest_if_any, leader, maxima};

use crate::bid::Bid;
use cents::Cents;

// The first bid of the greatest maximum.
pub(crate) fn leading(bids: &[Bid]) -> Option<Bid>
    ensures leader { option_map (λ b. b.member) result ≡ leader bids.now }
    ensures top { option_map (λ b. b.maximum) result ≡ greatest_if_any (maxima bids.now) }
{
    let mut found: Option<Bid> = None;
    for bid in bids {
        found = match found {
            Some(best) if bid.maximum <= best.maximum => Some(best),
            _ => Some(*bid),
        };
    }
    found
}

// The greatest maximum of all but the leader.
pub(crate) fn other_greatest(bids: &[Bid], leader: u32) -> Option<Cents>
    ensures { result ≡ greatest_if_any (maxima (bids_not_by leader bids.now)) }
{
    let mut found: Option<Cents> = None;
    for bid in bids {
        if bid.member != leader {
            found = Some(greatest_with(found, bid.maximum));
        }
    }
    found
}

// The greatest so far, with one more maximum.
pub(crate) fn greatest_with(so_far: Option<Cents>, maximum: Cents) -> Cents
    ensures { result ≡ max (unwrap_or so_far 0) maximum }
{
    so_far.map_or(maximum, |most| most.max(maximum))
}
