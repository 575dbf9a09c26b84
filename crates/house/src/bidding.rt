//! Bidding.
ghost use Rattle.std.specs.Prelude.{◌≡◌, List, MatchResult, None, Some, option_map};
ghost use Rattle.proxy.specs.Kept.{opening_of};
ghost use Rattle.proxy.specs.declared.bid.Bid.{Bid as TheBid};
ghost use Rattle.proxy.specs.Bids.{one_more, refusal, standing_of};
ghost use Rattle.house_rows.specs.declared.command.Command.TheVariants as command;
ghost use Rattle.house.specs.Decides.{Decides};
ghost use Rattle.house.specs.Refused.{as_refusal};

use crate::targets::{on_auction, open_refused};
use cents::Cents;
use house_rows::{Change, Keep, KeepFault, Refusal};
use proxy::{Bid, BidRefusal, Standing};
use steps::Bands;

/// Decides on a bid. The maximum is in cents, and sealed: no refusal shows another's.
///
/// The change carries the bid with its number, and the standing of the item with it.
pub fn bid<'c, K: Keep>(
    keep: &mut K,
    moment: u64,
    caller: u64,
    item: u64,
    maximum: u64,
) -> Result<Result<Change<'c>, Refusal>, KeepFault>
    ensures { Decides K.Keep keep.old keep.new result moment caller (command.Bid item maximum) }
{
    let on = match on_auction(keep, moment, caller, item)? {
        Ok(on) => on,
        Err(refusal) => return Ok(Err(refusal)),
    };
    if let Some(refusal) = open_refused(moment, caller, &on.terms) {
        return Ok(Err(refusal));
    }
    let Some(maximum) = Cents::new(maximum) else {
        return Ok(Err(Refusal::Range));
    };
    let bands = keep.editions()?.bands_for(item);
    match place_bid(on.standing, bands, on.member, maximum) {
        Err(refusal) => Ok(Err(refusal)),
        Ok(standing) => Ok(Ok(Change::Bid {
            moment,
            item: on.terms.item,
            placed: Bid {
                member: on.member,
                maximum,
                no: standing.count(),
            },
            standing,
        })),
    }
}

// The standing with one more bid, or why the bid is refused.
fn place_bid(
    mut standing: Standing,
    bands: &Bands,
    member: u32,
    maximum: Cents,
) -> Result<Standing, Refusal>
    ensures { (bids : List TheBid) → standing ≡ standing_of bands.now (opening_of standing) bids
        → MatchResult result
        (λ after. (refusal bands.now (opening_of standing) bids member maximum ≡ None)
        × (after ≡ standing_of bands.now (opening_of standing) (one_more bids member maximum)))
        (λ report. Some report ≡ option_map as_refusal (refusal bands.now (opening_of standing) bids member maximum)) }
{
    match standing.place(bands, member, maximum) {
        Ok(()) => Ok(standing),
        Err(BidRefusal::Low { floor }) => Err(Refusal::Low { floor }),
        Err(BidRefusal::NotHigher) => Err(Refusal::NotHigher),
        Err(BidRefusal::Full) => Err(Refusal::Limit),
    }
}
