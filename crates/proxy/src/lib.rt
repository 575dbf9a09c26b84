//! Automatic (proxy) bidding on one item: members give sealed maxima, and the public price rises
//! only as far as is needed to lead.
//!
//! Promised: after any bids the standing is the one that the list of accepted bids defines, and a
//! bid is refused exactly by the rules, in their order. No call takes memory. Read
//! `specs/Bids.antt` first, which says leader, second, price and floor, and then `standing`, whose
//! `place` is the call that matters.
#![tactic(auto)]

mod bid;
mod laws;
mod scans;
mod standing;

pub use bid::{Bid, BidRefusal};
pub use laws::{
    accepted_bids_leave_standings, accepted_bids_rise, leader_ranks_first, price_is_between,
    price_never_falls, raise_keeps, reserves_hold, surplus_is_invisible, worked_rows,
};
pub use standing::{MOST_BIDS, Standing, floor_of};
