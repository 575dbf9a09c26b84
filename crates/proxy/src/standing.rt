//! The standing of one item, kept from bid to bid.
ghost use Rattle.std.specs.Prelude.{if◌then◌else◌, ◌≡◌, ◌==◌, ◌≤◌, ◌<◌, List, [], length, IfSome};
ghost use Rattle.std.specs.Prelude.{is_some, OnOk, OnErr, MatchResult};
ghost use Rattle.steps.specs.Table.{Band};
ghost use Rattle.proxy.specs.declared.bid.Bid.{Bid as TheBid};
ghost use Rattle.proxy.specs.Bids.{floor, met_by, one_more, price_by_bids, refusal, standing_of, with_reserve};
ghost use Rattle.proxy.specs.Kept.{opening_of};
ghost use Rattle.proxy.specs.Led.{kept_led};
ghost use Rattle.proxy.specs.Rows.{is_shape};
ghost use Rattle.steps.specs.Table.{over};

use crate::bid::{Bid, BidRefusal};
use crate::scans::{greatest_with, leading, other_greatest};
use cents::Cents;
use std::marker::Model;
use steps::Bands;

/// The most bids that an item takes.
pub const MOST_BIDS: u32 = 10_000;

/// The standing of one item: what its accepted bids amount to. Clauses see its fields as a
/// `Kept`.
#[derive(Clone, Copy, PartialEq, Eq)]
pub struct Standing {
    start: Cents,
    reserve: Option<Cents>,
    price: Cents,
    leader: Option<u32>,
    top: Option<Cents>,
    second: Option<Cents>,
    count: u32,
}

impl Model for Standing {
    ghost use Rattle.proxy.specs.Kept.{Kept};

    ghost Value = { Kept };

    ghost view = { λ s. record {
      start = s.start;
      reserve = s.reserve;
      price = s.price;
      leader = s.leader;
      top = s.top;
      second = s.second;
      count = s.count;
    } };

    ghost inverse = { λ k. record {
      start = k.start;
      reserve = k.reserve;
      price = k.price;
      leader = k.leader;
      top = k.top;
      second = k.second;
      count = k.count;
    } };
}

// The price against the second: one step over it, but at most the top.
fn price_against(bands: &Bands, start: Cents, top: Cents, second: Cents) -> Cents
    ensures { result ≡ price_by_bids bands.now start top (Some second) }
{
    match Cents::new(bands.over(second)) {
        Some(over) => start.max(top.min(over)),
        None => start.max(top),
    }
}

// A price by the bids, or a reserve above it that the top meets.
fn over_reserve(reserve: &Option<Cents>, top: Cents, by_bids: Cents) -> Cents
    ensures { result ≡ with_reserve reserve.now top by_bids }
{
    match reserve {
        Some(reserve) if *reserve <= top => by_bids.max(*reserve),
        _ => by_bids,
    }
}

/// The least maximum that is taken of a bidder who doesn't lead, in cents: the start of an item
/// without bids, and else one step over its price.
pub fn floor_of(bands: &Bands, start: Cents, price: Cents, count: u32) -> u64
    ensures { result ≡ (if count == 0 then start else over bands.now price) }
{
    if count == 0 {
        start.value()
    } else {
        bands.over(price)
    }
}

impl Standing {
    /// The standing of an item on which nobody has bid.
    pub fn open(start: Cents, reserve: Option<Cents>) -> Standing
        ensures { (bands : List Band) → result ≡ standing_of bands (record { start = start; reserve = reserve }) [] }
    {
        Standing {
            start,
            reserve,
            price: start,
            leader: None,
            top: None,
            second: None,
            count: 0,
        }
    }

    /// The standing of a list of bids in order, by two scans.
    pub fn of_bids(start: Cents, reserve: Option<Cents>, bands: &Bands, bids: &[Bid]) -> Standing
        requires { length bids.now ≤ MOST_BIDS }
        ensures { result ≡ standing_of bands.now (record { start = start; reserve = reserve }) bids.now }
    {
        match leading(bids) {
            Some(best) => {
                let second = other_greatest(bids, best.member);
                let count = bids.len() as u32;
                Standing::open(start, reserve).with_leader(
                    bands,
                    best.member,
                    best.maximum,
                    second,
                    count,
                )
            }
            None => Standing::open(start, reserve),
        }
    }

    /// The standing of a row that gives it, if the values of the row fit together.
    ///
    /// Either nobody has bid, and the price is the start. Or one member has, and the price is the
    /// start. Or several have, the second lies between start and top, and the price is one step
    /// over it, but at most the top. A reserve above that price is the price where the top meets
    /// it.
    ///
    /// Accepted bids leave no other row, but they can't leave each of these, since the bids are not
    /// looked at. By the example bands, a start and second of 500 and a top of 510 fit; but after
    /// any first bid another member's is accepted from 550 on.
    pub fn of_row(
        start: Cents,
        reserve: Option<Cents>,
        bands: &Bands,
        price: Cents,
        leader: Option<u32>,
        top: Option<Cents>,
        second: Option<Cents>,
        count: u32,
    ) -> Option<Standing>
        ensures fits { is_some result ≡ is_shape bands.now
            (record { start = start; reserve = reserve }) price count leader top second }
        ensures value { IfSome result (λ s. s
            ≡ record {
              start = start;
              reserve = reserve;
              price = price;
              leader = leader;
              top = top;
              second = second;
              count = count;
            }) }
    {
        let fits = match (leader, top, second) {
            (None, None, None) => count == 0 && price == start,
            (Some(_), Some(top), None) => {
                (1..=MOST_BIDS).contains(&count)
                    && start <= top
                    && price == over_reserve(&reserve, top, start)
            }
            (Some(_), Some(top), Some(second)) => {
                (2..=MOST_BIDS).contains(&count)
                    && start <= second
                    && second <= top
                    && price
                        == over_reserve(&reserve, top, price_against(bands, start, top, second))
            }
            _ => false,
        };
        if !fits {
            return None;
        }
        Some(Standing {
            start,
            reserve,
            price,
            leader,
            top,
            second,
            count,
        })
    }

    /// The public price.
    pub fn price(&self) -> Cents
        ensures { result ≡ self.now.price }
    {
        self.price
    }

    /// Whether the reserve is met; none where there is none.
    pub fn is_reserve_met(&self) -> Option<bool>
        ensures { result ≡ met_by self.now.reserve self.now.top }
    {
        match (self.reserve, self.top) {
            (Some(reserve), Some(top)) => Some(reserve <= top),
            (Some(_), None) => Some(false),
            (None, _) => None,
        }
    }

    /// The least for which the seller sells, which is sealed.
    pub fn reserve(&self) -> Option<Cents>
        ensures { result ≡ self.now.reserve }
    {
        self.reserve
    }

    /// Who leads.
    pub fn leader(&self) -> Option<u32>
        ensures { result ≡ self.now.leader }
    {
        self.leader
    }

    /// The leader's greatest maximum, which is sealed.
    pub fn top(&self) -> Option<Cents>
        ensures { result ≡ self.now.top }
    {
        self.top
    }

    /// The greatest maximum of all others, which is sealed.
    pub fn second(&self) -> Option<Cents>
        ensures { result ≡ self.now.second }
    {
        self.second
    }

    /// How many bids were accepted, raises among them.
    pub fn count(&self) -> u32
        ensures { result ≡ self.now.count }
    {
        self.count
    }

    /// The least maximum that is taken of a bidder who doesn't lead, in cents.
    pub fn floor(&self, bands: &Bands) -> u64
        ensures any { result
            ≡ (if self.now.count == 0 then self.now.start else over bands.now self.now.price) }
        ensures by_bids { (bids : List TheBid) → self.now ≡ standing_of bands.now (opening_of self.now) bids
            → result ≡ floor bands.now (opening_of self.now) bids }
    {
        floor_of(bands, self.start, self.price, self.count)
    }

    /// Places a bid. A refused one changes nothing.
    ///
    /// The clauses speak of whatever accepted bids this is the standing of.
    pub fn place(&mut self, bands: &Bands, member: u32, maximum: Cents) -> Result<(), BidRefusal>
        // Low, NotHigher and Full come exactly by the rules, in their order.
        ensures verdict { (bids : List TheBid) → self.old ≡ standing_of bands.now (opening_of self.old) bids
            → MatchResult result (λ _. refusal bands.now (opening_of self.old) bids member maximum ≡ None)
            (λ e. refusal bands.now (opening_of self.old) bids member maximum ≡ Some e) }
        ensures placed { (bids : List TheBid) → self.old ≡ standing_of bands.now (opening_of self.old) bids
            → OnOk result (self.new ≡ standing_of bands.now (opening_of self.old) (one_more bids member maximum)) }
        ensures err { OnErr result (self.new ≡ self.old) }
    {
        self.judge(bands, member, maximum)?;
        *self = self.with(bands, member, maximum);
        Ok(())
    }

    // Whether a bid is accepted.
    fn judge(&self, bands: &Bands, member: u32, maximum: Cents) -> Result<(), BidRefusal>
        ensures verdict { (bids : List TheBid) → self.now ≡ standing_of bands.now (opening_of self.now) bids
            → MatchResult result (λ _. refusal bands.now (opening_of self.now) bids member maximum ≡ None)
            (λ e. refusal bands.now (opening_of self.now) bids member maximum ≡ Some e) }
        ensures raised { OnOk result (self.now.leader ≡ Some member → IfSome self.now.top (λ top. top < maximum)) }
        ensures room { OnOk result (self.now.count < MOST_BIDS) }
    {
        if self.leader == Some(member) {
            if self.top.is_some_and(|top| maximum <= top) {
                return Err(BidRefusal::NotHigher);
            }
        } else {
            let floor = self.floor(bands);
            if maximum.value() < floor {
                return Err(BidRefusal::Low { floor });
            }
        }
        if self.count >= MOST_BIDS {
            return Err(BidRefusal::Full);
        }
        Ok(())
    }

    // The standing after a bid that is accepted.
    fn with(&self, bands: &Bands, member: u32, maximum: Cents) -> Standing
        requires raised { self.now.leader ≡ Some member → IfSome self.now.top (λ top. top < maximum) }
        requires room { self.now.count < MOST_BIDS }
        ensures { (bids : List TheBid) → self.now ≡ standing_of bands.now (opening_of self.now) bids
            → result ≡ standing_of bands.now (opening_of self.now) (one_more bids member maximum) }
    {
        let count = self.count + 1;
        match (self.leader, self.top) {
            (Some(leader), Some(top)) if leader != member => {
                if top < maximum {
                    self.with_leader(bands, member, maximum, Some(top), count)
                } else {
                    let second = greatest_with(self.second, maximum);
                    self.with_leader(bands, leader, top, Some(second), count)
                }
            }
            _ => self.with_leader(bands, member, maximum, self.second, count),
        }
    }

    // The standing where somebody leads.
    fn with_leader(
        &self,
        bands: &Bands,
        leader: u32,
        top: Cents,
        second: Option<Cents>,
        count: u32,
    ) -> Standing
        ensures { result ≡ kept_led bands.now (opening_of self.now) leader top second count }
    {
        let by_bids = match second {
            Some(second) => price_against(bands, self.start, top, second),
            None => self.start,
        };
        Standing {
            price: over_reserve(&self.reserve, top, by_bids),
            leader: Some(leader),
            top: Some(top),
            second,
            count,
            ..*self
        }
    }
}
