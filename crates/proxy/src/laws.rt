//! What the definitions mean, in the subject's own words. No code runs here.
ghost use Rattle.std.specs.Prelude.{◌≡◌, ◌≢◌, ◌≤◌, ◌<◌, ◌↔◌, ◌++◌, ◌∷◌, ℕ, List, Option, Some, None, IfSome, length, true, false};
ghost use Rattle.steps.specs.Table.{Band, IsBandTable, over};
ghost use Rattle.proxy.specs.declared.bid.Bid.{Bid};
ghost use Rattle.proxy.specs.Opening.{Opening};
ghost use Rattle.proxy.specs.Bids.{floor, greatest, leader, met, one_more, price, refusal, second, standing_of, top};
ghost use Rattle.proxy.specs.Rank.{RanksFirst};
ghost use Rattle.proxy.specs.Accepted.{AreAccepted};
ghost use Rattle.proxy.specs.Rows.{is_standing};
ghost use Rattle.proxy.specs.Surplus.{DifferInTop, with_top};
ghost use Rattle.proxy.specs.WorkedRows.{EqualMaximumKeepsTheEarlierLeader, FirstBidTakesTheStart};
ghost use Rattle.proxy.specs.WorkedRows.{GreatRaisePaysOneStepOver, HigherBidPaysOneStepOver};
ghost use Rattle.proxy.specs.WorkedRows.{LowBidIsRefused, MetReserveIsThePrice};
ghost use Rattle.proxy.specs.WorkedRows.{RaiseOverTheReserve, RaiseToTheReserve};
ghost use Rattle.proxy.specs.WorkedRows.{SameMaximumIsRefused, SmallRaisePaysItsMaximum};
ghost use Rattle.proxy.specs.WorkedRows.{StepBeginsAtItsBand, UnmetReserveLeavesThePrice};
ghost use Rattle.proxy.specs.WorkedRows.{UnmetReserveLeavesTheStart};

/// The leader is the one bidder whom every other ranks below: by a smaller maximum, or by the
/// same one later.
pub fn leader_ranks_first()
    ensures { (bids : List Bid) (l : ℕ) → (leader bids ≡ Some l) ↔ RanksFirst bids l }
{}

/// The price is at least the start, and at most the leader's maximum.
pub fn price_is_between()
    ensures start { (bands : List Band) (opening : Opening) (bids : List Bid) → opening.start ≤ price bands opening bids }
    ensures maximum { (bands : List Band) (opening : Opening) (bids : List Bid) (l : ℕ)
        → AreAccepted bands opening bids → leader bids ≡ Some l → price bands opening bids ≤ greatest bids l }
{}

/// The price never falls under an accepted bid.
pub fn price_never_falls()
    ensures { (bands : List Band) (opening : Opening) (bids : List Bid) (member maximum : ℕ) → IsBandTable bands
        → refusal bands opening bids member maximum ≡ None
        → price bands opening bids ≤ price bands opening (one_more bids member maximum) }
{}

/// A raise keeps leader and second, and keeps the price unless the old top capped it or the raise
/// meets the reserve.
pub fn raise_keeps()
    ensures leader { (bands : List Band) (opening : Opening) (bids : List Bid) (member maximum : ℕ)
        → refusal bands opening bids member maximum ≡ None → leader bids ≡ Some member
        → leader (one_more bids member maximum) ≡ Some member }
    ensures second { (bands : List Band) (opening : Opening) (bids : List Bid) (member maximum : ℕ)
        → refusal bands opening bids member maximum ≡ None → leader bids ≡ Some member
        → second (one_more bids member maximum) ≡ second bids }
    ensures price { (bands : List Band) (opening : Opening) (bids : List Bid) (member maximum : ℕ)
        → refusal bands opening bids member maximum ≡ None → leader bids ≡ Some member
        → IfSome (second bids) (λ s. over bands s ≤ top bids)
        → met opening (one_more bids member maximum) ≡ met opening bids
        → price bands opening (one_more bids member maximum) ≡ price bands opening bids }
{}

/// A reserve that is met stays met, and the price is then at least the reserve. Until then the price
/// is under it.
pub fn reserves_hold()
    ensures stays { (opening : Opening) (bids : List Bid) (member maximum : ℕ)
        → met opening bids ≡ Some true → met opening (one_more bids member maximum) ≡ Some true }
    ensures met { (bands : List Band) (opening : Opening) (bids : List Bid)
        → met opening bids ≡ Some true → IfSome opening.reserve (λ r. r ≤ price bands opening bids) }
    ensures unmet { (bands : List Band) (opening : Opening) (bids : List Bid)
        → AreAccepted bands opening bids → met opening bids ≡ Some false
        → IfSome opening.reserve (λ r. opening.start < r → price bands opening bids < r) }
{}

/// A bidder's accepted maxima strictly rise.
pub fn accepted_bids_rise()
    ensures { (bands : List Band) (opening : Opening) (before middle later : List Bid) (first second : Bid) → IsBandTable bands
        → AreAccepted bands opening (before ++ first ∷ middle ++ second ∷ later)
        → first.member ≡ second.member → first.maximum < second.maximum }
{}

/// Accepted bids leave a standing that `Standing::of_row` takes.
#[tactic(auto, using(crate::proofs::Shapes::accepted_shape))]
pub fn accepted_bids_leave_standings()
    ensures { (bands : List Band) (opening : Opening) (bids : List Bid) → AreAccepted bands opening bids
        → length bids ≤ 10000 → is_standing bands (standing_of bands opening bids) ≡ true }
{}

/// How far the leader's maximum lies above what leading takes shows nowhere else: where the same
/// member leads two lists of bids with the same second and count, by maxima of at least one step over
/// the second, or with no second, and at least the reserve, if there is one, what is kept of them
/// differs in the top alone.
///
/// So price, floor and whether the reserve is met are the same, and whoever doesn't lead is answered
/// the same; and a bid of its own over which one step is at most either top leaves it so.
pub fn surplus_is_invisible()
    ensures kept { (bands : List Band) (opening : Opening) (w : ℕ) (left right : List Bid)
        → DifferInTop bands opening.reserve w left right
        → standing_of bands opening right ≡ with_top (top right) (standing_of bands opening left) }
    ensures floor { (bands : List Band) (opening : Opening) (w : ℕ) (left right : List Bid)
        → DifferInTop bands opening.reserve w left right
        → floor bands opening left ≡ floor bands opening right }
    ensures met { (bands : List Band) (opening : Opening) (w : ℕ) (left right : List Bid)
        → DifferInTop bands opening.reserve w left right
        → met opening left ≡ met opening right }
    ensures answer { (bands : List Band) (opening : Opening) (w : ℕ) (left right : List Bid) (member maximum : ℕ)
        → member ≢ w → DifferInTop bands opening.reserve w left right
        → refusal bands opening left member maximum ≡ refusal bands opening right member maximum }
    ensures more { (bands : List Band) (reserve : Option ℕ) (w : ℕ) (left right : List Bid) (member maximum : ℕ)
        → member ≢ w → over bands maximum ≤ top left → over bands maximum ≤ top right
        → DifferInTop bands reserve w left right
        → DifferInTop bands reserve w (one_more left member maximum) (one_more right member maximum) }
{}

/// The definitions give the values that were worked out by hand; `specs/WorkedRows.antt` has them.
pub fn worked_rows()
    ensures first { FirstBidTakesTheStart }
    ensures low { LowBidIsRefused }
    ensures higher { HigherBidPaysOneStepOver }
    ensures equal { EqualMaximumKeepsTheEarlierLeader }
    ensures small_raise { SmallRaisePaysItsMaximum }
    ensures great_raise { GreatRaisePaysOneStepOver }
    ensures same { SameMaximumIsRefused }
    ensures step { StepBeginsAtItsBand }
    ensures unmet_first { UnmetReserveLeavesTheStart }
    ensures unmet { UnmetReserveLeavesThePrice }
    ensures met { MetReserveIsThePrice }
    ensures raised_to { RaiseToTheReserve }
    ensures raised_over { RaiseOverTheReserve }
{}
