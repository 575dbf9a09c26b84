//! What the price of an item is by, and what bidders can rely on.
ghost use Rattle.std.specs.Prelude.{◌≡◌, ◌≤◌, ◌<◌, ◌++◌, ◌∷◌, ℕ, List, length, max, true, false, None, Some, MatchOption};
ghost use Rattle.steps.specs.Table.{Band, IsBandTable, over};
ghost use Rattle.proxy.specs.Bids.{greatest, second, top, with_reserve};
ghost use Rattle.house_rows.specs.declared.command.Command.TheVariants.{Buy};
ghost use Rattle.house_rows.specs.declared.settings.Settings.{Settings};
ghost use Rattle.house_rows.specs.Bids.{bids_on};
ghost use Rattle.house_rows.specs.History.{Entry, History};
ghost use Rattle.house_rows.specs.Items.{is_bought, leader_of, price_of};
ghost use Rattle.house_rows.specs.Listings.{Listing, bands_by, listing_at, listings};
ghost use Rattle.house_rows.specs.Runs.{entry};
ghost use Rattle.house_rows.specs.Verdict.{IsHistory, verdict};
ghost use Rattle.house_laws.specs.Deals.{deals_on};

/// The price of a listed item never falls, whatever follows: bids, a purchase, a close or a
/// settlement.
#[tactic(auto, using(crate::proofs::Rising::price_later))]
pub fn prices_never_fall()
    ensures { (settings : Settings) (h : History) (later : List Entry) (l : Listing)
        → IsBandTable settings.bands → IsHistory settings (later ++ h)
        → listing_at (listings h) l.item ≡ Some l
        → price_of (bands_by settings l) h l ≤ price_of (bands_by settings l) (later ++ h) l }
{}

/// Of an item that wasn't bought at once, whoever has offered more than the price leads, and the
/// leader has offered at least the price: nobody who would have paid more loses, and nobody pays
/// more than it offered. The price is the start where nobody but the leader has bid, and else at
/// most the start or one step over the best offer of the others. Where the leader's offer meets a
/// reserve above that, the reserve takes its place.
#[tactic(auto, using(crate::proofs::Bidders::above_price_leads, crate::proofs::Bidders::leader_covers, crate::proofs::Bidders::price_one_step))]
pub fn best_offer_leads()
    ensures above { (bands : List Band) (h : History) (l : Listing) (member : ℕ)
        → is_bought h l.item ≡ false → price_of bands h l < greatest (bids_on h l.item) member
        → leader_of h l ≡ Some member }
    ensures covered { (settings : Settings) (h : History) (l : Listing) (member : ℕ)
        → IsHistory settings h → listing_at (listings h) l.item ≡ Some l
        → is_bought h l.item ≡ false → leader_of h l ≡ Some member
        → price_of (bands_by settings l) h l ≤ greatest (bids_on h l.item) member }
    ensures one_step { (bands : List Band) (h : History) (l : Listing)
        → is_bought h l.item ≡ false
        → MatchOption (second (bids_on h l.item))
        (price_of bands h l ≡ with_reserve l.reserve (top (bids_on h l.item)) l.start)
        (λ offer. price_of bands h l
        ≤ with_reserve l.reserve (top (bids_on h l.item)) (max l.start (over bands offer))) }
{}

/// An item that was bought at once costs its buy-now price. Who bought it stays its buyer, whatever
/// follows.
pub fn purchases_cost_the_buy_now_price()
    ensures price { (settings : Settings) (h : History) (l : Listing) → IsHistory settings h
        → listing_at (listings h) l.item ≡ Some l → is_bought h l.item ≡ true
        → l.buy_now ≡ Some (price_of (bands_by settings l) h l) }
    ensures buyer { (settings : Settings) (h : History) (moment caller : ℕ) (later : List Entry)
        (l : Listing) → listing_at (listings h) l.item ≡ Some l
        → verdict settings h moment caller (Buy l.item) ≡ None
        → (is_bought (later ++ entry moment caller (Buy l.item) ∷ h) l.item ≡ true)
        × (leader_of (later ++ entry moment caller (Buy l.item) ∷ h) l ≡ Some caller) }
{}

/// Leader, price and count of bids of an item depend on its bids and its purchase alone, and the
/// price on the band table, the start, the reserve and the buy-now price too: on no moment, and on
/// nothing that is done with other items.
#[tactic(auto, using(crate::proofs::Deals::price_follows, crate::proofs::Deals::leader_follows, crate::proofs::Deals::count_follows))]
pub fn prices_depend_on_deals()
    ensures price { (bands : List Band) (h k : History) (l m : Listing)
        → l.start ≡ m.start → l.reserve ≡ m.reserve → l.buy_now ≡ m.buy_now
        → deals_on h l.item ≡ deals_on k m.item
        → price_of bands h l ≡ price_of bands k m }
    ensures leader { (h k : History) (l m : Listing) → deals_on h l.item ≡ deals_on k m.item
        → leader_of h l ≡ leader_of k m }
    ensures count { (h k : History) (l m : Listing) → deals_on h l.item ≡ deals_on k m.item
        → length (bids_on h l.item) ≡ length (bids_on k m.item) }
{}
