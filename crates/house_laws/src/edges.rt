//! Rules at their edges.
ghost use Rattle.std.specs.Prelude.{◌≡◌, ◌<◌, ◌==◌, ℕ, Bool, length, true, false, Some, None};
ghost use Rattle.std.specs.List.{list_any};
ghost use Rattle.house_rows.specs.declared.command.Command.TheVariants.{Watch};
ghost use Rattle.house_rows.specs.declared.refusal.Refusal.TheVariants.{Limit};
ghost use Rattle.house_rows.specs.declared.settings.Settings.{Settings};
ghost use Rattle.house_rows.specs.History.{History};
ghost use Rattle.house_rows.specs.Listings.{Listing, listing_at, listings};
ghost use Rattle.house_rows.specs.Verdict.{IsHistory, verdict};
ghost use Rattle.house_rows.specs.Views.{own_watches};
ghost use Rattle.house_laws.specs.EdgeRows.{CloseLeavesWhatWasBought, ListingRulesComeInOrder};
ghost use Rattle.house_laws.specs.EdgeRows.{ListingsAreRefused, PartiesOfAPurchaseRateEachOther};
ghost use Rattle.house_laws.specs.EdgeRows.{RaiseLiftsACappedPrice, StepBeginsAtItsBand};
ghost use Rattle.house_laws.specs.Watching.{MayCommand, is_watched};

/// The definitions give the values that were worked out by hand at the edges of the rules;
/// `specs/EdgeRows.antt` has them.
pub fn edges_of_rules()
    ensures step_begins_at_its_band { StepBeginsAtItsBand }
    ensures raise_lifts_a_capped_price { RaiseLiftsACappedPrice }
    ensures listing_rules_come_in_order { ListingRulesComeInOrder }
    ensures listings_are_refused { ListingsAreRefused }
    ensures close_leaves_what_was_bought { CloseLeavesWhatWasBought }
    ensures parties_of_a_purchase_rate_each_other { PartiesOfAPurchaseRateEachOther }
{}

/// A member that watches 200 items can watch no other, and with fewer any; one that is watched is
/// accepted again, also among 200.
#[tactic(auto, using(crate::proofs::Watching::watched_full, crate::proofs::Watching::watched_room, crate::proofs::Watching::watched_again))]
pub fn members_watch_200()
    ensures full { (settings : Settings) (h : History) (moment caller item : ℕ) (l : Listing)
        → MayCommand h moment caller → listing_at (listings h) item ≡ Some l
        → length (own_watches h caller) ≡ 200 → is_watched h caller item ≡ false
        → verdict settings h moment caller (Watch item) ≡ Some Limit }
    ensures room { (settings : Settings) (h : History) (moment caller item : ℕ) (l : Listing)
        → MayCommand h moment caller → listing_at (listings h) item ≡ Some l
        → length (own_watches h caller) < 200
        → verdict settings h moment caller (Watch item) ≡ None }
    ensures again { (settings : Settings) (h : History) (moment caller item : ℕ) (l : Listing)
        → IsHistory settings h → MayCommand h moment caller
        → listing_at (listings h) item ≡ Some l → is_watched h caller item ≡ true
        → verdict settings h moment caller (Watch item) ≡ None }
{}
