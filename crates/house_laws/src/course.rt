//! The course of items along a history, in the subject's own words.
ghost use Rattle.std.specs.Prelude.{◌≡◌, ◌≢◌, ◌≤◌, ◌+◌, ◌∷◌, ℕ, length, true, false, Some, None};
ghost use Rattle.settle.specs.Balance.{IsBalanced};
ghost use Rattle.settle.specs.declared.zone.Zone.{Zone};
ghost use Rattle.house_rows.specs.declared.change.Change.{Change};
ghost use Rattle.house_rows.specs.declared.command.Command.{Command};
ghost use Rattle.house_rows.specs.declared.command.Command.TheVariants.{Bid};
ghost use Rattle.house_rows.specs.declared.message.Message.TheVariants.{Write};
ghost use Rattle.house_rows.specs.declared.refusal.Refusal.{Refusal};
ghost use Rattle.house_rows.specs.declared.settings.Settings.{Settings};
ghost use Rattle.house_rows.specs.History.{History};
ghost use Rattle.house_rows.specs.Bids.{bids_on};
ghost use Rattle.house_rows.specs.Items.{items_shown, met_of, state_of};
ghost use Rattle.house_rows.specs.Listings.{Listing, listing_at, listings};
ghost use Rattle.house_rows.specs.Pages.{all_sales};
ghost use Rattle.house_rows.specs.Runs.{entry, next};
ghost use Rattle.house_rows.specs.Verdict.{IsHistory, verdict, was_sold};
ghost use Rattle.house_rows.specs.Asks.{ChangeFits};
ghost use Rattle.house_rows.specs.Changed.{changed};
ghost use Rattle.house_rows.specs.Keeping.{AreSound};
ghost use Rattle.house_rows.specs.Tables.{Tables, tables_of};
ghost use Rattle.house_laws.specs.Course.{may_move};

/// With an accepted command the state of a listed item stays, or moves from open to sold or unsold, or
/// from sold to settled.
#[tactic(auto, using(crate::proofs::States::state_moves))]
pub fn states_only_move_forward()
    ensures { (settings : Settings) (h : History) (moment caller : ℕ) (command : Command) (l : Listing)
        → listing_at (listings h) l.item ≡ Some l → verdict settings h moment caller command ≡ None
        → may_move (state_of h l) (state_of (entry moment caller command ∷ h) l) ≡ true }
{}

/// What was sold has its reserve met, if it has one.
#[tactic(auto, using(crate::proofs::Reserved::sold_is_met))]
pub fn unmet_reserves_are_not_sold()
    ensures { (settings : Settings) (h : History) (l : Listing) → IsHistory settings h
        → listing_at (listings h) l.item ≡ Some l → was_sold (state_of h l) ≡ true
        → met_of h l ≢ Some false }
{}

/// Every accepted bid, a raise among them, adds one to its item's count.
#[tactic(auto, using(crate::proofs::Rising::count_rises))]
pub fn accepted_bids_count()
    ensures { (h : History) (moment caller item maximum : ℕ)
        → length (bids_on (entry moment caller (Bid item maximum) ∷ h) item) ≡ length (bids_on h item) + 1 }
{}

/// A refused command leaves the history.
pub fn refused_commands_change_nothing<F>()
    ensures { (settings : Settings) (h : History) (moment caller : ℕ) (command : Command) (refusal : Refusal)
        → verdict settings h moment caller command ≡ Some refusal → next {F = F} settings h (Write moment caller command) ≡ h }
{}

/// The tables of a history are sound: members, categories and items have the numbers from 1 on, every
/// number is in its range, every text is one that its field takes, and no leader is the seller. The
/// standing of an item is that of accepted bids, and its price and leader are the standing's, unless it
/// was bought at once; then nobody has bid, and its price is the buy-now price.
#[tactic(auto, using(house_rows::proofs::Sound::rows_are_sound))]
pub fn rows_of_a_history_fit()
    ensures { (settings : Settings) (h : History) → IsHistory settings h → AreSound (tables_of settings h) }
{}

/// Sound tables stay sound with every change that fits them. So a keep which makes only such changes
/// has sound tables for good.
#[tactic(auto, using(house_rows::proofs::SoundAfter::sound_after))]
pub fn changes_keep_tables_sound()
    ensures { (t : Tables) (change : Change) → AreSound t → ChangeFits t change → AreSound (changed t change) }
{}

/// The sales of a history balance: over the members that they name, what is bought in a period is what
/// is paid out and what is kept as fees. `rate` is in ten-thousandths.
#[tactic(auto, using(crate::proofs::Balanced::sales_balance))]
pub fn sales_balance()
    ensures { (settings : Settings) (h : History) (from to : ℕ) (zone : Zone) → IsHistory settings h → settings.rate ≤ 2000
        → IsBalanced (all_sales (items_shown settings h)) from to zone settings.rate }
{}
