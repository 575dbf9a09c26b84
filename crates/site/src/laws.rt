//! Isolation, and that a surplus is invisible, over what is asked. No code runs here.
ghost use Rattle.std.specs.Prelude.{◌≡◌, List, ℕ};
ghost use Rattle.std.specs.List.{AllZip};
ghost use Rattle.steps.specs.Table.{IsBandTable};
ghost use Rattle.house_laws.specs.Covered.{Sealed, raised};
ghost use Rattle.house_rows.specs.declared.settings.Settings.{Settings};
ghost use Rattle.settle.specs.declared.zone.Zone.{Zone};
ghost use Rattle.site.specs.Runs.{IsCoveredRun, Raises, TwinRuns, replies_to};
ghost use Rattle.site_request.specs.Asked.{IsAsked};
ghost use Rattle.site_request.specs.declared.asked.Asked.{Asked};

/// For every number, the house's 0 among them: where two runs of messages are twins for it, all
/// replies to it are the same, byte for byte.
pub fn isolation()
    ensures { (settings : Settings) (zone : Zone) (c : ℕ) (left right : List Asked)
        → TwinRuns settings c left right
        → replies_to settings zone c left ≡ replies_to settings zone c right }
{}

/// Where the last leader's last bid covers what leading takes, a greater maximum in its place makes a
/// twin run for everybody else, and all replies to another are the same, byte for byte; however the
/// text that raises the bid is spelt. `texts` says what the raised list of texts asks.
pub fn surplus_is_invisible()
    ensures twins { (settings : Settings) (c place y : ℕ) (b : Sealed) (run : List Asked) (other : Asked)
        → IsBandTable settings.bands → IsCoveredRun settings c place y b run → Raises y b other
        → TwinRuns settings c run (raised place other run) }
    ensures replies { (settings : Settings) (zone : Zone) (c place y : ℕ) (b : Sealed) (run : List Asked)
        (other : Asked) → IsBandTable settings.bands → IsCoveredRun settings c place y b run
        → Raises y b other
        → replies_to settings zone c run ≡ replies_to settings zone c (raised place other run) }
    ensures texts { (texts : List (List ℕ)) (run : List Asked) (place : ℕ) (text : List ℕ)
        (other : Asked) → AllZip IsAsked texts run → IsAsked text other
        → AllZip IsAsked (raised place text texts) (raised place other run) }
{}
