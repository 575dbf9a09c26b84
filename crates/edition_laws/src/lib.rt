//! A law on the editions of the band table. No code runs here.
#![tactic(auto)]

ghost use Rattle.std.specs.Prelude.{◌≡◌, ◌≤◌, ◌+◌, ◌∷◌, ℕ, List, length};
ghost use Rattle.steps.specs.Table.{Band};
ghost use Rattle.house_rows.specs.declared.command.Command.TheVariants.{SetBands};
ghost use Rattle.house_rows.specs.declared.query.Query.TheVariants.{BandsOf};
ghost use Rattle.house_rows.specs.declared.settings.Settings.{Settings};
ghost use Rattle.house_rows.specs.History.{History};
ghost use Rattle.house_rows.specs.Listings.{tables_set};
ghost use Rattle.house_rows.specs.Pages.{page_of};
ghost use Rattle.house_rows.specs.Runs.{entry};

/// A band table that is set changes no page of an edition that was there before.
pub fn older_tables_stay()
    ensures { (settings : Settings) (h : History) (moment caller : ℕ) (bands : List Band)
        (reader edition : ℕ) → edition ≤ length (tables_set h) + 1
        → page_of settings (entry moment caller (SetBands bands) ∷ h) reader (BandsOf edition)
        ≡ page_of settings h reader (BandsOf edition) }
{}
