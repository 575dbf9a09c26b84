//! What members are shown where two histories look alike to them.
ghost use Rattle.std.specs.Prelude.{◌≡◌, ℕ};
ghost use Rattle.settle.specs.declared.zone.Zone.{Zone};
ghost use Rattle.house_laws.specs.Alike.{AreAlike};
ghost use Rattle.house_rows.specs.declared.query.Query.{Query};
ghost use Rattle.house_rows.specs.declared.settings.Settings.{Settings};
ghost use Rattle.house_rows.specs.History.{History};
ghost use Rattle.pages.specs.Showing.{shown_text};

/// Each page has the same text over two histories that look alike to the caller.
#[tactic(auto, using(crate::proofs::Alike::text_same))]
pub fn alike_histories_show_the_same_text()
    ensures { (settings : Settings) (zone : Zone) (c : ℕ) (h k : History) (query : Query)
        → AreAlike settings c h k
        → shown_text settings zone h c query ≡ shown_text settings zone k c query }
{}
