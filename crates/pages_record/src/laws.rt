//! What the public record says of the public view.
ghost use Rattle.std.specs.Prelude.{◌≡◌};
ghost use Rattle.house_rows.specs.declared.settings.Settings.{Settings};
ghost use Rattle.house_rows.specs.History.{History};
ghost use Rattle.house_rows.specs.Views.{public_view};
ghost use Rattle.pages_record.specs.Record.{HaveSameLists, record_text};

/// Histories with the same public view have the same record.
#[tactic(auto, using(crate::proofs::Same::text_same))]
pub fn the_record_is_of_the_public_view()
    ensures { (settings : Settings) (h k : History)
        → public_view settings h ≡ public_view settings k
        → record_text settings h ≡ record_text settings k }
{}

/// Histories with the same lists, of which the record is made, have the same public view.
#[tactic(auto, using(crate::proofs::Same::view_same))]
pub fn the_lists_tell_the_public_view()
    ensures { (settings : Settings) (h k : History) → HaveSameLists settings h k
        → public_view settings h ≡ public_view settings k }
{}
