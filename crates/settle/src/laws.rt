//! What holds of every zone and every day.
ghost use Rattle.std.specs.Prelude.{◌≡◌, ◌≤◌, ◌*◌, ℕ, List, codes, pos};
ghost use Rattle.jiff.specs.Words.{date_text, epoch_day};
ghost use Rattle.jiff.specs.Types.{Date};
ghost use Rattle.settle.specs.Calendar.{day_text};
ghost use Rattle.settle.specs.Zoned.{IsZoneOf, day_at};
ghost use Rattle.settle.specs.declared.zone.Zone.{Zone};
ghost use Rattle.settle.specs.declared.day.TheConstants.{LAST_DAY};
ghost use Rattle.settle.specs.declared.zone.TheConstants.{LAST_MOMENT};

/// Two zones that were read from one text give each moment the same civil day.
pub fn zones_of_one_text_agree()
    ensures { (text : List ℕ) (a b : Zone) (moment : ℕ)
        → IsZoneOf text a → IsZoneOf text b → day_at a moment ≡ day_at b moment }
{}

/// A day is written as `jiff` writes the date with its number.
pub fn days_are_written_as_dates()
    ensures { (date : Date) (d : ℕ) → d ≤ LAST_DAY → epoch_day date ≡ pos d
        → day_text d ≡ date_text date }
{}

/// The last day is the last of 2100, and the last moment the beginning of that year.
pub fn days_and_moments_end()
    ensures day { LAST_DAY ≡ 47846 }
    ensures date { day_text LAST_DAY ≡ codes "2100-12-31" }
    ensures moment { LAST_MOMENT ≡ 86400 * 47482 }
    ensures new_year { day_text 47482 ≡ codes "2100-01-01" }
{}
