//! Whether two keeps were set up alike.
ghost use Rattle.std.specs.Prelude.{◌≡◌, ◌↔◌, true, IfOk};
ghost use Rattle.steps.specs.Table.{IsBandTable};
ghost use Rattle.house_rows.specs.Taken.{IsUndamaged};
ghost use Rattle.house_views.specs.Views.{PairFaults};

use crate::same::{Same, are_same};
use house_rows::{Keep, KeepFault, Settings};

fn are_same_settings(left: &Settings, right: &Settings) -> bool
    ensures same { (result ≡ true) ↔ (left.now ≡ right.now) }
    ensures valid { IsBandTable left.now.bands }
{
    are_same(left.bands.rows(), right.bands.rows())
        && left.rate.value() == right.rate.value()
        && left.zone.is_same(&right.zone)
}

/// Whether two keeps were set up with the same bands, the same rate and the same rule of a zone.
pub fn have_same_settings<K: Keep>(left: &K, right: &K) -> Result<bool, KeepFault>
    ensures report { K.is_honest left.now → K.is_honest right.now → IfOk result (λ same.
        (same ≡ true) ↔ ((K.content left.now).settings ≡ (K.content right.now).settings)) }
    // A keep that answers was set up with a valid table.
    ensures valid { K.is_honest left.now
        → IfOk result (λ _. IsBandTable (K.content left.now).settings.bands) }
    ensures faults { PairFaults result (K.is_honest left.now × K.is_honest right.now)
        (K.is_failed left.now) (K.is_failed right.now) (K.content left.now) (K.content right.now) }
    ensures damaged { K.is_honest left.now → K.is_honest right.now → IsUndamaged result }
{
    let settings = left.settings()?;
    let others = right.settings()?;
    Ok(are_same_settings(settings, others))
}
