//! The zone that is kept.
ghost use Rattle.std.specs.Prelude.{◌≡◌, ◌↔◌, IfErr, IfOk, IsOk};
ghost use Rattle.settle.specs.Zoned.{IsZoneOf};
ghost use Rattle.site.specs.Replies.{IsBegun, IsReadable};

use house_rows::{Keep, KeepFault, Settings};
use settle::Zone;

/// The zone of settings. Damaged is answered where it can't be read.
pub(crate) fn read_zone(settings: &Settings) -> Result<Zone, KeepFault>
    ensures ok { IsOk result ↔ IsReadable settings.now.zone }
    ensures zone { IfOk result (IsZoneOf settings.now.zone) }
    ensures err { IfErr result (λ fault. fault ≡ KeepFault.Damaged) }
{
    match Zone::read(settings.zone.as_str()) {
        Ok(zone) => Ok(zone),
        Err(_) => Err(KeepFault::Damaged),
    }
}

/// Whether the kept zone can be read, as it has to be before a site begins over the keep: if not,
/// that is the fault `Damaged`.
pub fn check_zone<K: Keep>(keep: &K) -> Result<(), KeepFault>
    ensures { IsBegun result (K.is_honest keep.now) (K.is_failed keep.now) (K.content keep.now) }
{
    read_zone(keep.settings()?)?;
    Ok(())
}
