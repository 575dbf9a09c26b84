//! A time zone, and the civil day of a moment in it.
ghost use Rattle.std.specs.Prelude.{◌≡◌, ◌≤◌, ◌↔◌, pos, IsOk, IfOk, IfErr, IsSome, IsNone, IfSome, ℕ, ◌≢◌, IsTrue};
ghost use Rattle.jiff.specs.Words.{epoch_day, read_whole};
ghost use Rattle.settle.specs.Zoned.{IsPlainText, IsZoneOf, day_at};

use crate::day::{Day, LAST_DAY};
use crate::fault::SettleFault;
use jiff::Timestamp;
use jiff::civil::Date;
use jiff::tz::TimeZone;

/// The last moment that there is, 2100-01-01T00:00:00Z, in whole seconds since 1970-01-01T00:00:00Z.
pub const LAST_MOMENT: u64 = 4_102_444_800;

/// A time zone that is given by a POSIX rule, as `CET-1CEST,M3.5.0,M10.5.0/3` (IEEE Std 1003.1, 8.3).
#[derive(Clone, Copy)]
pub struct Zone {
    rule: TimeZone<'static>,
}

impl Zone {
    /// The zone of a POSIX rule, which has no control characters. Takes no memory.
    pub fn read(text: &str) -> Result<Zone, SettleFault>
        ensures ok { IsOk result ↔ (IsPlainText text.now × IsSome (read_whole text.now)) }
        ensures zone { IfOk result (IsZoneOf text.now) }
        ensures err { IfErr result (λ e. e ≡ SettleFault.Zone) }
    {
        if !is_plain(text.as_bytes()) {
            return Err(SettleFault::Zone);
        }
        match TimeZone::posix(text) {
            Ok(rule) => Ok(Zone { rule }),
            Err(_) => Err(SettleFault::Zone),
        }
    }

    // The civil date of a moment.
    fn date(&self, moment: u64) -> Date
        requires { moment ≤ LAST_MOMENT }
        ensures { epoch_day result ≡ day_at self.now moment }
    {
        match Timestamp::from_second(moment as i64) {
            Ok(instant) => self.rule.to_datetime(instant).date(),
            Err(_) => unreachable!(),
        }
    }

    /// The civil day of a moment, if it is one of 1970 to 2100.
    pub fn day(&self, moment: u64) -> Option<Day>
        requires { moment ≤ LAST_MOMENT }
        ensures some { IfSome result (λ d. day_at self.now moment ≡ pos d) }
        ensures none { IsNone result → (d : ℕ) → d ≤ LAST_DAY → day_at self.now moment ≢ pos d }
    {
        Day::from_date(self.date(moment))
    }
}

fn is_plain(text: &[u8]) -> bool
    ensures { IsTrue result ↔ IsPlainText text.now }
{
    text.iter().all(|byte| *byte >= 0x20 && *byte != 0x7f)
}
