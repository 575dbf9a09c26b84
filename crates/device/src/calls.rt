//! The calls that a device in memory takes before it fails.
ghost use Rattle.std.specs.Prelude.{◌≡◌, Option};
ghost use Rattle.device.specs.Calls.{one_less};

// One call less, where they are counted.
pub(crate) fn one_less(calls: Option<u64>) -> Option<u64>
    ensures { result ≡ one_less calls }
{
    calls.map(|count| count.saturating_sub(1))
}
