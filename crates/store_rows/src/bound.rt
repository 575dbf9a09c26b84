//! Numbers from which a list begins, as parameters.
ghost use Rattle.std.specs.Prelude.{◌≡◌, nat_lt, if◌then◌else◌};

/// The number of 32 bits from which to read a list. No row that fits has a number as great as the
/// last of them, so a list from there on is one from any number after it: it is empty, or damaged.
pub fn bound_of(from: u64) -> u32
    ensures { result ≡ if nat_lt from 4294967295 then from else 4294967295 }
{
    if from < u64::from(u32::MAX) {
        from as u32
    } else {
        u32::MAX
    }
}
