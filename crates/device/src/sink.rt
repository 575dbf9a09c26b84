//! Where bytes go.
ghost use Rattle.std.specs.Prelude.{◌≡◌, ◌≤◌, ◌<◌, ◌↔◌, ℕ, List, Option, Bool, true, length, IfOk, OnOk, IsErr};
ghost use Rattle.std.specs.Io.KnownBytes.{Appends, Keeps, WriteAppends};
ghost use Rattle.device.specs.Given.{AppendsBeginning, IsBeginning};

use crate::failure::Failure;

/// A sink of bytes.
pub trait Sink {
    /// The bytes that were taken, where they are known. What a sink holds back to hand on later
    /// counts as taken.
    ghost taken: { Self → Option (List ℕ) };

    /// The bytes that were handed on, where they are known: all that were taken but those that are
    /// held back.
    ghost handed_on: { Self → Option (List ℕ) };

    /// Whether the sink failed, in the last call or before.
    ghost has_failed: { Self → Bool };

    /// Gives the sink bytes, and says how many of the first it took: at least one, where the slice
    /// is not empty. A failure takes none.
    fn give(&mut self, bytes: &[u8]) -> Result<usize, Failure>
        ensures bound { IfOk result (λ n. n ≤ length bytes.now) }
        ensures some { IfOk result (λ n. 0 < length bytes.now → 0 < n) }
        ensures bytes { WriteAppends (taken self.old) (taken self.new) result bytes.now }
        ensures front { IsBeginning (handed_on self.old) (handed_on self.new) }
        ensures failed { IsErr result ↔ (has_failed self.new ≡ true) }
        ensures stays { has_failed self.old ≡ true → has_failed self.new ≡ true };

    /// Hands on what a gathering sink holds, and does nothing elsewhere.
    fn flush(&mut self) -> Result<(), Failure>
        ensures all { OnOk result (handed_on self.new ≡ taken self.new) }
        ensures bytes { Keeps (taken self.old) (taken self.new) }
        ensures front { IsBeginning (handed_on self.old) (handed_on self.new) }
        ensures failed { IsErr result ↔ (has_failed self.new ≡ true) }
        ensures stays { has_failed self.old ≡ true → has_failed self.new ≡ true };

    /// What was handed on is a beginning of what was taken.
    ghost ordered: { (s : Self) → IsBeginning (handed_on s) (taken s) };
}

/// Gives the sink all the bytes, unless it fails; it has then taken a beginning of them. A sink
/// that was failed takes none, and an empty slice is given once too.
pub fn give_all<W: Sink>(sink: &mut W, bytes: &[u8]) -> Result<(), Failure>
    ensures whole { OnOk result (Appends (W.taken sink.old) (W.taken sink.new) bytes.now) }
    ensures part { AppendsBeginning (W.taken sink.old) (W.taken sink.new) bytes.now }
    ensures none { W.has_failed sink.old ≡ true → Keeps (W.taken sink.old) (W.taken sink.new) }
    ensures failed { IsErr result ↔ (W.has_failed sink.new ≡ true) }
    ensures stays { W.has_failed sink.old ≡ true → W.has_failed sink.new ≡ true }
{
    let mut at = 0;
    loop {
        at += sink.give(&bytes[at..])?;
        if at >= bytes.len() {
            return Ok(());
        }
    }
}
