//! A sink in memory, for tests.
ghost use Rattle.std.specs.Prelude.{◌≡◌, ◌≤◌, ◌<◌, ◌-◌, ◌↔◌, ◌⊎◌, ℕ, List, [], Option, Some, None};
ghost use Rattle.std.specs.Prelude.{true, false, length, min, IfOk, OnOk, IsErr};
ghost use Rattle.std.specs.Io.KnownBytes.{Keeps, WriteAppends};
ghost use Rattle.device.specs.Calls.{one_less};
ghost use Rattle.device.specs.Given.{IsBeginning};

use crate::calls::one_less;
use crate::failure::Failure;
use crate::sink::Sink;
use std::alloc::Global;

/// A sink that keeps what it is given. It takes all, unless it is set to take less or to fail; a
/// growth that is refused is a failure too.
#[derive(Drop)]
pub struct MemorySink {
    bytes: Vec<u8>,
    piece: usize,
    // The gifts that go well before one fails, where one does.
    good_calls: Option<u64>,
    failed: bool,
    ghost moves: { 0 < piece },
}

impl MemorySink {
    ghost use Rattle.device.specs.MemorySink.{bytes_taken, good_calls, has_failed, piece_of};

    /// A sink that took nothing yet.
    pub fn new(alloc: Global) -> MemorySink
        ensures bytes { bytes_taken result ≡ [] }
        ensures piece { piece_of result ≡ 18446744073709551615 }
        ensures calls { good_calls result ≡ None }
        ensures failed { has_failed result ≡ false }
    {
        MemorySink {
            bytes: Vec::new(alloc),
            piece: usize::MAX,
            good_calls: None,
            failed: false,
        }
    }

    /// The sink, taking at most so many bytes a call.
    pub fn in_pieces(mut self, piece: usize) -> MemorySink
        requires { 0 < piece }
        ensures piece { piece_of result ≡ piece }
        ensures bytes { bytes_taken result ≡ bytes_taken self }
        ensures calls { good_calls result ≡ good_calls self }
        ensures failed { has_failed result ≡ has_failed self }
    {
        self.piece = piece;
        self
    }

    /// The sink, failing at its `give` of this number, counted from 1 for the next, and from then on.
    pub fn failing_at(mut self, call: u64) -> MemorySink
        requires { 0 < call }
        ensures calls { good_calls result ≡ Some (call - 1) }
        ensures bytes { bytes_taken result ≡ bytes_taken self }
        ensures piece { piece_of result ≡ piece_of self }
        ensures failed { has_failed result ≡ has_failed self }
    {
        self.good_calls = Some(call - 1);
        self
    }

    /// What was taken.
    pub fn bytes(&self) -> &[u8]
        ensures { result.now ≡ bytes_taken self.now }
    {
        self.bytes.as_slice()
    }
}

impl Sink for MemorySink {
    ghost use Rattle.std.proofs.KnownBytes.{Appends-nil};
    ghost use Rattle.device.specs.MemorySink.{bytes_taken, good_calls, has_failed, piece_of};

    ghost taken = { λ s. Some (bytes_taken s) };

    ghost handed_on = { λ s. Some (bytes_taken s) };

    ghost has_failed = { λ s. s.failed };

    fn give(&mut self, bytes: &[u8]) -> Result<usize, Failure>
        ensures bound { IfOk result (λ n. n ≤ length bytes.now) }
        ensures some { IfOk result (λ n. 0 < length bytes.now → 0 < n) }
        ensures bytes { WriteAppends (Some (bytes_taken self.old)) (Some (bytes_taken self.new)) result bytes.now }
        ensures front { IsBeginning (Some (bytes_taken self.old)) (Some (bytes_taken self.new)) }
        ensures failed { IsErr result ↔ (has_failed self.new ≡ true) }
        ensures stays { has_failed self.old ≡ true → has_failed self.new ≡ true }
        ensures fails { good_calls self.old ≡ Some 0 → IsErr result }
        ensures count { IfOk result (λ n. n ≡ min (piece_of self.old) (length bytes.now)) }
        ensures calls { OnOk result (good_calls self.new ≡ one_less (good_calls self.old)) }
        ensures piece { piece_of self.new ≡ piece_of self.old }
    {
        if self.failed || self.good_calls == Some(0) {
            self.failed = true;
            return Err(Failure);
        }
        self.good_calls = one_less(self.good_calls);
        let count = self.piece.min(bytes.len());
        if self.bytes.extend_from_slice(&bytes[..count]).is_err() {
            self.failed = true;
            return Err(Failure);
        }
        Ok(count)
    }

    fn flush(&mut self) -> Result<(), Failure>
        ensures bytes { Keeps (Some (bytes_taken self.old)) (Some (bytes_taken self.new)) }
        ensures front { IsBeginning (Some (bytes_taken self.old)) (Some (bytes_taken self.new)) }
        ensures failed { IsErr result ↔ (has_failed self.new ≡ true) }
        ensures stays { has_failed self.old ≡ true → has_failed self.new ≡ true }
        ensures same { self.new ≡ self.old }
    {
        if self.failed { Err(Failure) } else { Ok(()) }
    }

    ghost ordered = { λ s. ([], Appends-nil (Some (bytes_taken s))) };
}
