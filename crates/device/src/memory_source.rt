//! A source over bytes in memory, for tests.
ghost use Rattle.std.specs.Prelude.{◌≡◌, ◌≤◌, ◌<◌, ◌-◌, ◌↔◌, ◌⊎◌, ℕ, List, Option, Some, None};
ghost use Rattle.std.specs.Prelude.{true, false, length, min, IfOk, OnOk, IsErr};
ghost use Rattle.std.specs.Io.KnownBytes.{ReadConsumes};
ghost use Rattle.device.specs.Calls.{one_less};

use crate::calls::one_less;
use crate::failure::Failure;
use crate::source::Source;

/// A source over a slice. It gives all that fits, unless it is set to give less or to fail.
#[derive(Clone, Copy)]
pub struct MemorySource<'b> {
    bytes: &'b [u8],
    piece: usize,
    // The calls that go well before one fails, where one does.
    good_calls: Option<u64>,
    failed: bool,
    ghost moves: { 0 < piece },
}

impl<'b> MemorySource<'b> {
    ghost use Rattle.device.specs.MemorySource.{bytes_left, good_calls, has_failed, piece_of};

    /// A source of these bytes.
    pub fn new(bytes: &'b [u8]) -> MemorySource<'b>
        ensures bytes { bytes_left result ≡ bytes.entry.now }
        ensures piece { piece_of result ≡ 18446744073709551615 }
        ensures calls { good_calls result ≡ None }
        ensures failed { has_failed result ≡ false }
    {
        MemorySource {
            bytes,
            piece: usize::MAX,
            good_calls: None,
            failed: false,
        }
    }

    /// The source, giving at most so many bytes a call.
    pub fn in_pieces(mut self, piece: usize) -> MemorySource<'b>
        requires { 0 < piece }
        ensures piece { piece_of result ≡ piece }
        ensures bytes { bytes_left result ≡ bytes_left self.entry }
        ensures calls { good_calls result ≡ good_calls self.entry }
        ensures failed { has_failed result ≡ has_failed self.entry }
    {
        self.piece = piece;
        self
    }

    /// The source, failing at its call of this number, counted from 1 for the next, and from then on.
    pub fn failing_at(mut self, call: u64) -> MemorySource<'b>
        requires { 0 < call }
        ensures calls { good_calls result ≡ Some (call - 1) }
        ensures bytes { bytes_left result ≡ bytes_left self.entry }
        ensures piece { piece_of result ≡ piece_of self.entry }
        ensures failed { has_failed result ≡ has_failed self.entry }
    {
        self.good_calls = Some(call - 1);
        self
    }
}

impl Source for MemorySource<'_> {
    ghost use Rattle.device.specs.MemorySource.{bytes_left, good_calls, has_failed, piece_of};

    ghost left = { λ s. Some (bytes_left s) };

    ghost has_failed = { λ s. s.failed };

    fn take(&mut self, into: &mut [u8]) -> Result<usize, Failure>
        ensures bound { IfOk result (λ n. n ≤ length into.new) }
        ensures bytes { ReadConsumes (Some (bytes_left self.old)) (Some (bytes_left self.new)) result into.new }
        ensures failed { IsErr result ↔ (has_failed self.new ≡ true) }
        ensures stays { has_failed self.old ≡ true → has_failed self.new ≡ true }
        ensures fails { IsErr result ↔ ((has_failed self.old ≡ true) ⊎ (good_calls self.old ≡ Some 0)) }
        ensures count { IfOk result (λ n. n ≡ min (piece_of self.old) (min (length (bytes_left self.old)) (length into.new))) }
        ensures calls { OnOk result (good_calls self.new ≡ one_less (good_calls self.old)) }
        ensures piece { piece_of self.new ≡ piece_of self.old }
    {
        if self.failed || self.good_calls == Some(0) {
            self.failed = true;
            return Err(Failure);
        }
        self.good_calls = one_less(self.good_calls);
        let count = self.piece.min(self.bytes.len()).min(into.len());
        let (front, rest) = self.bytes.split_at(count);
        into[..count].copy_from_slice(front);
        self.bytes = rest;
        Ok(count)
    }
}
