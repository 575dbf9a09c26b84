//! A writer of std as a gathering sink.
ghost use Rattle.std.specs.Prelude.{◌≡◌, ◌+◌, ◌≤◌, ◌<◌, ℕ, List, [], Option, Ok, true, false, length, OnOk, IfOk, IsErr, ◌↔◌};
ghost use Rattle.std.specs.Io.KnownBytes.{Keeps, WriteAppends, append_known};
ghost use Rattle.device.specs.Given.{IsBeginning};

use crate::failure::Failure;
use crate::room::{Room, SIZE};
use crate::sink::Sink;
use std::io::Write;

/// A writer of std as a sink, which gathers up to 8192 bytes and then hands them on. Any error of
/// the writer is a failure, and so is a write that takes nothing of a slice that is not empty.
///
/// What is held when it goes out of scope was never written: `flush` first.
#[derive(Drop)]
pub struct Writing<W: Write> {
    writer: W,
    held: Room,
    failed: bool,
}

impl<W: Write> Writing<W> {
    ghost use Rattle.device.specs.Writing.{handed_on_of, held_of, room_of, taken_of, writer_of, writing_has_failed};

    /// The writer as a sink that holds nothing and has not failed.
    pub fn new(writer: W) -> Writing<W>
        ensures writer { writer_of result ≡ writer }
        ensures held { held_of result ≡ [] }
        ensures room { room_of result ≡ 8192 }
        ensures failed { writing_has_failed result ≡ false }
    {
        Writing {
            writer,
            held: Room::new(),
            failed: false,
        }
    }

    // Writes all that is held.
    fn hand_on(&mut self) -> Result<(), Failure>
        requires { writing_has_failed self.old ≡ false }
        ensures held { OnOk result (held_of self.new ≡ []) }
        ensures room { OnOk result (room_of self.new ≡ 8192) }
        ensures bytes { Keeps (taken_of W.contents self.old) (taken_of W.contents self.new) }
        ensures front { IsBeginning (handed_on_of W.contents self.old)
            (handed_on_of W.contents self.new) }
        ensures failed { IsErr result ↔ (writing_has_failed self.new ≡ true) }
    {
        let outcome = self.held.write_to(&mut self.writer);
        self.failed = outcome.is_err();
        outcome
    }

    // Writes bytes past the room, which holds nothing.
    fn pass_on(&mut self, bytes: &[u8]) -> Result<usize, Failure>
        requires going { writing_has_failed self.old ≡ false }
        requires empty { held_of self.old ≡ [] }
        requires some { 0 < length bytes.now }
        ensures bound { IfOk result (λ n. n ≤ length bytes.now) }
        ensures some { IfOk result (λ n. 0 < n) }
        ensures bytes { WriteAppends (taken_of W.contents self.old) (taken_of W.contents self.new) result bytes.now }
        ensures front { IsBeginning (handed_on_of W.contents self.old)
            (handed_on_of W.contents self.new) }
        ensures failed { IsErr result ↔ (writing_has_failed self.new ≡ true) }
    {
        match self.writer.write(bytes) {
            Ok(count) if count > 0 => Ok(count),
            _ => {
                self.failed = true;
                Err(Failure)
            }
        }
    }
}

impl<W: Write> Sink for Writing<W> {
    ghost use Rattle.device.specs.Writing.{Gathers, handed_on_of, held_of, room_of, taken_of, taken_of-held, writing_has_failed};

    ghost taken = { taken_of W.contents };

    ghost handed_on = { handed_on_of W.contents };

    ghost has_failed = { λ s. s.failed };

    fn give(&mut self, bytes: &[u8]) -> Result<usize, Failure>
        ensures bound { IfOk result (λ n. n ≤ length bytes.now) }
        ensures some { IfOk result (λ n. 0 < length bytes.now → 0 < n) }
        ensures bytes { WriteAppends (taken_of W.contents self.old) (taken_of W.contents self.new) result bytes.now }
        ensures front { IsBeginning (handed_on_of W.contents self.old)
            (handed_on_of W.contents self.new) }
        ensures failed { IsErr result ↔ (writing_has_failed self.new ≡ true) }
        ensures stays { writing_has_failed self.old ≡ true → writing_has_failed self.new ≡ true }

        // What fits is held, and the writer sees nothing of it yet.
        ensures fits { writing_has_failed self.old ≡ false → length bytes.now ≤ room_of self.old →
            Gathers self.old self.new result bytes.now }
    {
        if self.failed {
            return Err(Failure);
        }
        if self.held.is_full() && !bytes.is_empty() {
            self.hand_on()?;
        }
        if self.held.is_empty() && bytes.len() > SIZE {
            return self.pass_on(bytes);
        }
        Ok(self.held.copy(bytes))
    }

    fn flush(&mut self) -> Result<(), Failure>
        ensures all { OnOk result
            (handed_on_of W.contents self.new ≡ taken_of W.contents self.new) }
        ensures bytes { Keeps (taken_of W.contents self.old) (taken_of W.contents self.new) }
        ensures front { IsBeginning (handed_on_of W.contents self.old)
            (handed_on_of W.contents self.new) }
        ensures failed { IsErr result ↔ (writing_has_failed self.new ≡ true) }
        ensures stays { writing_has_failed self.old ≡ true → writing_has_failed self.new ≡ true }
        ensures held { OnOk result (held_of self.new ≡ []) }
        ensures room { OnOk result (room_of self.new ≡ 8192) }
    {
        if self.failed {
            return Err(Failure);
        }
        self.hand_on()?;
        self.failed = self.writer.flush().is_err();
        if self.failed { Err(Failure) } else { Ok(()) }
    }

    ghost ordered = { λ s. (held_of s, taken_of-held W.contents s) };
}
