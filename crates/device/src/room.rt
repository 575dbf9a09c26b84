//! The bytes that a gathering sink holds, in an array of its own.
ghost use Rattle.std.specs.Prelude.{◌≡◌, ◌+◌, ◌≤◌, ◌↔◌, ℕ, List, [], ◌++◌, length, take, drop, min, OnOk, IsTrue};
ghost use Rattle.std.specs.Io.KnownBytes.{Keeps, append_known};
ghost use Rattle.device.specs.Given.{IsBeginning};

use crate::failure::Failure;
use std::io::Write;

/// How many bytes are gathered before they are handed on.
pub(crate) const SIZE: usize = 8192;

/// The bytes from `start` to `end` are held; the room is what lies after them.
#[derive(Drop)]
pub(crate) struct Room {
    bytes: [u8; SIZE],
    start: usize,
    end: usize,
    ghost ordered: { start ≤ end },
    ghost within: { end ≤ 8192 },
}

impl Room {
    ghost use Rattle.device.specs.Room.{items, room};

    pub(crate) fn new() -> Room
        ensures items { items result ≡ [] }
        ensures room { room result ≡ 8192 }
    {
        Room {
            bytes: [0; SIZE],
            start: 0,
            end: 0,
        }
    }

    fn as_slice(&self) -> &[u8]
        ensures { result.now ≡ items self.now }
    {
        &self.bytes[self.start..self.end]
    }

    pub(crate) fn is_full(&self) -> bool
        ensures { IsTrue result ↔ (room self.now ≡ 0) }
    {
        self.end == SIZE
    }

    pub(crate) fn is_empty(&self) -> bool
        ensures { IsTrue result ↔ (items self.now ≡ []) }
    {
        self.start == self.end
    }

    // Copies what fits, and gives how many bytes that were.
    pub(crate) fn copy(&mut self, bytes: &[u8]) -> usize
        ensures count { result ≡ min (length bytes.now) (room self.old) }
        ensures items { items self.new ≡ items self.old ++ take result bytes.now }
        ensures room { room self.new + result ≡ room self.old }
    {
        let count = bytes.len().min(SIZE - self.end);
        let end = self.end + count;
        self.bytes[self.end..end].copy_from_slice(&bytes[..count]);
        self.end = end;
        count
    }

    fn consume(&mut self, count: usize)
        requires { count ≤ length (items self.old) }
        ensures { items self.new ≡ drop count (items self.old) }
    {
        self.start += count;
    }

    // Writes all that is held. What a failure leaves unwritten stays.
    pub(crate) fn write_to<W: Write>(&mut self, writer: &mut W) -> Result<(), Failure>
        ensures items { OnOk result (items self.new ≡ []) }
        ensures room { OnOk result (room self.new ≡ 8192) }
        ensures bytes { Keeps (append_known (W.contents writer.old) (items self.old))
            (append_known (W.contents writer.new) (items self.new)) }
        ensures front { IsBeginning (W.contents writer.old) (W.contents writer.new) }
    {
        while !self.is_empty() {
            match writer.write(self.as_slice()) {
                Ok(count) if count > 0 => self.consume(count),
                _ => return Err(Failure),
            }
        }
        self.start = 0;
        self.end = 0;
        Ok(())
    }
}
