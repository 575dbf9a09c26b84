//! The bytes of a stream that are held, in a buffer that is made once.
ghost use Rattle.std.specs.Prelude.{◌≡◌, ◌≤◌, ◌++◌, [], IfOk, take, drop, length, ◌+◌};
ghost use Rattle.std.specs.Borrow.{sem};
ghost use Rattle.wire.specs.Lent.{LendsRoom};
ghost use Rattle.wire.specs.Look.{IsLook};

use crate::look::{Look, look_at};
use std::alloc::{AllocError, Global};
use std::marker::Model;

/// How many bytes an inbox holds: a head of 8192 and a body of 16384.
pub const ROOM: usize = 24576;

/// The bytes of a stream that are held, in a buffer that is made once. Clauses see the bytes that
/// are held, and those of the free room after them.
#[derive(Drop)]
pub struct Inbox {
    buffer: Vec<u8>,
    start: usize,
    end: usize,
}

impl Model for Inbox {
    ghost use Rattle.std.specs.Prelude.{◌≡◌, ◌≤◌, ◌-◌, take, drop, length, ◌+◌};
    ghost use Rattle.wire.specs.Held.{Held};

    ghost Value = { Held };

    ghost view = { λ i. record { held = take (i.end - i.start) (drop i.start i.buffer.items); room = drop i.end i.buffer.items } };

    ghost invariant = { λ i. (i.start ≤ i.end) × (i.end ≤ 24576) × (length i.buffer.items ≡ 24576) };
}

impl Inbox {
    /// An inbox that holds nothing. This call alone takes memory.
    pub fn new(alloc: Global) -> Result<Inbox, AllocError>
        ensures { IfOk result (λ inbox. (inbox.held ≡ []) × (length inbox.room ≡ 24576)) }
    {
        let buffer = vec![in alloc; 0u8; ROOM]?;
        Ok(Inbox {
            buffer,
            start: 0,
            end: 0,
        })
    }

    // Moves what is held to the beginning of the buffer.
    fn pack(&mut self)
        ensures held { self.new.held ≡ self.old.held }
        ensures room { length self.new.room + length self.old.held ≡ 24576 }
    {
        self.buffer.copy_within(self.start..self.end, 0);
        self.end -= self.start;
        self.start = 0;
    }

    /// The free room, for more bytes of the stream. It is empty only where 24576 bytes are held.
    pub fn space(&mut self) -> &mut [u8]
        ensures* lends { sem 𝓛 (LendsRoom self.entry result) }
        ensures empty { length result.now ≡ 0 → length self.old.held ≡ 24576 }
    {
        if self.end == ROOM {
            self.pack();
        }
        let end = self.end;
        self.buffer.slice_mut(end..)
    }

    /// Says that the first so many bytes of the room are the next ones of the stream.
    pub fn took(&mut self, count: usize)
        requires { count ≤ length self.old.room }
        ensures held { self.new.held ≡ self.old.held ++ take count self.old.room }
        ensures room { self.new.room ≡ drop count self.old.room }
    {
        self.end += count;
    }

    /// Looks at the bytes held. `ended` says that no more will come.
    pub fn look(&self, ended: bool) -> Look<'_>
        ensures { IsLook self.now.held ended result }
    {
        look_at(&self.buffer[self.start..self.end], ended)
    }

    /// Drops that many bytes from the front, as the length of a message.
    pub fn done(&mut self, count: usize)
        requires { count ≤ length self.old.held }
        ensures held { self.new.held ≡ drop count self.old.held }
        ensures room { self.new.room ≡ self.old.room }
    {
        self.start += count;
    }
}
