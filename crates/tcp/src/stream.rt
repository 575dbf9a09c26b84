//! A connection's stream, which a stop of the process doesn't break.
ghost use Rattle.std.specs.Prelude.{◌≡◌, true, IsErr};

use std::io::{self, ErrorKind, Read, Write};

// A call that is interrupted so often has failed.
const TRIES: u32 = 64;

/// A stream that makes a call again which was interrupted. Where a stream gives up after a time,
/// Linux interrupts the call that waits as the process goes on after SIGSTOP (signal(7)), and a
/// request that came meanwhile would be lost.
#[derive(Drop)]
pub struct Steady<S> {
    stream: S,
}

impl<S> Steady<S> {
    /// The stream, read and written so.
    pub(crate) fn new(stream: S) -> Steady<S>
        ensures { result.stream ≡ stream }
    {
        Steady { stream }
    }
}

fn is_interrupted(outcome: &io::Result<usize>) -> bool
    ensures { result ≡ true → IsErr outcome.now }
{
    matches!(outcome, Err(error) if error.kind() == ErrorKind::Interrupted)
}

// No byte is lost or taken twice by a call that is made again.
impl<S: Read> Read for Steady<S> {
    ghost remaining = { λ steady. S.remaining steady.stream };

    fn read(&mut self, buf: &mut [u8]) -> io::Result<usize> {
        for _ in 1..TRIES {
            let outcome = self.stream.read(buf);
            if !is_interrupted(&outcome) {
                return outcome;
            }
        }
        self.stream.read(buf)
    }
}

impl<S: Write> Write for Steady<S> {
    ghost contents = { λ steady. S.contents steady.stream };

    fn write(&mut self, buf: &[u8]) -> io::Result<usize> {
        for _ in 1..TRIES {
            let outcome = self.stream.write(buf);
            if !is_interrupted(&outcome) {
                return outcome;
            }
        }
        self.stream.write(buf)
    }

    fn flush(&mut self) -> io::Result<()> {
        self.stream.flush()
    }
}
