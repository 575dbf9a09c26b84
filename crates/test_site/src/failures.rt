//! Streams whose source or sink fails, at each of its calls in turn.
ghost use Rattle.std.specs.Prelude.{◌<◌};

use crate::fault::SiteFault;
use crate::server::{Left, Prefix, serve_over};
use crate::stream_script::Stage;
use device::{MemorySink, MemorySource, Writing};
use site_serve::ServeFault;
use std::alloc::Global;
use std::io;
use std::io::{ErrorKind, Write};

// More calls than any stream of a script takes.
const MOST_CALLS: u64 = 1_000;

/// Which calls fail, each in its turn.
#[derive(Clone, Copy)]
pub(crate) enum Calls {
    /// Those that take from the source.
    Takes,
    /// Those that give to the sink.
    Gives,
    /// Those that hand on what the sink holds.
    Flushes,
}

impl Calls {
    fn name(self) -> &'static str {
        match self {
            Calls::Takes => "takes",
            Calls::Gives => "gives",
            Calls::Flushes => "flushes",
        }
    }
}

// What became of a stream.
#[derive(Clone, Copy)]
enum Verdict {
    // Nothing failed.
    Whole,
    // A failure left what it has to.
    Right,
    // A failure left anything else.
    Wrong,
}

impl Verdict {
    // A failure that is right only if this is.
    fn given(self, is_right: bool) -> Verdict {
        match self {
            Verdict::Right if !is_right => Verdict::Wrong,
            verdict => verdict,
        }
    }
}

// A stream that comes, or whose replies go, in pieces, and what its messages have to leave.
#[derive(Clone, Copy)]
struct Trial<'s> {
    stage: &'s Stage,
    piece: usize,
    // What none of its messages leave, the first, the first two and so on, and all that comes.
    prefixes: &'s [Prefix],
    ghost moves: { 0 < piece },
}

// A writer that takes all, and whose flushes fail once some went well.
#[derive(Drop)]
struct Stubborn {
    good_flushes: u64,
}

impl Write for Stubborn {
    fn write(&mut self, buf: &[u8]) -> io::Result<usize> {
        Ok(buf.len())
    }

    fn flush(&mut self) -> io::Result<()> {
        if self.good_flushes == 0 {
            return Err(ErrorKind::BrokenPipe.into());
        }
        self.good_flushes -= 1;
        Ok(())
    }
}

impl Trial<'_> {
    // Whether so many messages leave such a record.
    fn is_record(&self, acted: usize, record: &[u8]) -> bool {
        match self.prefixes.get(acted) {
            Some(prefix) => prefix.record.as_slice() == record,
            None => false,
        }
    }

    // Whether so many messages are answered so.
    fn are_replies(&self, acted: usize, replies: &[u8]) -> bool {
        match self.prefixes.get(acted) {
            Some(prefix) => prefix.replies.bytes() == replies,
            None => false,
        }
    }

    // Whether the replies begin so.
    fn is_beginning(&self, replies: &[u8]) -> bool {
        match self.prefixes.last() {
            Some(prefix) => prefix.replies.bytes().starts_with(replies),
            None => false,
        }
    }

    // How many messages have acted once so many bytes of replies are written: the one that the next
    // reply is to has.
    fn acted_within(&self, length: usize) -> usize {
        let mut acted = 0usize;
        for prefix in self.prefixes {
            if prefix.replies.bytes().len() <= length {
                acted = acted.saturating_add(1);
            }
        }
        acted
    }

    // How many messages have been answered as the flush after so many is asked for: one is due
    // after each piece that ends a message.
    fn answered_at(&self, good: u64) -> usize {
        let mut left = good;
        let mut answered = 0usize;
        for end in &self.stage.stream.ends {
            let came = end.div_ceil(self.piece).saturating_mul(self.piece);
            let now = self.stage.stream.whole_within(came);
            if now > answered {
                answered = now;
                if left == 0 {
                    return answered;
                }
                left -= 1;
            }
        }
        answered
    }

    // What became of a stream that left this, where such a fault and so many messages are right.
    fn verdict(&self, left: &Left, fault: ServeFault, acted: usize) -> Verdict {
        match left.report {
            Ok(_) => Verdict::Whole,
            Err(report) if report == fault && self.is_record(acted, &left.record) => Verdict::Right,
            Err(_) => Verdict::Wrong,
        }
    }

    // A take fails once some went well: the whole messages that had come are answered.
    fn take(&self, alloc: Global, good: u64) -> Result<Verdict, SiteFault>
        requires { good < 1000 }
    {
        let stream = &self.stage.stream;
        let mut source = MemorySource::new(stream.bytes())
            .in_pieces(self.piece)
            .failing_at(good + 1);
        let mut sink = MemorySink::new(alloc);
        let left = serve_over(alloc, &self.stage.setup, &mut source, &mut sink, u64::MAX)?;
        let acted = stream.whole_within(self.piece.saturating_mul(good as usize));
        let verdict = self.verdict(&left, ServeFault::Read, acted);
        Ok(verdict.given(self.are_replies(acted, sink.bytes())))
    }

    // A give fails once some went well: a beginning of the replies is written, and the message that
    // the next of them is to has acted.
    fn give(&self, alloc: Global, good: u64) -> Result<Verdict, SiteFault>
        requires { good < 1000 }
    {
        let mut source = MemorySource::new(self.stage.stream.bytes());
        let mut sink = MemorySink::new(alloc)
            .in_pieces(self.piece)
            .failing_at(good + 1);
        let left = serve_over(alloc, &self.stage.setup, &mut source, &mut sink, u64::MAX)?;
        let acted = self.acted_within(sink.bytes().len());
        let verdict = self.verdict(&left, ServeFault::Write, acted);
        Ok(verdict.given(self.is_beginning(sink.bytes())))
    }

    // A flush fails once some went well: all messages that had come have acted.
    fn flush(&self, alloc: Global, good: u64) -> Result<Verdict, SiteFault> {
        let mut source = MemorySource::new(self.stage.stream.bytes()).in_pieces(self.piece);
        let mut sink = Writing::new(Stubborn { good_flushes: good });
        let left = serve_over(alloc, &self.stage.setup, &mut source, &mut sink, u64::MAX)?;
        Ok(self.verdict(&left, ServeFault::Write, self.answered_at(good)))
    }

    // What becomes of the stream where a call fails once some went well.
    fn fail(&self, alloc: Global, calls: Calls, good: u64) -> Result<Verdict, SiteFault>
        requires { good < 1000 }
    {
        match calls {
            Calls::Takes => self.take(alloc, good),
            Calls::Gives => self.give(alloc, good),
            Calls::Flushes => self.flush(alloc, good),
        }
    }

    // How many calls fail, each in its turn, and how many of them leave what they may not.
    fn count(&self, alloc: Global, calls: Calls) -> Result<(u64, u64), SiteFault> {
        let mut wrong = 0u64;
        for good in 0..MOST_CALLS {
            match self.fail(alloc, calls, good)? {
                Verdict::Whole => return Ok((good, wrong)),
                Verdict::Right => {}
                Verdict::Wrong => wrong = wrong.saturating_add(1),
            }
        }
        Err(SiteFault::Script)
    }
}

// Adds what the first messages of the stream leave, from none to all, and what all that comes does.
fn add_prefixes(alloc: Global, stage: &Stage, prefixes: &mut Vec<Prefix>) -> Result<(), SiteFault> {
    for most in 0..=stage.stream.ends.len() {
        add_prefix(alloc, stage, most as u64, prefixes)?;
    }
    add_prefix(alloc, stage, u64::MAX, prefixes)
}

// Adds what so many messages of the stream leave.
fn add_prefix(
    alloc: Global,
    stage: &Stage,
    most: u64,
    prefixes: &mut Vec<Prefix>,
) -> Result<(), SiteFault> {
    let prefix = Prefix::new(alloc, stage, most)?;
    match prefixes.push(prefix) {
        Ok(()) => Ok(()),
        Err(_) => Err(SiteFault::Memory),
    }
}

/// Says how many such calls, each failing in its turn in pieces of so many bytes, left anything but
/// what they have to.
pub(crate) fn tell(
    alloc: Global,
    stage: &Stage,
    calls: Calls,
    piece: usize,
) -> Result<Option<String>, SiteFault> {
    let mut prefixes = Vec::new(alloc);
    add_prefixes(alloc, stage, &mut prefixes)?;
    let trial = Trial {
        stage,
        piece: piece.max(1),
        prefixes: &prefixes,
    };
    let (failed, wrong) = trial.count(alloc, calls)?;
    let calls = calls.name();
    Ok(Some(format!(in alloc; "{failed} {calls} failed in turn: {wrong} wrong")?))
}
