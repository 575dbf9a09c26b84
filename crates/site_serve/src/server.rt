//! Serving a stream.
ghost use Rattle.std.specs.Prelude.{◌≡◌, ◌⊎◌, ◌↔◌, ◌++◌, ◌<◌, ℕ, List, Ok, Err, true, false};
ghost use Rattle.std.specs.Prelude.{length, IfOk, IfErr, IfSome, IsErr, OnOk, OnErr};
ghost use Rattle.std.specs.Io.KnownBytes.{Appends, Consumes, IsAtEnd, Keeps};
ghost use Rattle.device.specs.Given.{AppendsBeginning};
ghost use Rattle.site.specs.Replies.{zone_of};
ghost use Rattle.site.specs.Histories.{Steps};
ghost use Rattle.site_request.specs.Asked.{asked_of};
ghost use Rattle.site_serve.specs.Ends.{HasEnded};
ghost use Rattle.site_serve.specs.Lives.{HasLived, LeavesLives};
ghost use Rattle.site_serve.specs.Serving.{HasRead, HasServed, HasWritten, IsFlushed, keep_of};

use device::{Failure, Sink, Source, give_all};
use house_rows::Keep;
use site::Site;
use std::alloc::Global;
use wire::{Inbox, Look, Request, broken_frame};

/// How a stream ended that was served.
#[derive(Clone, Copy, Debug)]
pub enum Ending {
    /// It ended between messages.
    Clean,
    /// Its last message ended the connection.
    Closed,
    /// It went on with what is no message.
    Broken,
    /// As many messages came as were asked for.
    Limit,
}

/// What was served.
#[derive(Clone, Copy, Debug)]
pub struct Served {
    /// How many whole messages were answered; a broken one isn't counted.
    pub messages: u64,
    /// How the stream ended.
    pub ending: Ending,
}

/// Why serving stopped before the end of its stream. The site can be used on.
#[derive(Clone, Copy, Debug, PartialEq, Eq)]
pub enum ServeFault {
    /// The source failed. The whole messages that had been read were answered, and no others.
    Read = 1,
    /// The sink failed. It took a beginning of one more reply, and what that answers has acted.
    Write = 2,
    /// Memory was refused, before anything was read.
    Memory = 3,
}

// Reads more bytes after those that are held; none come at the end.
fn fill<R: Source>(source: &mut R, inbox: &mut Inbox) -> Result<usize, Failure>
    requires { length inbox.old.held < 24576 }
    ensures bytes { IfOk result (λ n. (bytes : List ℕ) × (length bytes ≡ n)
        × Consumes (R.left source.old) (R.left source.new) bytes
        × (inbox.new.held ≡ inbox.old.held ++ bytes)) }
    ensures end { IfOk result (λ n. n ≡ 0 → IsAtEnd (R.left source.new)) }
    ensures err { OnErr result (Keeps (R.left source.old) (R.left source.new)) }
    ensures failed { IsErr result ↔ (R.has_failed source.new ≡ true) }
{
    let count = source.take(inbox.space())?;
    inbox.took(count);
    Ok(count)
}

// Answers a message. The buffer is one that is kept, so that its room serves again.
fn reply<W: Sink, K: Keep + Drop>(
    sink: &mut W,
    site: &mut Site<K>,
    buffer: &mut Vec<u8>,
    request: &Request<'_>,
) -> Result<(), Failure>
    ensures step { (reply : List ℕ)
        × Steps K.Keep (zone_of site.old)
        (asked_of (Ok request.now)) reply (keep_of site.old) (keep_of site.new)
        × OnOk result (Appends (W.taken sink.old) (W.taken sink.new) reply)
        × AppendsBeginning (W.taken sink.old) (W.taken sink.new) reply }
    ensures zone { zone_of site.new ≡ zone_of site.old }
    ensures failed { IsErr result → W.has_failed sink.new ≡ true }
{
    buffer.clear();
    match site.reply_into(request, buffer) {
        Ok(()) => give_all(sink, buffer),
        Err(text) => give_all(sink, text),
    }
}

// Hands on what the sink holds back, where anything was given since the last flush.
fn hand_on<W: Sink>(sink: &mut W, given: bool) -> Result<(), Failure>
    ensures bytes { Keeps (W.taken sink.old) (W.taken sink.new) }
    ensures flushed { OnOk result (((given ≡ false) × (sink.new ≡ sink.old))
        ⊎ (W.handed_on sink.new ≡ W.taken sink.new)) }
    ensures failed { IsErr result → (given ≡ true) × (W.has_failed sink.new ≡ true) }
{
    if given { sink.flush() } else { Ok(()) }
}

// Hands on what the sink holds back, and says how the stream ended.
fn finish<W: Sink>(
    sink: &mut W,
    given: bool,
    messages: u64,
    ending: Ending,
) -> Result<Served, ServeFault>
    ensures served { IfOk result (λ served.
        (served.messages ≡ messages) × (served.ending ≡ ending)) }
    ensures bytes { Keeps (W.taken sink.old) (W.taken sink.new) }
    ensures flushed { OnOk result (((given ≡ false) × (sink.new ≡ sink.old))
        ⊎ (W.handed_on sink.new ≡ W.taken sink.new)) }
    ensures fault { IfErr result (λ fault. (fault ≡ ServeFault.Write) × (given ≡ true)
        × (W.has_failed sink.new ≡ true)) }
{
    match hand_on(sink, given) {
        Ok(()) => Ok(Served { messages, ending }),
        Err(_) => Err(ServeFault::Write),
    }
}

/// Answers at most `most` messages of a stream, and says how many those were and how it ended.
///
/// What is written is the replies to the messages of the stream's cut, in turn, and after them the
/// reply to its fault where the rest is broken. The sink hands on all that it took before each wait
/// for more bytes and at the end, unless nothing was given since it last did. A message takes no
/// memory but what the site takes for its reply. Clause `life` gives the life that a crash leaves,
/// and that its replies are those which `isolation_over_crashes` of `house_laws` speaks of.
pub fn serve<R: Source, W: Sink, K: Keep + Drop>(
    alloc: Global,
    source: &mut R,
    sink: &mut W,
    site: &mut Site<K>,
    most: u64,
) -> Result<Served, ServeFault>
    ensures served { IfOk result (λ served. IfSome (R.left source.old) (λ stream.
        HasServed (Steps K.Keep (zone_of site.old))
        stream most (W.taken sink.old) (W.taken sink.new) (keep_of site.old) (keep_of site.new)
        served)) }
    ensures read { result ≡ Err ServeFault.Read → (R.has_failed source.new ≡ true)
        × HasRead (Steps K.Keep (zone_of site.old))
        (R.left source.old) (R.left source.new) most (W.taken sink.old) (W.taken sink.new)
        (keep_of site.old) (keep_of site.new) }
    ensures write { result ≡ Err ServeFault.Write → (W.has_failed sink.new ≡ true)
        × IfSome (R.left source.old) (λ stream.
        HasWritten (Steps K.Keep (zone_of site.old))
        stream most (W.taken sink.old) (W.taken sink.new) (keep_of site.old) (keep_of site.new)) }
    ensures memory { result ≡ Err ServeFault.Memory
        → (source.new ≡ source.old) × (sink.new ≡ sink.old) × (site.new ≡ site.old) }

    // However it ends, at each moment a crash leaves the tables of what was accepted so far; and
    // once the store has failed, each command and each read is answered so.
    ensures crash { HasEnded K.content K.is_failed K.is_honest K.may_leave (zone_of site.old)
        (R.left source.old) (R.left source.new) most (W.taken sink.old) (W.taken sink.new)
        (keep_of site.old) (keep_of site.new) }

    // However it ends, over whatever history the house has: a member is answered what any twin run
    // answers it, and the next life goes on from what is left.
    ensures isolation_from { HasLived K.content K.is_failed K.is_honest K.may_leave
        (zone_of site.old) (R.left source.old) (R.left source.new) most
        (W.taken sink.old) (W.taken sink.new) result (keep_of site.old) (keep_of site.new) }

    // However it ends, and after each message, a crash leaves the tables of a life: of what was
    // served, and of what the store failed in, which is in or out.
    ensures life { LeavesLives K.content K.is_failed K.is_honest K.may_leave
        (zone_of site.old) (R.left source.old) (R.left source.new) most
        (W.taken sink.old) (W.taken sink.new) result (keep_of site.old) (keep_of site.new) }

    // All that the sink took is handed on at the end, and before each wait: any of them may fail,
    // and is reported as Read then, so that a sink which fails after it could not be reported.
    ensures handed_on { OnOk result (IsFlushed W.handed_on W.taken sink.old sink.new) }
    ensures waits { result ≡ Err ServeFault.Read
        → IsFlushed W.handed_on W.taken sink.old sink.new }
    ensures source { R.has_failed source.new ≡ true
        → (R.has_failed source.old ≡ true) ⊎ (result ≡ Err ServeFault.Read) }
    ensures zone { zone_of site.new ≡ zone_of site.old }
{
    let Ok(mut inbox) = Inbox::new(alloc) else {
        return Err(ServeFault::Memory);
    };
    let mut buffer = Vec::new(alloc);
    let mut messages = 0;
    let mut ended = false;
    // Whether the sink was given anything since it last handed on.
    let mut given = false;
    while messages < most {
        match inbox.look(ended) {
            Look::Whole(request) => {
                let length = request.length();
                let closes = request.closes();
                if reply(sink, site, &mut buffer, &request).is_err() {
                    return Err(ServeFault::Write);
                }
                given = true;
                messages += 1;
                if closes {
                    return finish(sink, given, messages, Ending::Closed);
                }
                inbox.done(length);
            }
            Look::More => {
                if hand_on(sink, given).is_err() {
                    return Err(ServeFault::Write);
                }
                given = false;
                match fill(source, &mut inbox) {
                    Ok(count) => ended = count == 0,
                    Err(_) => return Err(ServeFault::Read),
                }
            }
            Look::Clean => return finish(sink, given, messages, Ending::Clean),
            Look::Fault(fault) => {
                if give_all(sink, broken_frame(fault)).is_err() {
                    return Err(ServeFault::Write);
                }
                return finish(sink, true, messages, Ending::Broken);
            }
        }
    }
    finish(sink, given, messages, Ending::Limit)
}
