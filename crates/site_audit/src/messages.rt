//! A list of messages, read from a stream.
ghost use Rattle.std.specs.Prelude.{◌≡◌, ◌≤◌, ◌<◌, ◌↔◌, ◌⊎◌, ◌++◌, ◌∷◌, [], ℕ, List, IfErr, IfOk, IfSome};
ghost use Rattle.std.specs.Prelude.{IsErrOf, MatchResult, OnOk, map, take, true, length};
ghost use Rattle.std.specs.Io.KnownBytes.{Consumes, IsAtEnd};
ghost use Rattle.site_audit.specs.Messages.{IsCutInto, IsNoList, IsStopped};
ghost use Rattle.site_audit.specs.declared.messages.MessagesFault.TheVariants.{Memory, Read};

use device::{Failure, Source};
use std::alloc::{AllocError, Global};
use thiserror::Error;
use wire::{Inbox, Look, WireFault};

/// Why a stream is no list of messages.
#[derive(Clone, Copy, Debug, Error)]
pub enum MessagesFault {
    /// The source failed.
    #[error("reading failed")]
    Read,
    /// Memory was refused.
    #[error("memory is wanted")]
    Memory,
    /// What comes after the messages before it is no message, for this fault.
    #[error("a message is broken")]
    Broken(WireFault),
}

impl From<AllocError> for MessagesFault {
    ghost from_gives = { λ _ report. report ≡ Memory };

    fn from(_fault: AllocError) -> MessagesFault {
        MessagesFault::Memory
    }
}

impl From<Failure> for MessagesFault {
    ghost from_gives = { λ _ report. report ≡ Read };

    fn from(_fault: Failure) -> MessagesFault {
        MessagesFault::Read
    }
}

// Takes more bytes of the source, and keeps them after the text too.
fn take_more<R: Source>(
    source: &mut R,
    into: &mut [u8],
    text: &mut Vec<u8>,
) -> Result<usize, MessagesFault>
    ensures bound { IfOk result (λ n. n ≤ length into.new) }
    ensures bytes { IfOk result (λ n.
        Consumes (R.left source.old) (R.left source.new) (take n into.new)) }
    ensures text { IfOk result (λ n. text.new.items ≡ text.old.items ++ take n into.new) }
    ensures end { IfOk result (λ n.
        n ≡ 0 → 0 < length into.new → IsAtEnd (R.left source.new)) }
    ensures fault { IfErr result (IsStopped (R.has_failed source.new)) }
    ensures failed { IsErrOf result Read ↔ (R.has_failed source.new ≡ true) }
{
    let count = source.take(into)?;
    text.extend_from_slice(&into[..count])?;
    Ok(count)
}

// Reads more bytes after those that are held, and after the text; none come at the end.
fn fill<R: Source>(
    source: &mut R,
    inbox: &mut Inbox,
    text: &mut Vec<u8>,
) -> Result<usize, MessagesFault>
    requires { length inbox.old.held < 24576 }
    ensures bytes { IfOk result (λ n. (bytes : List ℕ)
        × Consumes (R.left source.old) (R.left source.new) bytes
        × (length bytes ≡ n)
        × (inbox.new.held ≡ inbox.old.held ++ bytes)
        × (text.new.items ≡ text.old.items ++ bytes)) }
    ensures end { IfOk result (λ n. n ≡ 0 → IsAtEnd (R.left source.new)) }
    ensures fault { IfErr result (IsStopped (R.has_failed source.new)) }
    ensures failed { IsErrOf result Read ↔ (R.has_failed source.new ≡ true) }
{
    let count = take_more(source, inbox.space(), text)?;
    inbox.took(count);
    Ok(count)
}

// Keeps a copy of a message.
fn keep_message(
    alloc: Global,
    messages: &mut Vec<Vec<u8>>,
    message: &[u8],
) -> Result<(), MessagesFault>
    ensures ok { OnOk result (map (λ m. m.items) messages.new.items
        ≡ map (λ m. m.items) messages.old.items ++ message.now ∷ []) }
    ensures fault { IfErr result (λ fault. fault ≡ Memory) }
{
    let copy = Vec::from_slice(alloc, message)?;
    match messages.push(copy) {
        Ok(()) => Ok(()),
        Err(_) => Err(MessagesFault::Memory),
    }
}

/// Reads a stream of messages to its end. A message that asks to close ends nothing here: what
/// comes after it is read on.
pub fn read_messages<R: Source>(
    alloc: Global,
    source: &mut R,
) -> Result<Vec<Vec<u8>>, MessagesFault>
    ensures listed { IfSome (R.left source.old) (λ stream.
        MatchResult result (λ v. IsCutInto stream (map (λ m. m.items) v.items) [])
        (IsNoList stream (R.has_failed source.new))) }
    ensures end { OnOk result (IsAtEnd (R.left source.new)) }
    // A source that fails is told as that, and neither as out of memory nor as a broken message.
    ensures source { R.has_failed source.new ≡ true
        → (R.has_failed source.old ≡ true) ⊎ IsErrOf result Read }
{
    let mut inbox = Inbox::new(alloc)?;
    // What was read; its first `cut` bytes are the messages.
    let mut text = Vec::new(alloc);
    let mut cut = 0;
    let mut messages = Vec::new(alloc);
    let mut ended = false;
    loop {
        match inbox.look(ended) {
            Look::Whole(request) => {
                let length = request.length();
                if keep_message(alloc, &mut messages, &text[cut..cut + length]).is_err() {
                    return Err(MessagesFault::Memory);
                }
                cut += length;
                inbox.done(length);
            }
            Look::More => match fill(source, &mut inbox, &mut text) {
                Ok(count) => ended = count == 0,
                Err(fault) => return Err(fault),
            },
            Look::Clean => return Ok(messages),
            Look::Fault(fault) => return Err(MessagesFault::Broken(fault)),
        }
    }
}
