//! The section on frames: what its lines may be, and what is answered to them.
//!
//! `text T` begins a text, `add T` adds to it, and `times N T` adds N times. `whole` gives the
//! message that the text is, or its fault, and `one NAME` and `body` a field and the body of that
//! message; `cuts` gives the same of each beginning of the text. `stream N` reads the text through
//! an inbox in pieces of N bytes. `inbox` empties the inbox; `feed` gives it the text, `look` and
//! `ended` look at what it holds, before and at the end of the input, `done` drops the message at
//! its front, `space` gives its room; `looks` gives what a look says of each beginning of the text,
//! before and at the end. `answer CODE ENDS METHODS` gives an answer with the text as its body,
//! `head` of the same words what comes before the body and the length of all, and `written` the
//! answers so far as they were written into one buffer; `fixed NAME ENDS` and `fault N` give
//! answers that are ready. After `whole` and `feed` a text may come, which becomes the text.
use crate::script::MessageFault;
use crate::words::first_word;
use crate::{messages, responses, streams, words};
use std::alloc::{AllocError, Global};
use wire::Inbox;

/// What the lines work on.
#[derive(Drop)]
pub(crate) struct Frames {
    pub(crate) text: Vec<u8>,
    pub(crate) inbox: Inbox,
    pub(crate) written: Vec<u8>,
}

impl Frames {
    /// An empty text, an empty inbox, and nothing written.
    pub(crate) fn new(alloc: Global) -> Result<Frames, AllocError> {
        Ok(Frames {
            text: Vec::new(alloc),
            inbox: Inbox::new(alloc)?,
            written: Vec::new(alloc),
        })
    }

    /// Takes another text, where one is given.
    pub(crate) fn take(&mut self, text: &str) -> Result<(), MessageFault> {
        if text.is_empty() {
            return Ok(());
        }
        self.text.clear();
        words::push(&mut self.text, text)
    }
}

/// Plays a line, and gives what is answered to it, if anything is.
pub(crate) fn play(
    alloc: Global,
    frames: &mut Frames,
    line: &str,
) -> Result<Option<String>, MessageFault> {
    let (word, rest) = first_word(line);
    match word {
        "text" => {
            frames.text.clear();
            words::push(&mut frames.text, rest)?;
        }
        "add" => words::push(&mut frames.text, rest)?,
        "times" => words::repeat(&mut frames.text, rest)?,
        "inbox" => frames.inbox = Inbox::new(alloc)?,
        "done" => streams::done(&mut frames.inbox),
        _ => return Ok(Some(answer(alloc, frames, word, rest)?)),
    }
    Ok(None)
}

// What is answered to a line that asks.
fn answer(
    alloc: Global,
    frames: &mut Frames,
    word: &str,
    rest: &str,
) -> Result<String, MessageFault> {
    match word {
        "whole" => {
            frames.take(rest)?;
            Ok(messages::whole(alloc, &frames.text)?)
        }
        "one" => messages::one(alloc, &frames.text, rest.as_bytes()),
        "body" => messages::body(alloc, &frames.text),
        "cuts" => Ok(messages::cuts(alloc, &frames.text)?),
        "stream" => streams::stream(alloc, &frames.text, rest),
        "feed" => {
            frames.take(rest)?;
            Ok(streams::feed_text(alloc, &mut frames.inbox, &frames.text)?)
        }
        "look" => Ok(streams::look(alloc, &frames.inbox, false)?),
        "ended" => Ok(streams::look(alloc, &frames.inbox, true)?),
        "space" => Ok(streams::space(alloc, &mut frames.inbox)?),
        "looks" => Ok(streams::looks(alloc, &frames.text)?),
        "answer" => responses::response(alloc, frames, rest),
        "head" => responses::head(alloc, &frames.text, rest),
        "written" => Ok(words::spell(alloc, &frames.written)?),
        "fixed" => responses::fixed_text(alloc, rest),
        "fault" => responses::fault(alloc, rest),
        _ => Err(MessageFault::Script),
    }
}
