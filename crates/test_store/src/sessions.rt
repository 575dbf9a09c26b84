//! What is done in a house while its files are open: messages are answered over it.
//!
//! What owns a keep has one end alone, and hands it on: each end more takes the prover longer.
use crate::files::{Opens, create};
use crate::keeps::site_over;
use crate::messages::{command, first_word};
use house_rows::{Keep, KeepFault};
use house_script::{ScriptFault, answer};
use site::Site;
use sqlite::Alter;
use std::alloc::{AllocError, Global};
use stop_files::{Pair, Side};

// What is shown of a house beside its record: what it answers to these questions, and to these of
// each number of a member or an item.
const SHOWN: [&str; 6] = [
    "clock",
    "members",
    "categories",
    "items",
    "all_published",
    "all_feedback",
];

const SHOWN_BY_NUMBER: [&str; 10] = [
    "item",
    "state",
    "standing",
    "reserve",
    "reserves",
    "bids",
    "watches",
    "questions",
    "waiting",
    "sales",
];

/// What is done: a house is made or opened, and given up to two commands.
#[derive(Clone, Copy)]
pub(crate) struct Session<'s> {
    pub(crate) is_new: bool,
    /// The commands, as the script spells them.
    pub(crate) earlier: Option<&'s str>,
    pub(crate) last: Option<&'s str>,
}

/// The call at which a file stops.
#[derive(Clone, Copy)]
pub(crate) struct Stop<'p> {
    pub(crate) pair: &'p Pair,
    pub(crate) side: Side,
    /// How many calls are answered before it.
    pub(crate) calls: u64,
}

impl Stop<'_> {
    // Has the file stop.
    fn begin(self) {
        self.pair.stop_after(self.side, self.calls);
    }
}

/// What is answered to what is stopped.
#[derive(Clone, Copy, PartialEq, Eq)]
pub(crate) enum Answer {
    Done,
    Store,
    Other,
}

/// What a house shows after a session.
pub(crate) fn view<S: Alter + Drop, O: Opens<S>>(
    alloc: Global,
    place: &O,
    session: Session<'_>,
) -> Result<Vec<u8>, ScriptFault> {
    if session.is_new {
        view_of(alloc, create(alloc, place), session)
    } else {
        view_of(alloc, place.keep(), session)
    }
}

fn view_of<K: Keep + Drop>(
    alloc: Global,
    house: Result<K, KeepFault>,
    session: Session<'_>,
) -> Result<Vec<u8>, ScriptFault> {
    let mut site = site_over(alloc, house)?;
    view_after(alloc, &mut site, session)
}

fn view_after<K: Keep + Drop>(
    alloc: Global,
    site: &mut Site<K>,
    session: Session<'_>,
) -> Result<Vec<u8>, ScriptFault> {
    take(alloc, site, session.earlier)?;
    take(alloc, site, session.last)?;
    let mut shown = site.record()?;
    match add_view(alloc, site.keep_mut(), &mut shown) {
        Ok(()) => Ok(shown),
        Err(fault) => Err(fault),
    }
}

// Adds all that the house shows beside its record.
fn add_view<K: Keep>(alloc: Global, keep: &mut K, shown: &mut Vec<u8>) -> Result<(), ScriptFault> {
    for question in SHOWN {
        add_answer(alloc, keep, shown, question)?;
    }
    let counts = keep.counts()?;
    for number in 1..=counts.members.max(counts.items) {
        for name in SHOWN_BY_NUMBER {
            let question = format!(in alloc; "{name} {number}")?;
            add_answer(alloc, keep, shown, question.as_str())?;
        }
    }
    Ok(())
}

// Adds a line.
fn add_line(shown: &mut Vec<u8>, line: &[u8]) -> Result<(), AllocError> {
    shown.extend_from_slice(line)?;
    shown.push(b'\n')?;
    Ok(())
}

// Adds what the house answers to a question.
fn add_answer<K: Keep>(
    alloc: Global,
    keep: &mut K,
    shown: &mut Vec<u8>,
    question: &str,
) -> Result<(), ScriptFault> {
    let answer = answer(alloc, keep, question)?;
    Ok(add_line(shown, answer.as_bytes())?)
}

// The message that a line spells: `post MEMBER MOMENT TARGET BODY`.
fn message(alloc: Global, line: &str) -> Result<String, ScriptFault> {
    let (word, rest) = first_word(line);
    if word != "post" {
        return Err(ScriptFault::Script);
    }
    Ok(command(alloc, rest)?)
}

// What a reply says.
fn answer_of(reply: &[u8]) -> Result<Answer, ScriptFault> {
    if reply.starts_with(b"HTTP/1.1 503 ") {
        Err(ScriptFault::Memory)
    } else if reply.starts_with(b"HTTP/1.1 20") {
        Ok(Answer::Done)
    } else if reply.starts_with(b"HTTP/1.1 500 ") && reply.ends_with(b"\"store\"}") {
        Ok(Answer::Store)
    } else {
        Ok(Answer::Other)
    }
}

// What is answered to a message.
fn give<K: Keep + Drop>(site: &mut Site<K>, message: &[u8]) -> Result<Answer, ScriptFault> {
    let reply = site.reply(message);
    answer_of(&reply)
}

// Gives a command, if there is one, which has to be accepted.
fn take<K: Keep + Drop>(
    alloc: Global,
    site: &mut Site<K>,
    command: Option<&str>,
) -> Result<(), ScriptFault> {
    let Some(line) = command else {
        return Ok(());
    };
    let message = message(alloc, line)?;
    match give(site, message.as_bytes())? {
        Answer::Done => Ok(()),
        _ => Err(ScriptFault::Keep),
    }
}

/// What is answered to the last command of a session, or, where there is none, to the making of the
/// house, when a file stops.
pub(crate) fn answer_at_stop<S: Alter + Drop, O: Opens<S>>(
    alloc: Global,
    place: &O,
    session: Session<'_>,
    stop: Stop<'_>,
) -> Result<Answer, ScriptFault> {
    let Some(last) = session.last else {
        stop.begin();
        return answer_to_making(create(alloc, place));
    };
    answer_in(alloc, place.keep(), session.earlier, last, stop)
}

// What is answered to the making of a house.
fn answer_to_making<K: Keep + Drop>(house: Result<K, KeepFault>) -> Result<Answer, ScriptFault> {
    match house {
        Ok(_) => Ok(Answer::Done),
        Err(fault) => answer_to_fault(fault),
    }
}

fn answer_in<K: Keep + Drop>(
    alloc: Global,
    house: Result<K, KeepFault>,
    earlier: Option<&str>,
    last: &str,
    stop: Stop<'_>,
) -> Result<Answer, ScriptFault> {
    let mut site = site_over(alloc, house)?;
    answer_after(alloc, &mut site, earlier, last, stop)
}

fn answer_after<K: Keep + Drop>(
    alloc: Global,
    site: &mut Site<K>,
    earlier: Option<&str>,
    last: &str,
    stop: Stop<'_>,
) -> Result<Answer, ScriptFault> {
    take(alloc, site, earlier)?;
    let message = message(alloc, last)?;
    stop.begin();
    answer_to(site, message.as_bytes())
}

// What is answered to a command. Where that is Store, so is all that is asked later.
fn answer_to<K: Keep + Drop>(site: &mut Site<K>, message: &[u8]) -> Result<Answer, ScriptFault> {
    let answer = give(site, message)?;
    if answer != Answer::Store || is_shut(site, message)? {
        return Ok(answer);
    }
    Ok(Answer::Other)
}

// What a fault is as an answer.
fn answer_to_fault(fault: KeepFault) -> Result<Answer, ScriptFault> {
    match fault {
        KeepFault::Store => Ok(Answer::Store),
        KeepFault::Damaged => Ok(Answer::Other),
        KeepFault::Memory => Err(ScriptFault::Memory),
    }
}

// Whether the record, a look-up and a command are answered Store.
fn is_shut<K: Keep + Drop>(site: &mut Site<K>, message: &[u8]) -> Result<bool, ScriptFault> {
    let again = give(site, message)?;
    Ok(
        again == Answer::Store
            && matches!(site.record(), Err(KeepFault::Store))
            && matches!(site.keep_mut().items(), Err(KeepFault::Store)),
    )
}
