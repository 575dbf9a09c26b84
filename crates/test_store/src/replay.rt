//! A list of messages, replayed over a new house as one stream.
use crate::keeps::{Connects, Databases, InMemory, Lists};
use crate::list::Stage;
use crate::run_player::{tell, tell_same};
use auction_runs::replay_run;
use auction_words::Replay;
use device::{MemorySink, MemorySource};
use house_rows::Keep;
use house_script::{Makes, ScriptFault};
use sqlite::Alter;
use std::alloc::{AllocError, Global};

// Reports how a replay ended, what it wrote, and the line of its fault where it has one.
fn tell_ended(
    report: &mut Vec<u8>,
    status: u8,
    written: &[u8],
    fault: &[u8],
) -> Result<(), AllocError> {
    let word: &[u8] = if status == 0 { b"done" } else { b"at fault" };
    tell(report, word)?;
    tell(report, written)?;
    report.extend_from_slice(fault)
}

// Replays a stream over a house.
fn replay<K: Keep + Drop>(
    alloc: Global,
    house: K,
    stream: &[u8],
    asked: Replay,
    report: &mut Vec<u8>,
) -> Result<(), AllocError> {
    let mut source = MemorySource::new(stream);
    let mut sink = MemorySink::new(alloc);
    let mut errors = MemorySink::new(alloc);
    let status = replay_run(alloc, &mut source, &mut sink, &mut errors, house, asked);
    tell_ended(report, status, sink.bytes(), errors.bytes())
}

// Replays a stream over a new house.
fn replay_over<K: Keep + Drop, M: Makes<K>>(
    alloc: Global,
    makes: &M,
    stage: &Stage,
    stream: &[u8],
    asked: Replay,
    report: &mut Vec<u8>,
) -> Result<(), ScriptFault> {
    let house = makes.empty(alloc, stage.settings(alloc)?)?;
    Ok(replay(alloc, house, stream, asked, report)?)
}

// The same over a new house in a database.
fn replay_in<S: Alter + Drop, C: Connects<S>>(
    alloc: Global,
    place: &C,
    stage: &Stage,
    stream: &[u8],
    asked: Replay,
    report: &mut Vec<u8>,
) -> Result<(), ScriptFault> {
    replay_over(alloc, &Databases { place }, stage, stream, asked, report)
}

/// Reports the replay of the list over a new house in lists, and whether it is the same in a
/// database.
pub(crate) fn play_replay(
    alloc: Global,
    stage: &Stage,
    asked: Replay,
    report: &mut Vec<u8>,
) -> Result<(), ScriptFault> {
    let stream = stage.stream(alloc)?;
    let mut first = Vec::new(alloc);
    replay_over(alloc, &Lists, stage, &stream, asked, &mut first)?;
    report.extend_from_slice(&first)?;
    let mut other = Vec::new(alloc);
    replay_in(
        alloc,
        &InMemory { alloc },
        stage,
        &stream,
        asked,
        &mut other,
    )?;
    report.extend_from_slice(b"in a database")?;
    Ok(tell_same(report, &first, &other)?)
}
