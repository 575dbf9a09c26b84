//! The section of runs: lists of messages over new houses in memory and in databases, one by one,
//! as one list and as a replay. `list` says what a line may be; read it first, and then `run_player`.
use crate::list::{Script, Stage, tell_line};
use house_script::ScriptFault;
use std::alloc::Global;
use std::io;
use std::io::Write;
use transcript::echo;

/// Plays lists of messages on a stage of their own. What owns the stage has one end: each end more
/// would drop it once more.
pub(crate) fn play(rt: &impl Print, alloc: Global, lines: &[u8]) -> Result<(), ScriptFault> {
    let mut stage = Stage::new(alloc);
    play_lines(rt, alloc, &mut stage, lines)
}

// Plays lines on a stage.
fn play_lines(
    rt: &impl Print,
    alloc: Global,
    stage: &mut Stage,
    lines: &[u8],
) -> Result<(), ScriptFault> {
    let mut script = Script { rest: lines };
    for _ in 0..lines.len() {
        let Some(line) = script.line()? else {
            return Ok(());
        };
        play_line(rt, alloc, stage, &mut script, line)?;
    }
    Ok(())
}

// Plays a line, and writes what is reported.
fn play_line(
    rt: &impl Print,
    alloc: Global,
    stage: &mut Stage,
    script: &mut Script<'_>,
    line: &str,
) -> Result<(), ScriptFault> {
    let line = echo(rt, line)?;
    let mut report = Vec::new(alloc);
    tell_line(alloc, stage, script, line, &mut report)?;
    Ok(io::writer(rt).write_all(&report)?)
}
