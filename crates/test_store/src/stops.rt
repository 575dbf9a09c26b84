//! The section of stops: a house in files is stopped at each call of its store, and what is left of
//! it is looked at.
//!
//! Its lines are the life of a house: `create READ WRITTEN LOGGED`, with the room of its
//! connections, and then a message a line, `post MEMBER MOMENT TARGET BODY`, which the site
//! answers; an empty line, and one that begins with `--`, is none. The making of the house and each
//! message in turn is done again and again, with a stop of the log and then of the database file
//! after one call more each time, until a run ends with no stop. After each stop nothing, all, or
//! every other sector of what wasn't synced is lost, and the files are opened again. What is right
//! is reported on standard output, after its line, how many stops there were on standard error.
//! Read `case` first.
use crate::case::Case;
use crate::files::Room;
use house_script::ScriptFault;
use std::alloc::Global;
use transcript::echo;

// The name of what a line does: its target, or its first word where it has none.
fn name(line: &str) -> &str {
    for word in line.split_whitespace() {
        if word.starts_with('/') {
            return word;
        }
    }
    line.split_whitespace().next().unwrap_or(line)
}

// Stops what is to be stopped, and reports what came of it.
fn tell(
    rt: &(impl Print + Eprint),
    alloc: Global,
    name: &str,
    case: &Case,
) -> Result<(), ScriptFault> {
    let tally = case.stops(alloc)?;
    println!(rt; "{}", tally.verdict(alloc, name)?)?;
    Ok(eprintln!(rt; "{name}: {tally:?}")?)
}

/// Makes a house by the line of its making, and gives it the commands of the lines that follow.
/// What owns the case has one end: each end more would drop it once more.
pub(crate) fn play(
    rt: &(impl Print + Eprint),
    alloc: Global,
    lines: &str,
) -> Result<(), ScriptFault> {
    let mut case = None;
    play_lines(rt, alloc, &mut case, lines)
}

// Plays lines.
fn play_lines<'s>(
    rt: &(impl Print + Eprint),
    alloc: Global,
    case: &mut Option<Case<'s>>,
    lines: &'s str,
) -> Result<(), ScriptFault> {
    for line in lines.lines() {
        play_line(rt, alloc, case, line)?;
    }
    Ok(())
}

// Plays a line: a house is made, or one more command is given in it.
fn play_line<'s>(
    rt: &(impl Print + Eprint),
    alloc: Global,
    case: &mut Option<Case<'s>>,
    line: &'s str,
) -> Result<(), ScriptFault> {
    let line = echo(rt, line)?;
    if line.is_empty() || line.starts_with("--") {
        return Ok(());
    }
    match case {
        None => {
            let making = Case::making(alloc, Room::of_line(line)?)?;
            tell(rt, alloc, name(line), case.insert(making))
        }
        Some(case) => {
            case.advance(alloc, line)?;
            tell(rt, alloc, name(line), case)
        }
    }
}
