//! Playing a script.
use crate::fault::ScriptFault;
use crate::makes::Makes;
use crate::played::House;
use crate::question::answer;
use crate::script::answer_to;
use house_rows::Keep;
use std::alloc::Global;
use std::io;
use std::time::CpuClock;
use transcript::echo;

// Reports the processor time used so far, in nanoseconds: measurements have such a line between
// others.
fn tell_time(rt: &(impl Print + CpuClock)) -> Result<(), ScriptFault> {
    let used = rt.process_cpu_time()?;
    let nanoseconds = used.as_nanos();
    Ok(println!(rt; "{nanoseconds}")?)
}

/// The script on standard input.
pub fn read_script(rt: &impl Input, alloc: Global) -> Result<String, ScriptFault> {
    match io::read_to_string(alloc, rt.reader()) {
        Ok(script) => Ok(script),
        Err(_) => Err(ScriptFault::Unread),
    }
}

/// Plays the lines of a script, on houses whose keeps are made so, and prints what is answered, and before it
/// those lines that `echoed` of `transcript` prints.
pub fn play<K: Keep + Drop, M: Makes<K>>(
    rt: &(impl Print + CpuClock),
    alloc: Global,
    makes: &M,
    script: &str,
) -> Result<(), ScriptFault> {
    let mut house: House<K> = House::new(alloc, makes)?;
    play_lines(rt, alloc, makes, &mut house, script)
}

// Plays lines on a house. What owns the house has one end alone, since each end more takes the prover longer.
fn play_lines<K: Keep + Drop, M: Makes<K>>(
    rt: &(impl Print + CpuClock),
    alloc: Global,
    makes: &M,
    house: &mut House<K>,
    script: &str,
) -> Result<(), ScriptFault> {
    for line in script.lines() {
        play_line(rt, alloc, makes, house, line)?;
    }
    Ok(())
}

// Plays a line on a house.
fn play_line<K: Keep + Drop, M: Makes<K>>(
    rt: &(impl Print + CpuClock),
    alloc: Global,
    makes: &M,
    house: &mut House<K>,
    line: &str,
) -> Result<(), ScriptFault> {
    let line = echo(rt, line)?;
    if line == "time" {
        return tell_time(rt);
    }
    match answer_to(alloc, makes, house, line) {
        Ok(None) => Ok(()),
        Ok(Some(answer)) => Ok(println!(rt; "{answer}")?),
        Err(ScriptFault::Memory) => Ok(println!(rt; "Memory")?),
        Err(fault) => Err(fault),
    }
}

/// Asks a keep the questions of a script, and prints the same. The script has no commands: of the tables of a
/// keep that was opened it isn't known that they are those of accepted ones.
pub fn ask<K: Keep>(
    rt: &(impl Print + CpuClock),
    alloc: Global,
    keep: &mut K,
    script: &str,
) -> Result<(), ScriptFault> {
    for line in script.lines() {
        ask_line(rt, alloc, keep, line)?;
    }
    Ok(())
}

// Asks a keep the question of a line.
fn ask_line<K: Keep>(
    rt: &(impl Print + CpuClock),
    alloc: Global,
    keep: &mut K,
    line: &str,
) -> Result<(), ScriptFault> {
    let line = echo(rt, line)?;
    if line.is_empty() || line.starts_with("--") {
        return Ok(());
    }
    if line == "time" {
        return tell_time(rt);
    }
    let question = line.strip_prefix("? ").ok_or(ScriptFault::Script)?;
    let answer = answer(alloc, keep, question)?;
    Ok(println!(rt; "{answer}")?)
}
