//! `surplus`: whether it shows to another member how much higher a covered bid is sealed.
ghost use Rattle.std.specs.Prelude.{◌≡◌, ◌≤◌, true, IfErr, IfOk, OnOk, map};
ghost use Rattle.std.specs.Io.KnownBytes.{Appends};
ghost use Rattle.auction_runs.specs.Lines.{TellsFinding};
ghost use Rattle.auction_runs.specs.Printed.{not_covered_line, same_line};
ghost use Rattle.auction_runs.specs.Raised.{HasShown, HasTried, IsShown, IsUnshown, IsUntried, TellsOf};
ghost use Rattle.site.specs.Replies.{zone_of};
ghost use Rattle.site_serve.specs.Serving.{keep_of};

use crate::audit::{Houses, both_begun, messages, status};
use crate::fault::{Side, TaskFault};
use device::{Sink, Source};
use house_rows::Keep;
use site::Site;
use site_audit::{AuditFault, Surplus, surplus, surplus_from};
use std::alloc::Global;
use std::io::Write;

/// Which bid is raised, and to whom that may not show.
#[derive(Clone, Copy)]
pub struct Raise {
    /// The place of the bid among the messages, from 1 on.
    pub place: u64,
    /// Its new maximum.
    pub maximum: u64,
    /// Who looks.
    pub other: u64,
}

/// Two houses, and where the messages come from, or why they can't be read.
#[derive(Drop)]
pub struct Trial<K: Drop, S: Drop> {
    /// The keep of the house over which the messages are answered.
    pub left: K,
    /// That over which they are answered with the bid raised.
    pub right: K,
    /// The source of the messages.
    pub source: Result<S, TaskFault>,
}

// What is found of a list and a bid of it, over two sites.
fn look_over<K: Keep + Drop>(
    alloc: Global,
    houses: Houses,
    left: &mut Site<K>,
    right: &mut Site<K>,
    texts: &[Vec<u8>],
    raise: Raise,
) -> Result<Surplus, AuditFault>
    ensures found { TellsOf houses K.content K.is_failed K.is_honest raise (zone_of left.old)
        (map (λ m. m.items) texts.now)
        (keep_of left.old) (keep_of right.old) (keep_of left.new) (keep_of right.new) result }
{
    let Raise {
        place,
        maximum,
        other,
    } = raise;
    match houses {
        Houses::New => surplus(alloc, left, right, texts, place, maximum, other),
        Houses::Living => surplus_from(alloc, left, right, texts, place, maximum, other),
    }
}

// What is found over the houses of a trial.
fn look<S: Source + Drop, K: Keep + Drop>(
    alloc: Global,
    houses: Houses,
    trial: Trial<K, S>,
    raise: Raise,
) -> Result<Surplus, TaskFault>
    ensures found { IfOk result
        (HasTried houses K.content K.is_failed K.is_honest S.left raise trial) }
    ensures fault { IfErr result
        (IsUntried houses K.content K.is_failed K.is_honest S.left raise trial) }
{
    let (mut left, mut right) = both_begun(alloc, trial.left, trial.right)?;
    let texts = messages(alloc, trial.source, Side::Only)?;
    Ok(look_over(alloc, houses, &mut left, &mut right, &texts, raise)?)
}

// Reports that a bid is covered, with so many replies to who looks.
fn write_same<W: Write>(output: &mut W, count: usize) -> Result<(), TaskFault>
    ensures report { OnOk result
        (Appends (W.contents output.old) (W.contents output.new) (same_line count)) }
    ensures fault { IfErr result (λ fault. fault ≡ TaskFault.Write) }
{
    match writeln!(output, "same, {count} replies") {
        Ok(()) => Ok(()),
        Err(_) => Err(TaskFault::Write),
    }
}

// Reports that no covered bid is there.
fn write_not_covered<W: Write>(output: &mut W) -> Result<(), TaskFault>
    ensures report { OnOk result
        (Appends (W.contents output.old) (W.contents output.new) not_covered_line) }
    ensures fault { IfErr result (λ fault. fault ≡ TaskFault.Write) }
{
    match writeln!(output, "not covered") {
        Ok(()) => Ok(()),
        Err(_) => Err(TaskFault::Write),
    }
}

// Reports what was found, and gives whether the bid is covered.
fn write_finding<W: Write>(output: &mut W, found: &Surplus) -> Result<bool, TaskFault>
    ensures report { IfOk result (IsShown (W.contents output.old) (W.contents output.new) found.now) }
    ensures fault { IfErr result (λ fault. fault ≡ TaskFault.Write) }
{
    match found {
        Surplus::Same { replies } => {
            write_same(output, replies.len())?;
            Ok(true)
        }
        Surplus::NotCovered => {
            write_not_covered(output)?;
            Ok(false)
        }
    }
}

/// Answers messages over a house, and over another like it with one bid raised, and reports whether
/// the bid is covered, so that it shows to nobody else. Ok is whether it is.
pub fn report_surplus<S: Source + Drop, W: Write, K: Keep + Drop>(
    alloc: Global,
    houses: Houses,
    trial: Trial<K, S>,
    raise: Raise,
    output: &mut W,
) -> Result<bool, TaskFault>
    ensures report { IfOk result (HasShown houses K.content K.is_failed K.is_honest S.left raise trial
        (W.contents output.old) (W.contents output.new)) }
    ensures fault { IfErr result (IsUnshown houses K.content K.is_failed K.is_honest S.left raise trial
        (W.contents output.old) (W.contents output.new)) }
{
    let found = look(alloc, houses, trial, raise)?;
    write_finding(output, &found)
}

/// Answers messages over a house, and over another like it with one bid raised, reports whether the
/// bid is covered, so that it shows to nobody else, and gives the exit status: 0 where it is, and
/// else 1. A fault is written in its line on `errors`.
pub fn surplus_run<S: Source + Drop, W: Write, E: Sink, K: Keep + Drop>(
    alloc: Global,
    houses: Houses,
    trial: Trial<K, S>,
    raise: Raise,
    output: &mut W,
    errors: &mut E,
) -> u8
    ensures covered { result ≡ 0
        → HasShown houses K.content K.is_failed K.is_honest S.left raise trial
        (W.contents output.old) (W.contents output.new) true }
    ensures told { TellsFinding E.Sink
        (HasShown houses K.content K.is_failed K.is_honest S.left raise trial
        (W.contents output.old) (W.contents output.new))
        (IsUnshown houses K.content K.is_failed K.is_honest S.left raise trial
        (W.contents output.old) (W.contents output.new))
        errors.old errors.new result }
    ensures within { result ≤ 1 }
{
    status(errors, report_surplus(alloc, houses, trial, raise, output))
}
