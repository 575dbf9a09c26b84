//! `audit`: two runs of messages, compared as one member sees them.
ghost use Rattle.std.specs.Prelude.{◌≡◌, ◌≤◌, ◌↔◌, ◌⊎◌, true, false, Ok, IfErr, IfOk, IsOk, OnOk, map};
ghost use Rattle.std.specs.Io.KnownBytes.{Appends};
ghost use Rattle.auction_runs.specs.Audited.{Finds, HasAudited, HasMessages, HasReported};
ghost use Rattle.auction_runs.specs.Audited.{IsReported, IsUncompared, IsUnread, IsUnreported};
ghost use Rattle.auction_runs.specs.Begun.{IsUnbegun};
ghost use Rattle.auction_runs.specs.Faults.{IsOfKeep, fault_of_messages};
ghost use Rattle.auction_runs.specs.Lines.{IsTold, TellsFinding};
ghost use Rattle.auction_runs.specs.Printed.{apart_line, equal_line};
ghost use Rattle.settle.specs.Zoned.{IsZoneOf};
ghost use Rattle.site.specs.Replies.{zone_of};
ghost use Rattle.site_serve.specs.Serving.{keep_of};

use crate::fault::{Side, TaskFault, finish_run};
use crate::serve::site_over;
use device::{Sink, Source};
use house_rows::Keep;
use site::Site;
use site_audit::{AuditFault, MessagesFault, Verdict, audit, audit_from, read_messages};
use std::alloc::Global;
use std::io::Write;

/// Which two houses runs begin with.
#[derive(Clone, Copy)]
pub enum Houses {
    /// Two that are new, and were set up alike.
    New,
    /// Two that live on, and have been alike so far for the member who looks.
    Living,
}

/// One side of an audit: a house, and where its messages come from, or why they can't be read.
#[derive(Drop)]
pub struct Run<K: Drop, S: Drop> {
    /// The keep of the house.
    pub keep: K,
    /// The source of the messages.
    pub source: Result<S, TaskFault>,
}

// Why a side gives no list of messages.
fn fault_of(fault: MessagesFault, side: Side) -> TaskFault
    ensures { result ≡ fault_of_messages side fault }
{
    match fault {
        MessagesFault::Read => TaskFault::Read,
        MessagesFault::Memory => TaskFault::Memory,
        MessagesFault::Broken(_) => TaskFault::Broken(side),
    }
}

/// The messages of a side.
pub fn messages<S: Source + Drop>(
    alloc: Global,
    source: Result<S, TaskFault>,
    side: Side,
) -> Result<Vec<Vec<u8>>, TaskFault>
    ensures ok { IfOk result (λ list. HasMessages S.left source (map (λ m. m.items) list.items)) }
    ensures fault { IfErr result (λ fault. IsUnread S.left side source fault) }
{
    let mut source = source?;
    match read_messages(alloc, &mut source) {
        Ok(messages) => Ok(messages),
        Err(fault) => Err(fault_of(fault, side)),
    }
}

/// The sites over two keeps.
pub fn both_begun<K: Keep + Drop>(
    alloc: Global,
    left: K,
    right: K,
) -> Result<(Site<K>, Site<K>), TaskFault>
    ensures left { IfOk result (λ sites. keep_of sites.0 ≡ left) }
    ensures right { IfOk result (λ sites. keep_of sites.1 ≡ right) }
    ensures zone { K.is_honest left → IfOk result (λ sites.
        IsZoneOf (K.content left).settings.zone (zone_of sites.0)) }
    ensures works { OnOk result
        ((K.is_failed left ≡ false) × (K.is_failed right ≡ false)) }
    ensures fault { IfErr result IsOfKeep }
    ensures cause { IfErr result (λ fault.
        IsUnbegun (K.is_honest left) (K.is_failed left) (K.content left) fault
        ⊎ IsUnbegun (K.is_honest right) (K.is_failed right) (K.content right) fault) }
{
    let left_site = site_over(alloc, left)?;
    match site_over(alloc, right) {
        Ok(right_site) => Ok((left_site, right_site)),
        Err(fault) => Err(fault),
    }
}

// What an audit of two lists finds, over two sites.
fn compare_over<K: Keep + Drop>(
    alloc: Global,
    houses: Houses,
    left: &mut Site<K>,
    right: &mut Site<K>,
    lefts: &[Vec<u8>],
    rights: &[Vec<u8>],
    caller: u64,
) -> Result<Verdict, AuditFault>
    ensures found { Finds houses K.content K.is_failed K.is_honest caller (zone_of left.old)
        (map (λ m. m.items) lefts.now) (map (λ m. m.items) rights.now)
        (keep_of left.old) (keep_of right.old) (keep_of left.new) (keep_of right.new) result }
{
    match houses {
        Houses::New => audit(alloc, left, right, lefts, rights, caller),
        Houses::Living => audit_from(alloc, left, right, lefts, rights, caller),
    }
}

// What an audit of two runs finds. What is wrong on the left is reported before what is wrong on
// the right.
fn compare<L: Source + Drop, R: Source + Drop, K: Keep + Drop>(
    alloc: Global,
    houses: Houses,
    left: Run<K, L>,
    right: Run<K, R>,
    caller: u64,
) -> Result<Verdict, TaskFault>
    ensures found { IfOk result
        (HasAudited houses K.content K.is_failed K.is_honest L.left R.left caller left right) }
    ensures fault { IfErr result (IsUncompared houses K.content K.is_failed K.is_honest L.left
        R.left caller left right) }
{
    let (mut left_site, mut right_site) = both_begun(alloc, left.keep, right.keep)?;
    let lefts = messages(alloc, left.source, Side::Left)?;
    let rights = messages(alloc, right.source, Side::Right)?;
    Ok(compare_over(
        alloc,
        houses,
        &mut left_site,
        &mut right_site,
        &lefts,
        &rights,
        caller,
    )?)
}

// Reports that the runs are equal, with so many replies.
fn write_equal<W: Write>(output: &mut W, count: usize) -> Result<(), TaskFault>
    ensures report { OnOk result
        (Appends (W.contents output.old) (W.contents output.new) (equal_line count)) }
    ensures fault { IfErr result (λ fault. fault ≡ TaskFault.Write) }
{
    match writeln!(output, "equal, {count} replies") {
        Ok(()) => Ok(()),
        Err(_) => Err(TaskFault::Write),
    }
}

// Reports that they are apart from a place on.
fn write_apart<W: Write>(output: &mut W, step: u64) -> Result<(), TaskFault>
    ensures report { OnOk result
        (Appends (W.contents output.old) (W.contents output.new) (apart_line step)) }
    ensures fault { IfErr result (λ fault. fault ≡ TaskFault.Write) }
{
    match writeln!(output, "apart at step {step}") {
        Ok(()) => Ok(()),
        Err(_) => Err(TaskFault::Write),
    }
}

// Reports a verdict, and gives whether the runs are equal.
fn write_verdict<W: Write>(output: &mut W, verdict: &Verdict) -> Result<bool, TaskFault>
    ensures report { IfOk result
        (IsReported (W.contents output.old) (W.contents output.new) verdict.now) }
    ensures fault { IfErr result (λ fault. fault ≡ TaskFault.Write) }
{
    match verdict {
        Verdict::Equal { replies } => {
            write_equal(output, replies.len())?;
            Ok(true)
        }
        Verdict::Apart { step } => {
            write_apart(output, *step)?;
            Ok(false)
        }
    }
}

/// Compares two runs of messages over two houses as a member sees them, and reports what was found.
/// Ok is whether they are equal. Where neither source is a list, the left one's fault is reported.
/// Where nothing was compared nothing is written, and the fault isn't `Write`.
pub fn report_comparison<L: Source + Drop, R: Source + Drop, W: Write, K: Keep + Drop>(
    alloc: Global,
    houses: Houses,
    left: Run<K, L>,
    right: Run<K, R>,
    caller: u64,
    output: &mut W,
) -> Result<bool, TaskFault>
    ensures report { IfOk result
        (HasReported houses K.content K.is_failed K.is_honest L.left R.left caller left right
        (W.contents output.old) (W.contents output.new)) }
    ensures fault { IfErr result
        (IsUnreported houses K.content K.is_failed K.is_honest L.left R.left caller left right
        (W.contents output.old) (W.contents output.new)) }
{
    let verdict = compare(alloc, houses, left, right, caller)?;
    write_verdict(output, &verdict)
}

/// The exit status for what was found: 0 where the runs are equal, and else 1. A fault is written
/// in its line, and nothing is where there is none.
pub fn status<E: Sink>(errors: &mut E, equal: Result<bool, TaskFault>) -> u8
    ensures equal { (result ≡ 0) ↔ (equal ≡ Ok true) }
    ensures quiet { IsOk equal → errors.new ≡ errors.old }
    ensures told { IfErr equal (IsTold E.Sink errors.old errors.new) }
    ensures within { result ≤ 1 }
{
    match equal {
        Ok(true) => 0,
        Ok(false) => 1,
        Err(fault) => finish_run(errors, Err(fault)),
    }
}

/// Compares two runs of messages over two houses as a member sees them, reports what was found, and
/// gives the exit status: 0 where they are equal, and else 1. Where neither source is a list, the left
/// one's fault is reported. A fault is written in its line on `errors`.
pub fn audit_run<L: Source + Drop, R: Source + Drop, W: Write, E: Sink, K: Keep + Drop>(
    alloc: Global,
    houses: Houses,
    left: Run<K, L>,
    right: Run<K, R>,
    caller: u64,
    output: &mut W,
    errors: &mut E,
) -> u8
    ensures equal { result ≡ 0
        → HasReported houses K.content K.is_failed K.is_honest L.left R.left caller left right
        (W.contents output.old) (W.contents output.new) true }
    ensures told { TellsFinding E.Sink
        (HasReported houses K.content K.is_failed K.is_honest L.left R.left caller left right
        (W.contents output.old) (W.contents output.new))
        (IsUnreported houses K.content K.is_failed K.is_honest L.left R.left caller left right
        (W.contents output.old) (W.contents output.new))
        errors.old errors.new result }
    ensures within { result ≤ 1 }
{
    status(
        errors,
        report_comparison(alloc, houses, left, right, caller, output),
    )
}
