//! `import`: the rows of a lot file, listed in a house.
ghost use Rattle.std.specs.Prelude.{◌≡◌, ◌≢◌, ◌≤◌, ◌⊎◌, ◌↔◌, ℕ, List, Err, Ok, Some, IfErr, IfOk, IsOk, OnOk};
ghost use Rattle.std.specs.Io.KnownBytes.{Keeps};
ghost use Rattle.auction_runs.specs.Faults.{fault_of_import, fault_of_keep};
ghost use Rattle.auction_runs.specs.Lines.{IsTold};
ghost use Rattle.auction_runs.specs.Listed.{HasAll, HasDealt, HasFault, HasOrderedOnly, HasPrinted};
ghost use Rattle.auction_runs.specs.Listed.{HasRefused, HasTaken, IsKnown, IsOrderedOver, IsUnimported};
ghost use Rattle.auction_runs.specs.Listed.{IsUnready, IsUnstarted};
ghost use Rattle.auction_runs.specs.declared.fault.TaskFault.{TaskFault as ReportedFault};
ghost use Rattle.office.specs.declared.fault.ImportFault.{ImportFault as TheFault};
ghost use Rattle.office.specs.declared.tally.Imported.{Imported as TheReport};
ghost use Rattle.site.specs.Replies.{IsReadable};
ghost use Rattle.house_rows.specs.Answers.{Reads};

use crate::ended::outcome_after_end;
use crate::fault::{TaskFault, finish_run};
use crate::serve::begin_site;
use device::Sink;
use house_rows::{Ends, Keep, KeepFault};
use office::{ImportFault, Imported, Lister, check_member, check_zone, import};
use std::alloc::Global;
use std::io::{Read, Write};

// Hands on what was printed, however the import ended. Its own fault is reported before that.
fn hand_on<W: Write>(
    output: &mut W,
    imported: Result<Imported, ImportFault>,
) -> Result<Imported, TaskFault>
    ensures same { IfOk result (λ report. imported ≡ Ok report) }
    ensures fault { IfErr result (λ fault. ((importing : TheFault) × (imported ≡ Err importing)
        × (fault ≡ fault_of_import importing))
        ⊎ ((report : TheReport) × (imported ≡ Ok report) × (fault ≡ TaskFault.Write))) }
    ensures kept { Keeps (W.contents output.old) (W.contents output.new) }
{
    let flushed = output.flush();
    let report = imported?;
    if flushed.is_err() {
        return Err(TaskFault::Write);
    }
    Ok(report)
}

// Whether the kept zone can be read, and the lister is known.
fn check_house<K: Keep>(keep: &mut K, member: u64) -> Result<(), TaskFault>
    ensures zone { K.is_honest keep.old → OnOk result
        (IsReadable (K.content keep.old).settings.zone) }
    ensures known { OnOk result
        (IsKnown K.content K.is_failed K.is_honest K.may_leave member keep.old keep.new) }
    ensures cause { IfErr result (IsUnready K.Keep member keep.old keep.new) }
    ensures read { Reads K.Keep keep.old keep.new }
{
    check_zone(keep)?;
    check_member(keep, member)?;
    Ok(())
}

// The lot file, once that is so: what is wrong with a house is reported before what else is asked
// of it.
fn check_import<R: Drop, K: Keep>(
    keep: &mut K,
    lots: Result<R, TaskFault>,
    member: u64,
) -> Result<R, TaskFault>
    ensures zone { K.is_honest keep.old → OnOk result
        (IsReadable (K.content keep.old).settings.zone) }
    ensures known { OnOk result
        (IsKnown K.content K.is_failed K.is_honest K.may_leave member keep.old keep.new) }
    ensures same { IfOk result (λ reader. lots ≡ Ok reader) }
    ensures cause { IfErr result (IsUnstarted K.Keep lots member keep.old keep.new) }
    ensures read { Reads K.Keep keep.old keep.new }
{
    check_house(keep, member)?;
    lots
}

// Lists the rows, and gives the keep back.
fn list_all<R: Read + Drop, W: Write, K: Keep + Drop>(
    alloc: Global,
    keep: K,
    lots: Result<R, TaskFault>,
    by: Lister,
    output: &mut W,
) -> (Result<Imported, TaskFault>, K)
    ensures listed { IfOk result.0 (λ report. (reader : R) → lots ≡ Ok reader → (text : List ℕ)
        → R.remaining reader ≡ Some text
        → HasDealt K.content K.is_failed K.is_honest K.may_leave (λ last. last ≡ result.1) by text
        (W.contents output.old) (W.contents output.new) keep report) }
    ensures fault { IfErr result.0 (HasFault K.Keep R.remaining lots by
        (W.contents output.old) (W.contents output.new) keep result.1) }
    ensures open { OnOk result.0 (IsOk lots) }
    ensures taken { OnOk result.0
        (HasTaken K.content K.is_failed K.is_honest K.may_leave (λ last. last ≡ result.1) by keep) }
    ensures ordered { HasOrderedOnly K.content K.is_failed K.is_honest K.may_leave by keep
        result.1 }
{
    let mut keep = keep;
    let lots = match check_import(&mut keep, lots, by.member) {
        Ok(lots) => lots,
        Err(fault) => return (Err(fault), keep),
    };
    let mut site = match begin_site(alloc, keep) {
        Ok(site) => site,
        Err((fault, keep)) => return (Err(fault), keep),
    };
    let imported = import(alloc, &mut site, by, lots, output);
    (hand_on(output, imported), site.end())
}

// The exit status for what became of the rows.
fn status(report: Imported) -> u8
    ensures had { (result ≡ 0) ↔ (report.refused ≡ 0) }
    ensures within { result ≤ 1 }
{
    if report.refused == 0 { 0 } else { 1 }
}

// The exit status for what became of a file, where the keep was ended.
fn finish<E: Sink>(
    errors: &mut E,
    listed: Result<Imported, TaskFault>,
    ended: Result<(), KeepFault>,
) -> u8
    ensures had { result ≡ 0 → IfOk listed (λ report. report.refused ≡ 0) }
    ensures listed { result ≡ 0 → IsOk listed }
    ensures ended { result ≡ 0 → IsOk ended }
    ensures quiet { result ≡ 0 → errors.new ≡ errors.old }
    ensures refused { result ≡ 1 → IsOk ended → IfOk listed (λ report.
        (report.refused ≢ 0) × (errors.new ≡ errors.old)) }
    ensures told { IfErr listed (IsTold E.Sink errors.old errors.new) }
    ensures end_told { IsOk listed → IfErr ended (λ kept.
        IsTold E.Sink errors.old errors.new (fault_of_keep kept)) }
    ensures within { result ≤ 1 }
{
    match outcome_after_end(listed, ended) {
        Ok(report) => status(report),
        Err(fault) => finish_run(errors, Err(fault)),
    }
}

/// Lists each row of a lot file for a member at a moment, ends the keep, and gives the exit status
/// and what is left of the keep: 0 where each row was listed or there already, and else 1. A fault is
/// written in its line on `errors`; what was printed before it are the lines of the rows up to it.
pub fn import_run<R: Read + Drop, W: Write, E: Sink, K: Keep + Drop + Ends>(
    alloc: Global,
    keep: K,
    lots: Result<R, TaskFault>,
    by: Lister,
    output: &mut W,
    errors: &mut E,
) -> (u8, K::Left)
    ensures listed { result.0 ≡ 0 → (reader : R) → lots ≡ Ok reader → (text : List ℕ)
        → R.remaining reader ≡ Some text
        → HasAll K.content K.is_failed K.is_honest K.may_leave (λ last. K.is_ended last result.1)
        by text (W.contents output.old) (W.contents output.new) keep }
    ensures printed { (reader : R) → lots ≡ Ok reader → (text : List ℕ)
        → R.remaining reader ≡ Some text
        → HasPrinted K.Keep by text (W.contents output.old) (W.contents output.new) keep }
    ensures open { result.0 ≡ 0 → IsOk lots }
    // Also where the reader doesn't say what its bytes are.
    ensures ended { result.0 ≡ 0 → HasTaken K.content K.is_failed K.is_honest K.may_leave
        (λ last. K.is_ended last result.1) by keep }
    ensures quiet { result.0 ≡ 0 → errors.new ≡ errors.old }
    // Refused rows are told by their lines alone, and a fault has its cause.
    ensures told { result.0 ≡ 1
        → ((errors.new ≡ errors.old) × HasRefused K.Keep R.remaining lots
        (λ last. K.is_ended last result.1) by
        (W.contents output.old) (W.contents output.new) keep)
        ⊎ ((fault : ReportedFault) × IsUnimported K.Keep R.remaining lots K.is_ended K.is_left by
        (W.contents output.old) (W.contents output.new) keep result.1 fault
        × IsTold E.Sink errors.old errors.new fault) }
    ensures over { IsOrderedOver K.content K.is_failed K.is_honest K.may_leave K.is_ended K.is_left
        by keep result.1 }
    ensures within { result.0 ≤ 1 }
{
    let (listed, keep) = list_all(alloc, keep, lots, by, output);
    let (ended, left) = keep.end();
    (finish(errors, listed, ended), left)
}
