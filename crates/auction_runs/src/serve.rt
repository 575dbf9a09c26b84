//! `serve`: the replies to the messages of connections, one connection after the other.
ghost use Rattle.auction_runs.specs.Lines.{IsReported, IsTold};
ghost use Rattle.std.specs.Prelude.{◌≡◌, ◌≢◌, ◌≤◌, ◌⊎◌, Err, IfErr, IfOk, IsOk, OnOk, false};
ghost use Rattle.std.specs.Io.KnownBytes.{Appends, Keeps};
ghost use Rattle.auction_runs.specs.Begun.{IsUnbegun};
ghost use Rattle.auction_runs.specs.Faults.{IsOfEnd, IsOfEnded, IsOfKeep};
ghost use Rattle.auction_runs.specs.Over.{IsOver};
ghost use Rattle.auction_runs.specs.Printed.{listening, served};
ghost use Rattle.auction_runs.specs.Served.{StopsServing, most_messages};
ghost use Rattle.settle.specs.Zoned.{IsZoneOf};
ghost use Rattle.site.specs.Replies.{zone_of};
ghost use Rattle.site_connections.specs.Turns.{Takes, TakesEach, TakesWell};
ghost use Rattle.site_serve.specs.Serving.{keep_of};

use crate::ended::outcome_after_end;
use crate::fault::{TaskFault, finish_run};
use device::Sink;
use house_rows::{Ends, Keep, KeepFault};
use site::Site;
use site_connections::{Connections, TurnFault, serve_each};
use std::alloc::Global;
use std::io::Write;

// How many messages of a connection are answered.
const MOST: u64 = 10_000;

/// The site over a keep. After an error the keep is given back.
#[tactic(auto, using(crate::proofs::Begun::unbegun, crate::proofs::Begun::works))]
pub fn begin_site<K: Keep + Drop>(alloc: Global, keep: K) -> Result<Site<K>, (TaskFault, K)>
    ensures keep { IfOk result (λ site. keep_of site ≡ keep) }
    ensures zone { K.is_honest keep → IfOk result (λ site.
        IsZoneOf (K.content keep).settings.zone (zone_of site)) }
    ensures works { OnOk result (K.is_failed keep ≡ false) }
    ensures fault { IfErr result (λ e. IsOfKeep e.0) }
    ensures cause { IfErr result (λ e.
        IsUnbegun (K.is_honest keep) (K.is_failed keep) (K.content keep) e.0) }
    ensures back { IfErr result (λ e. e.1 ≡ keep) }
{
    match Site::new(alloc, keep) {
        Ok(site) => Ok(site),
        Err((fault, keep)) => Err((TaskFault::from(fault), keep)),
    }
}

/// As `begin_site`, and after an error the keep is dropped.
pub fn site_over<K: Keep + Drop>(alloc: Global, keep: K) -> Result<Site<K>, TaskFault>
    ensures keep { IfOk result (λ site. keep_of site ≡ keep) }
    ensures zone { K.is_honest keep → IfOk result (λ site.
        IsZoneOf (K.content keep).settings.zone (zone_of site)) }
    ensures works { OnOk result (K.is_failed keep ≡ false) }
    ensures fault { IfErr result IsOfKeep }
    ensures cause { IfErr result
        (IsUnbegun (K.is_honest keep) (K.is_failed keep) (K.content keep)) }
{
    match begin_site(alloc, keep) {
        Ok(site) => Ok(site),
        Err((fault, _)) => Err(fault),
    }
}

// Reports that connections are waited for.
fn write_listening<W: Write>(output: &mut W) -> Result<(), TaskFault>
    ensures report { OnOk result
        (Appends (W.contents output.old) (W.contents output.new) listening) }
    ensures fault { IfErr result (λ fault. fault ≡ TaskFault.Write) }
{
    match writeln!(output, "listening") {
        Ok(()) => Ok(()),
        Err(_) => Err(TaskFault::Write),
    }
}

// Reports how many connections were answered.
fn write_served<W: Write>(output: &mut W, count: u64) -> Result<(), TaskFault>
    ensures report { OnOk result
        (Appends (W.contents output.old) (W.contents output.new) (served count)) }
    ensures fault { IfErr result (λ fault. fault ≡ TaskFault.Write) }
{
    match writeln!(output, "served {count}") {
        Ok(()) => Ok(()),
        Err(_) => Err(TaskFault::Write),
    }
}

// Serves so many connections, one after the other.
fn serve_all<C: Connections, K: Keep + Drop>(
    alloc: Global,
    connections: &mut C,
    count: u64,
    site: &mut Site<K>,
) -> Result<(), TaskFault>
    ensures each { OnOk result (TakesEach (TakesWell K.is_failed (Takes K.Keep C.Input.Source
        C.Output.Sink C.accepts C.ends (zone_of site.old) most_messages)) count
        (connections.old, keep_of site.old) (connections.new, keep_of site.new)) }
    ensures stops { IfErr result (StopsServing K.is_failed (Takes K.Keep C.Input.Source
        C.Output.Sink C.accepts C.ends (zone_of site.old) most_messages) C.accepts count
        (connections.old, keep_of site.old) (connections.new, keep_of site.new)) }
{
    match serve_each(alloc, connections, count, site, MOST) {
        Ok(()) => Ok(()),
        Err(TurnFault::Accept) => Err(TaskFault::Socket),
        Err(TurnFault::Store) => Err(TaskFault::Store),
    }
}

// Reports that connections are waited for, and serves so many.
fn listen<W: Write, C: Connections, K: Keep + Drop>(
    alloc: Global,
    connections: &mut C,
    count: u64,
    output: &mut W,
    site: &mut Site<K>,
) -> Result<(), TaskFault>
    ensures report { result ≢ Err TaskFault.Write
        → Appends (W.contents output.old) (W.contents output.new) listening }
    ensures each { OnOk result (TakesEach (TakesWell K.is_failed (Takes K.Keep C.Input.Source
        C.Output.Sink C.accepts C.ends (zone_of site.old) most_messages)) count
        (connections.old, keep_of site.old) (connections.new, keep_of site.new)) }
    ensures stops { IfErr result (StopsServing K.is_failed (Takes K.Keep C.Input.Source
        C.Output.Sink C.accepts C.ends (zone_of site.old) most_messages) C.accepts count
        (connections.old, keep_of site.old) (connections.new, keep_of site.new)) }
{
    write_listening(output)?;
    serve_all(alloc, connections, count, site)
}

/// Reports that connections are waited for, serves so many of them, one after the other, each by at
/// most 10000 messages, and gives the keep back, which nothing else has changed.
///
/// None is taken after one in which the keep failed: that is the fault `Store`. `Socket` is that
/// accepting failed, and `Write` that the report could not be written, before any was taken.
pub fn serve_connections<W: Write, C: Connections, K: Keep + Drop>(
    alloc: Global,
    connections: &mut C,
    count: u64,
    output: &mut W,
    site: Site<K>,
) -> (Result<(), TaskFault>, K)
    ensures report { result.0 ≢ Err TaskFault.Write
        → Appends (W.contents output.old) (W.contents output.new) listening }
    ensures each { OnOk result.0 (TakesEach (TakesWell K.is_failed (Takes K.Keep C.Input.Source
        C.Output.Sink C.accepts C.ends (zone_of site) most_messages)) count
        (connections.old, keep_of site) (connections.new, result.1)) }
    ensures stops { IfErr result.0 (StopsServing K.is_failed (Takes K.Keep C.Input.Source
        C.Output.Sink C.accepts C.ends (zone_of site) most_messages) C.accepts count
        (connections.old, keep_of site) (connections.new, result.1)) }
{
    let mut site = site;
    let answered = listen(alloc, connections, count, output, &mut site);
    (answered, site.end())
}

// Reports how many connections were answered, where they were and the keep was ended.
fn finish<W: Write>(
    output: &mut W,
    answered: Result<(), TaskFault>,
    ended: Result<(), KeepFault>,
    count: u64,
) -> Result<(), TaskFault>
    ensures report { OnOk result
        (Appends (W.contents output.old) (W.contents output.new) (served count)) }
    ensures answered { OnOk result (IsOk answered) }
    ensures ended { OnOk result (IsOk ended) }
    ensures first { IfErr answered (λ fault. result ≡ Err fault) }
    ensures fault { IfErr result (λ fault.
        ((answered ≡ Err fault) × Keeps (W.contents output.old) (W.contents output.new))
        ⊎ (IsOk answered
        × IsOfEnded ended (W.contents output.old) (W.contents output.new) fault)) }
{
    outcome_after_end(answered, ended)?;
    write_served(output, count)
}

/// Ends the keep over which connections were answered, reports how many were asked for where all
/// were answered, and gives the exit status and what is left of the keep. A fault is written in its
/// line on `errors`, one of answering them before one of the end.
pub fn serve_run<W: Write, E: Sink, K: Ends>(
    output: &mut W,
    errors: &mut E,
    answered: Result<(), TaskFault>,
    keep: K,
    count: u64,
) -> (u8, K::Left)
    ensures done { result.0 ≡ 0 → Appends (W.contents output.old) (W.contents output.new)
        (served count) }
    ensures ok { result.0 ≡ 0 → IsOk answered }
    ensures ended { result.0 ≡ 0 → K.is_ended keep result.1 }
    ensures over { IsOver K.is_ended K.is_left keep result.1 }
    ensures first { IfErr answered (IsTold E.Sink errors.old errors.new) }
    ensures reported { IsReported E.Sink
        (λ fault. ((answered ≡ Err fault) × Keeps (W.contents output.old) (W.contents output.new))
        ⊎ (IsOk answered × IsOfEnd K.is_ended K.is_left keep result.1
        (W.contents output.old) (W.contents output.new) fault))
        errors.old errors.new result.0 }
    ensures within { result.0 ≤ 1 }
{
    let (ended, left) = keep.end();
    let status = finish_run(errors, finish(output, answered, ended, count));
    (status, left)
}
