//! `serve`: connections over the house in a file.
ghost use Rattle.std.specs.Prelude.{◌≡◌, ◌≤◌, ◌⊎◌, IfErr, OnOk};
ghost use Rattle.auction.specs.Remains.{IsEndedAs, IsLeftAs};
ghost use Rattle.auction_runs.specs.Faults.{IsOfKeep};
ghost use Rattle.auction_runs.specs.Runs.{HasAnswered, HasDone, HasServed, IsServedOver, IsServingFault, MayHaveAnswered};
ghost use Rattle.auction_runs.specs.Served.{most_messages};
ghost use Rattle.settle.specs.Zoned.{IsZoneOf};
ghost use Rattle.site.specs.Replies.{zone_of};
ghost use Rattle.site_connections.specs.Turns.{Takes};
ghost use Rattle.site_serve.specs.Serving.{keep_of};

use crate::houses::KeepInFile;
use crate::remains::{Remains, refuse_house};
use auction_runs::{TaskFault, begin_site, serve_connections, serve_run};
use auction_words::Serve;
use device::Writing;
use site::Site;
use std::alloc::Global;
use tcp::Listen;

// Serves connections over a site, and gives its keep back.
fn serve_site<K: KeepInFile, C: Listen>(
    rt: &HostRuntime,
    alloc: Global,
    site: Site<K>,
    asked: Serve,
) -> (Result<(), TaskFault>, K)
    requires zone { K.is_honest (keep_of site)
        → IsZoneOf (K.content (keep_of site)).settings.zone (zone_of site) }
    ensures all { OnOk result.0 (HasAnswered K.Keep (λ came. C.is_at came asked.port asked.count)
        (λ zone. Takes K.Keep C.Input.Source C.Output.Sink C.accepts C.ends zone most_messages)
        asked.count (keep_of site) result.1) }
    ensures fault { IfErr result.0 (IsServingFault K.Keep result.1) }
    ensures some { MayHaveAnswered K.Keep (λ came. C.is_at came asked.port asked.count)
        (λ zone. Takes K.Keep C.Input.Source C.Output.Sink C.accepts C.ends zone most_messages)
        asked.count (keep_of site) result.1 }
{
    match C::listen(rt, asked.port, asked.count) {
        Ok(mut connections) => {
            serve_connections(alloc, &mut connections, asked.count, &mut rt.stdout(), site)
        }
        Err(_) => (Err(TaskFault::Socket), site.end()),
    }
}

// Serves connections over a keep, and gives it back. That its zone can't be read is reported before
// that nobody can listen.
fn serve_over<K: KeepInFile, C: Listen>(
    rt: &HostRuntime,
    alloc: Global,
    keep: K,
    asked: Serve,
) -> (Result<(), TaskFault>, K)
    ensures all { OnOk result.0 (HasAnswered K.Keep (λ came. C.is_at came asked.port asked.count)
        (λ zone. Takes K.Keep C.Input.Source C.Output.Sink C.accepts C.ends zone most_messages)
        asked.count keep result.1) }
    ensures fault { IfErr result.0 (λ fault.
        IsServingFault K.Keep result.1 fault ⊎ IsOfKeep fault) }
    ensures some { MayHaveAnswered K.Keep (λ came. C.is_at came asked.port asked.count)
        (λ zone. Takes K.Keep C.Input.Source C.Output.Sink C.accepts C.ends zone most_messages)
        asked.count keep result.1 }
{
    match begin_site(alloc, keep) {
        Ok(site) => serve_site::<K, C>(rt, alloc, site, asked),
        Err((fault, keep)) => (Err(fault), keep),
    }
}

// Serves connections over a keep, and ends it.
fn serve_keep<K: KeepInFile, C: Listen>(
    rt: &HostRuntime,
    alloc: Global,
    keep: K,
    asked: Serve,
) -> (u8, K::Left)
    ensures served { result.0 ≡ 0 → HasServed K.Keep
        (λ came. C.is_at came asked.port asked.count) K.is_ended
        (λ zone. Takes K.Keep C.Input.Source C.Output.Sink C.accepts C.ends zone most_messages)
        asked.count keep result.1 }
    ensures left { IsServedOver K.Keep
        (λ came. C.is_at came asked.port asked.count) K.is_ended K.is_left
        (λ zone. Takes K.Keep C.Input.Source C.Output.Sink C.accepts C.ends zone most_messages)
        asked.count keep result.1 }
    ensures within { result.0 ≤ 1 }
{
    let (answered, keep) = serve_over::<K, C>(rt, alloc, keep, asked);
    serve_run(
        &mut rt.stdout(),
        &mut Writing::new(rt.stderr()),
        answered,
        keep,
        asked.count,
    )
}

/// Serves connections over the house in a file, of those that come to the port that is asked for.
pub(crate) fn serve_file<K: KeepInFile, C: Listen>(
    rt: &HostRuntime,
    alloc: Global,
    path: &str,
    asked: Serve,
    first: K::First,
) -> (u8, Remains<K::Rest, K::Left>)
    ensures served { result.0 ≡ 0 → IsEndedAs (HasDone (K.is_opened path.now)
        (HasServed K.Keep
        (λ came. C.is_at came asked.port asked.count) K.is_ended
        (λ zone. Takes K.Keep C.Input.Source C.Output.Sink C.accepts C.ends zone most_messages)
        asked.count)) result.1 }
    ensures left { IsLeftAs (K.is_held path.now) (HasDone (K.is_opened path.now)
        (IsServedOver K.Keep
        (λ came. C.is_at came asked.port asked.count) K.is_ended K.is_left
        (λ zone. Takes K.Keep C.Input.Source C.Output.Sink C.accepts C.ends zone most_messages)
        asked.count)) result.1 }
    ensures within { result.0 ≤ 1 }
{
    match K::open(rt, alloc, path, first) {
        Ok(keep) => {
            let (status, left) = serve_keep::<K, C>(rt, alloc, keep, asked);
            (status, Remains::Ended(left))
        }
        Err((fault, rest)) => refuse_house(rt, TaskFault::from(fault), rest),
    }
}
