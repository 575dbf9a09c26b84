//! Serving connections in turn.
ghost use Rattle.std.specs.Prelude.{◌≡◌, ◌↔◌, true, Err, IfErr, OnOk};
ghost use Rattle.device.specs.declared.failure.Failure.{Failure as TheFailure};
ghost use Rattle.site.specs.Replies.{zone_of};
ghost use Rattle.site_connections.specs.Turns.{HasFailed, HasStopped, ServesOne, Takes, TakesEach, TakesWell};
ghost use Rattle.site_serve.specs.Serving.{keep_of};

use crate::connection::Connection;
use crate::connections::Connections;
use device::{Failure, Sink, Source};
use house_rows::{Keep, KeepFault};
use site::Site;
use site_serve::{ServeFault, Served, serve};
use std::alloc::Global;

/// Why no more connections are taken.
#[derive(Clone, Copy, Debug, PartialEq, Eq)]
pub enum TurnFault {
    /// Accepting the next one failed.
    Accept = 1,
    /// The keep failed in the last one.
    Store = 2,
}

// Answers the messages of a connection.
fn serve_one<R: Source, W: Sink, K: Keep + Drop>(
    alloc: Global,
    connection: &mut Connection<R, W>,
    site: &mut Site<K>,
    most: u64,
) -> Result<Served, ServeFault>
    ensures served { ServesOne K.content K.is_failed K.is_honest K.may_leave (zone_of site.old)
        R.left R.has_failed W.taken W.handed_on W.has_failed most
        connection.old connection.new result (keep_of site.old) (keep_of site.new) }
    ensures zone { zone_of site.new ≡ zone_of site.old }
{
    serve(
        alloc,
        &mut connection.source,
        &mut connection.sink,
        site,
        most,
    )
}

// Takes the next connection: it is answered and ended, or was given up.
fn serve_next<C: Connections, K: Keep + Drop>(
    alloc: Global,
    connections: &mut C,
    site: &mut Site<K>,
    most: u64,
) -> Result<(), Failure>
    ensures taken { OnOk result (Takes K.Keep C.Input.Source C.Output.Sink C.accepts C.ends
        (zone_of site.old) most
        (connections.old, keep_of site.old) (connections.new, keep_of site.new)) }
    ensures failed { IfErr result (λ failure. C.accepts connections.old (Err failure)
        connections.new × (site.new ≡ site.old)) }
    ensures zone { zone_of site.new ≡ zone_of site.old }
{
    let Some(mut connection) = connections.accept()? else {
        return Ok(());
    };
    let report = serve_one(alloc, &mut connection, site, most);
    connections.end(connection, report);
    Ok(())
}

// Whether the keep has failed, so that it can only answer that it has.
fn has_failed<K: Keep + Drop>(site: &mut Site<K>) -> bool
    ensures value { (result ≡ true) ↔ (K.is_failed (keep_of site.old) ≡ true) }
    ensures keep { keep_of site.new ≡ keep_of site.old }
    ensures zone { zone_of site.new ≡ zone_of site.old }
{
    matches!(site.keep_mut().settings(), Err(KeepFault::Store))
}

// Takes the next connection, and sees that the keep has not failed after it.
fn serve_well<C: Connections, K: Keep + Drop>(
    alloc: Global,
    connections: &mut C,
    site: &mut Site<K>,
    most: u64,
) -> Result<(), TurnFault>
    ensures taken { OnOk result (TakesWell K.is_failed
        (Takes K.Keep C.Input.Source C.Output.Sink C.accepts C.ends (zone_of site.old) most)
        (connections.old, keep_of site.old) (connections.new, keep_of site.new)) }
    ensures accept { result ≡ Err TurnFault.Accept → (failure : TheFailure)
        × C.accepts connections.old (Err failure) connections.new
        × (keep_of site.new ≡ keep_of site.old) }
    ensures store { result ≡ Err TurnFault.Store
        → Takes K.Keep C.Input.Source C.Output.Sink C.accepts C.ends (zone_of site.old) most
        (connections.old, keep_of site.old) (connections.new, keep_of site.new)
        × (K.is_failed (keep_of site.new) ≡ true) }
    ensures zone { zone_of site.new ≡ zone_of site.old }
{
    if serve_next(alloc, connections, site, most).is_err() {
        return Err(TurnFault::Accept);
    }
    if has_failed(site) {
        return Err(TurnFault::Store);
    }
    Ok(())
}

/// Serves so many connections, one after the other, at most `most` messages of each.
///
/// Each is served as `serve` says, whatever the result, or given up as it came. Nothing changes the
/// keep between them. `Accept` where accepting one failed, so that fewer came; `Store` after the one in
/// which the keep failed, since every later reply could only say so.
pub fn serve_each<C: Connections, K: Keep + Drop>(
    alloc: Global,
    connections: &mut C,
    count: u64,
    site: &mut Site<K>,
    most: u64,
) -> Result<(), TurnFault>
    ensures each { OnOk result (TakesEach (TakesWell K.is_failed
        (Takes K.Keep C.Input.Source C.Output.Sink C.accepts C.ends (zone_of site.old) most)) count
        (connections.old, keep_of site.old) (connections.new, keep_of site.new)) }
    ensures stopped { result ≡ Err TurnFault.Accept → HasStopped (TakesWell K.is_failed
        (Takes K.Keep C.Input.Source C.Output.Sink C.accepts C.ends (zone_of site.old) most))
        C.accepts count
        (connections.old, keep_of site.old) (connections.new, keep_of site.new) }
    ensures failed { result ≡ Err TurnFault.Store → HasFailed K.is_failed
        (Takes K.Keep C.Input.Source C.Output.Sink C.accepts C.ends (zone_of site.old) most) count
        (connections.old, keep_of site.old) (connections.new, keep_of site.new) }
    ensures zone { zone_of site.new ≡ zone_of site.old }
{
    let mut taken = 0;
    while taken < count {
        serve_well(alloc, connections, site, most)?;
        taken += 1;
    }
    Ok(())
}
