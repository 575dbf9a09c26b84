//! Connections that are served in turn over one house.
use crate::fault::SiteFault;
use crate::server::{begin, new_site};
use crate::stream::Stream;
use crate::stream_script::Stage;
use device::{MemorySink, MemorySource};
use house_rows::Keep;
use site::Site;
use site_connections::{Connection, Ended, MemoryConnections, serve_each};
use std::alloc::{AllocError, Global};
use std::fmt::Write;

// The connections that wait, each a stream.
fn waiting_connections<'s>(
    alloc: Global,
    streams: &'s [Stream],
) -> Result<MemoryConnections<'s>, AllocError> {
    let mut connections = MemoryConnections::new(alloc);
    for stream in streams {
        connections.add(Connection {
            source: MemorySource::new(stream.bytes()),
            sink: MemorySink::new(alloc),
        })?;
    }
    Ok(connections)
}

// Writes the bodies of a connection's replies, which are JSON, each on a line, and how it ended.
fn write_ended(
    text: &mut String,
    ended: &Ended<MemorySource<'_>, MemorySink>,
) -> Result<(), SiteFault> {
    let Ok(replies) = str::from_utf8(ended.connection.sink.bytes()) else {
        return Err(SiteFault::Output);
    };
    for line in replies.lines() {
        if line.starts_with('{') {
            let (body, _) = line.split_once("HTTP/").unwrap_or((line, ""));
            writeln!(text, "{body}")?;
        }
    }
    let report = ended.report;
    writeln!(text, "{report:?}")?;
    Ok(())
}

// What each connection was answered and how it ended, and whether so many came.
fn text_of(
    alloc: Global,
    connections: &MemoryConnections<'_>,
    came: bool,
) -> Result<Option<String>, SiteFault> {
    if !connections.is_whole() {
        return Err(SiteFault::Memory);
    }
    let mut text = String::new(alloc);
    for ended in connections.endings() {
        write_ended(&mut text, ended)?;
    }
    write!(text, "all came: {came}")?;
    Ok(Some(text))
}

// Serves so many of the connections that wait, over a house after its setup.
fn tell_over<K: Keep + Drop>(
    alloc: Global,
    stage: &Stage,
    count: u64,
    site: &mut Site<K>,
) -> Result<Option<String>, SiteFault> {
    begin(alloc, site, &stage.setup)?;
    let mut connections = waiting_connections(alloc, &stage.connections)?;
    let came = serve_each(alloc, &mut connections, count, site, u64::MAX).is_ok();
    text_of(alloc, &connections, came)
}

/// Serves so many of the connections that wait, in turn over a new house that begins by the
/// messages of the setup. Reports what each is answered and how it ended, and whether so many came.
pub(crate) fn tell_each(
    alloc: Global,
    stage: &Stage,
    count: u64,
) -> Result<Option<String>, SiteFault> {
    let mut site = new_site(alloc)?;
    tell_over(alloc, stage, count, &mut site)
}
