//! A new house in memory, and a stream served over it.
use crate::fault::SiteFault;
use crate::fixed_bytes::FixedBytes;
use crate::player::settings;
use crate::stream::Stream;
use crate::stream_script::Stage;
use device::{MemorySink, MemorySource, Sink, Source};
use house_rows::Keep;
use site::Site;
use site_serve::{ServeFault, Served, serve};
use std::alloc::Global;
use store_list::ListKeep;

/// What serving a stream has left.
#[derive(Drop)]
pub(crate) struct Left {
    /// The result of it.
    pub(crate) report: Result<Served, ServeFault>,
    /// The public record after it.
    pub(crate) record: Vec<u8>,
}

/// A new house, of the zone UTC0.
pub(crate) fn new_site(alloc: Global) -> Result<Site<ListKeep>, SiteFault> {
    let keep = ListKeep::create(alloc, &FixedBytes, settings(alloc, "UTC0")?)?;
    match Site::new(alloc, keep) {
        Ok(site) => Ok(site),
        Err((fault, _)) => Err(SiteFault::from(fault)),
    }
}

/// Answers the messages of a setup.
pub(crate) fn begin<K: Keep + Drop>(
    alloc: Global,
    site: &mut Site<K>,
    setup: &Stream,
) -> Result<(), SiteFault> {
    let mut source = MemorySource::new(setup.bytes());
    let mut sink = MemorySink::new(alloc);
    match serve(alloc, &mut source, &mut sink, site, u64::MAX) {
        Ok(_) => Ok(()),
        Err(_) => Err(SiteFault::Script),
    }
}

// Serves over a house after its setup, and then looks at the record.
fn serve_after<K: Keep + Drop, R: Source, W: Sink>(
    alloc: Global,
    site: &mut Site<K>,
    setup: &Stream,
    source: &mut R,
    sink: &mut W,
    most: u64,
) -> Result<Left, SiteFault> {
    begin(alloc, site, setup)?;
    let report = serve(alloc, source, sink, site, most);
    let record = site.record()?;
    Ok(Left { report, record })
}

/// Serves over a new house that begins by the messages of a setup.
pub(crate) fn serve_over<R: Source, W: Sink>(
    alloc: Global,
    setup: &Stream,
    source: &mut R,
    sink: &mut W,
    most: u64,
) -> Result<Left, SiteFault> {
    let mut site = new_site(alloc)?;
    serve_after(alloc, &mut site, setup, source, sink, most)
}

/// What the first messages of a stream have left, which came whole.
#[derive(Drop)]
pub(crate) struct Prefix {
    /// What was answered.
    pub(crate) replies: MemorySink,
    /// The public record after them.
    pub(crate) record: Vec<u8>,
}

impl Prefix {
    /// Serves at most so many messages of the stream.
    pub(crate) fn new(alloc: Global, stage: &Stage, most: u64) -> Result<Prefix, SiteFault> {
        let mut source = MemorySource::new(stage.stream.bytes());
        let mut replies = MemorySink::new(alloc);
        let left = serve_over(alloc, &stage.setup, &mut source, &mut replies, most)?;
        let Left { record, .. } = left;
        Ok(Prefix { replies, record })
    }
}
