//! A stream that is served over a connection, of which the program has both ends.
use crate::fault::SiteFault;
use crate::server::{Left, serve_over};
use crate::stream_script::Stage;
use device::{Reading, Writing};
use std::alloc::Global;
use std::io;
use std::io::Write;
use std::net::{Ipv4Addr, Shutdown, TcpListener, TcpStream};

// A connection, from the end that asks to the end that answers. The system lets it wait until it is
// accepted.
fn connect_ends(rt: &HostRuntime) -> io::Result<(TcpStream, TcpStream)> {
    let listener = TcpListener::bind(rt, (Ipv4Addr::LOCALHOST, 0))?;
    let asking = TcpStream::connect(rt, listener.local_addr()?)?;
    let (answering, _) = listener.accept()?;
    Ok((asking, answering))
}

// Sends bytes, for which the system has room, and then their end.
fn send(asking: &TcpStream, bytes: &[u8]) -> io::Result<()> {
    let mut writer = asking;
    writer.write_all(bytes)?;
    asking.shutdown(Shutdown::Write)
}

// Serves the stream that came, up to its end, and then ends the replies.
fn reply(alloc: Global, stage: &Stage, answering: &TcpStream) -> Result<(), SiteFault> {
    let mut source = Reading::new(answering);
    let mut sink = Writing::new(answering);
    let left = serve_over(alloc, &stage.setup, &mut source, &mut sink, u64::MAX)?;
    let Left { report, .. } = left;
    match report {
        Ok(_) => answering
            .shutdown(Shutdown::Write)
            .map_err(|_| SiteFault::Socket),
        Err(_) => Err(SiteFault::Socket),
    }
}

/// Reports what the end that asks reads, once it has sent the stream.
pub(crate) fn tell_received(
    rt: &HostRuntime,
    alloc: Global,
    stage: &Stage,
) -> Result<Option<String>, SiteFault> {
    let (asking, answering) = connect_ends(rt).map_err(|_| SiteFault::Socket)?;
    send(&asking, stage.stream.bytes()).map_err(|_| SiteFault::Socket)?;
    reply(alloc, stage, &answering)?;
    match io::read_to_string(alloc, &asking) {
        Ok(report) => Ok(Some(report)),
        Err(_) => Err(SiteFault::Socket),
    }
}
