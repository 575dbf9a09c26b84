//! The connections of a listener.
ghost use Rattle.std.specs.Prelude.{ℕ, IfOk};
ghost use Rattle.tcp.specs.Coming.{Accepts, IsAsOpen, IsListening};

use crate::stream::Steady;
use device::{Failure, Reading, Writing};
use site_connections::{Connection, Connections};
use site_serve::{ServeFault, Served};
use std::io::{self, Read};
use std::net::{Ipv4Addr, Shutdown, TcpListener, TcpStream};
use std::time::Duration;

// How many seconds a connection may be still before it is given up.
const STILL: u64 = 30;

// How many pieces are thrown away of what comes after the last reply.
const PIECES: u32 = 60;

/// A connection over TCP.
pub type TcpConnection = Connection<Reading<Steady<TcpStream>>, Writing<Steady<TcpStream>>>;

/// The connections of a listener. None of them says what its bytes are. Each that comes is counted,
/// and the last of them closes the port.
#[derive(Drop)]
pub struct Listener {
    // None once the last connection has come. Who comes after it is refused at once, and may ask
    // the next server: in the queue of a listener it would be reset as this one ends.
    listener: Option<TcpListener>,
    // How many are to come.
    left: u64,
    // The one that is served.
    stream: Option<TcpStream>,
}

impl Listener {
    // So many that come to it.
    fn new(listener: TcpListener, count: u64) -> Listener
        ensures { IsListening result count }
    {
        Listener {
            listener: Some(listener),
            left: count,
            stream: None,
        }
    }

    // The stream that comes next.
    fn next_stream(&mut self) -> Result<TcpStream, Failure>
        ensures { Accepts self.old result self.new }
    {
        let Some(listener) = &self.listener else {
            return Err(Failure);
        };
        let Ok((stream, _)) = listener.accept() else {
            return Err(Failure);
        };
        self.left = self.left.saturating_sub(1);
        if self.left == 0 {
            self.listener = None;
        }
        Ok(stream)
    }
}

// A connection that is given up where it is still, for reading and for writing. The last piece of its
// replies is sent at once, and not held back until the one before is acknowledged (RFC 896).
fn set_up(stream: &TcpStream) -> io::Result<TcpConnection> {
    let still = Some(Duration::from_secs(STILL));
    stream.set_read_timeout(still)?;
    stream.set_write_timeout(still)?;
    stream.set_nodelay(true)?;
    Ok(Connection {
        source: Reading::new(Steady::new(stream.try_clone()?)),
        sink: Writing::new(Steady::new(stream.try_clone()?)),
    })
}

// Lets the peer read its replies: one whose connection is closed over bytes that were not read may
// lose them (RFC 9112, 9.6).
fn hang_up(stream: &TcpStream) {
    let mut reader = stream;
    let mut piece = [0; 4096];
    let waits = stream.set_read_timeout(Some(Duration::from_secs(1)));
    if waits.is_err() || stream.shutdown(Shutdown::Write).is_err() {
        return;
    }
    for _ in 0..PIECES {
        match reader.read(&mut piece) {
            Ok(count) if count > 0 => {}
            _ => return,
        }
    }
}

/// Connections that come to a port of this machine.
pub trait Listen: Sized + Connections + Drop {
    /// Whether they come to a port, and at most so many are taken.
    ghost is_at: { Self → ℕ → ℕ → Type 0 };

    /// So many that come to a port, at most.
    fn listen(rt: &HostRuntime, port: u16, count: u64) -> Result<Self, Failure>
        ensures { IfOk result (λ connections. is_at connections port count) };
}

impl Listen for Listener {
    // No clause of a socket says at which port it listens.
    ghost is_at = { λ listener _ count. IsListening listener count };

    fn listen(rt: &HostRuntime, port: u16, count: u64) -> Result<Listener, Failure> {
        match TcpListener::bind(rt, (Ipv4Addr::LOCALHOST, port)) {
            Ok(listener) => Ok(Listener::new(listener, count)),
            Err(_) => Err(Failure),
        }
    }
}

impl Connections for Listener {
    type Input = Reading<Steady<TcpStream>>;

    type Output = Writing<Steady<TcpStream>>;

    ghost accepts = { λ old result new. Accepts old result new };

    ghost ends = { λ old _ _ new. IsAsOpen old new };

    fn accept(&mut self) -> Result<Option<TcpConnection>, Failure> {
        let stream = self.next_stream()?;
        match set_up(&stream) {
            Ok(connection) => {
                self.stream = Some(stream);
                Ok(Some(connection))
            }
            Err(_) => Ok(None),
        }
    }

    fn end(&mut self, _connection: TcpConnection, report: Result<Served, ServeFault>)
        ensures { IsAsOpen self.old self.new }
    {
        if let Some(stream) = self.stream.take()
            && report.is_ok()
        {
            hang_up(&stream);
        }
    }
}
