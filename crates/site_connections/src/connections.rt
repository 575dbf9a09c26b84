//! Where connections come from.
ghost use Rattle.std.specs.Prelude.{Option, Result};
ghost use Rattle.device.specs.declared.failure.Failure.{Failure};
ghost use Rattle.site_serve.specs.declared.server.ServeFault.{ServeFault};
ghost use Rattle.site_serve.specs.declared.server.Served.{Served};
ghost use Rattle.site_connections.specs.declared.connection.Connection.{Connection};

use crate::connection::Connection;
use device::{Failure, Sink, Source};
use site_serve::{ServeFault, Served};

/// Connections that come one after the other.
pub trait Connections {
    /// Where the messages of a connection come from.
    type Input: Source + Drop;

    /// Where its replies go.
    type Output: Sink + Drop;

    /// What accepting gives, between what there was and what there is.
    ghost accepts: { Self → Result (Option (Connection Self.Input Self.Output)) Failure
        → Self → Type 0 };

    /// What an end leaves of a connection that was served with this result.
    ghost ends: { Self → Connection Self.Input Self.Output → Result Served ServeFault
        → Self → Type 0 };

    /// Waits for the next connection. None is one that came and can't be served.
    fn accept(&mut self) -> Result<Option<Connection<Self::Input, Self::Output>>, Failure>
        ensures { accepts self.old result self.new };

    /// Ends a connection that was served.
    fn end(
        &mut self,
        connection: Connection<Self::Input, Self::Output>,
        report: Result<Served, ServeFault>,
    )
        ensures { ends self.old connection report self.new };
}
