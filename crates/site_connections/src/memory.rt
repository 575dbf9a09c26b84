//! Connections in memory, for tests.
ghost use Rattle.std.specs.Prelude.{◌≡◌, [], ◌∷◌, ◌++◌, true, OnErr, OnOk};

use crate::connection::{Connection, Ended};
use crate::connections::Connections;
use device::{Failure, MemorySink, MemorySource};
use site_serve::{ServeFault, Served};
use std::alloc::{AllocError, Global};
use std::collections::VecDeque;

/// Connections that come in turn, and then no more. Those that were served are kept, as long as no
/// memory was refused for them.
#[derive(Drop)]
pub struct MemoryConnections<'b> {
    waiting: VecDeque<Connection<MemorySource<'b>, MemorySink>>,
    ended: Vec<Ended<MemorySource<'b>, MemorySink>>,
    is_whole: bool,
}

impl<'b> MemoryConnections<'b> {
    ghost use Rattle.site_connections.specs.Memory.{ended_of, is_whole, waiting_of};

    /// None yet.
    pub fn new(alloc: Global) -> MemoryConnections<'b>
        ensures waiting { waiting_of result ≡ [] }
        ensures ended { ended_of result ≡ [] }
        ensures whole { is_whole result ≡ true }
    {
        MemoryConnections {
            waiting: VecDeque::new(alloc),
            ended: Vec::new(alloc),
            is_whole: true,
        }
    }

    /// One more comes after those that do.
    pub fn add(
        &mut self,
        connection: Connection<MemorySource<'b>, MemorySink>,
    ) -> Result<(), AllocError>
        ensures waiting { OnOk result (waiting_of self.new
            ≡ waiting_of self.old ++ connection.entry ∷ []) }
        ensures err { OnErr result (waiting_of self.new ≡ waiting_of self.old) }
        ensures ended { ended_of self.new ≡ ended_of self.old }
        ensures whole { is_whole self.new ≡ is_whole self.old }
    {
        self.waiting.push_back(connection)?;
        Ok(())
    }

    /// Those that were served, in turn.
    pub fn endings(&self) -> &[Ended<MemorySource<'b>, MemorySink>]
        ensures { result.now ≡ ended_of self.now }
    {
        self.ended.as_slice()
    }

    /// Whether they are all that were.
    pub fn is_whole(&self) -> bool
        ensures { result ≡ is_whole self.now }
    {
        self.is_whole
    }
}

impl<'b> Connections for MemoryConnections<'b> {
    type Input = MemorySource<'b>;

    type Output = MemorySink;

    ghost use Rattle.site_connections.specs.Memory.{GivesNext, KeepsEnded};

    ghost accepts = { GivesNext };

    ghost ends = { KeepsEnded };

    fn accept(&mut self) -> Result<Option<Connection<MemorySource<'b>, MemorySink>>, Failure> {
        match self.waiting.pop_front() {
            Some(connection) => Ok(Some(connection)),
            None => Err(Failure),
        }
    }

    fn end(
        &mut self,
        connection: Connection<MemorySource<'b>, MemorySink>,
        report: Result<Served, ServeFault>,
    )
        ensures { KeepsEnded self.old connection.entry report self.new }
    {
        if self.ended.push(Ended { connection, report }).is_err() {
            self.is_whole = false;
        }
    }
}
