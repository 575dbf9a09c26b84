//! Houses on two files.
use crate::keeps::make_keep;
use house_rows::KeepFault;
use house_script::{ScriptFault, settings};
use sqlite::{Alter, Connection, FileStore, Options};
use sqlite_disk::{Disk, Files};
use std::alloc::Global;
use stop_files::{Pair, Stopping};
use store::SqlKeep;
use tree_order::Renumbered;

/// What opens a database. What works on a house there is over any store: the prover takes long over
/// a keep whose store is named in full.
pub(crate) trait Opens<S: Alter> {
    /// A connection.
    fn connection(&self) -> Result<Connection<S>, KeepFault>;

    /// The keep of the house that is there.
    fn keep(&self) -> Result<SqlKeep<Renumbered<S>>, KeepFault>;
}

// What the salts of the logs are drawn from.
const SEED: u64 = 2026;

/// How much room a connection has.
#[derive(Clone, Copy)]
pub(crate) struct Room {
    /// How many pages that were read are kept in memory.
    pub(crate) read: usize,
    /// How many written pages are kept in memory before they go to the log.
    pub(crate) written: usize,
    /// How many pages the log has before it is copied into the database file.
    pub(crate) logged: usize,
}

impl Room {
    /// The room that a line spells: `create READ WRITTEN LOGGED`.
    pub(crate) fn of_line(line: &str) -> Result<Room, ScriptFault> {
        let mut words = line.split_whitespace();
        if words.next() != Some("create") {
            return Err(ScriptFault::Script);
        }
        Ok(Room {
            read: size(words.next())?,
            written: size(words.next())?,
            logged: size(words.next())?,
        })
    }
}

// The size that a word spells.
fn size(word: Option<&str>) -> Result<usize, ScriptFault> {
    word.unwrap_or("").parse().map_err(|_| ScriptFault::Script)
}

/// The database on two files.
#[derive(Drop)]
pub(crate) struct OnFiles<'p> {
    pub(crate) alloc: Global,
    pub(crate) pair: &'p Pair,
    pub(crate) room: Room,
}

impl<'p> Opens<FileStore<Stopping<'p>>> for OnFiles<'p> {
    fn connection(&self) -> Result<Connection<FileStore<Stopping<'p>>>, KeepFault> {
        connect(self.alloc, self.pair.files(), self.room)
    }

    fn keep(&self) -> Result<SqlKeep<Renumbered<FileStore<Stopping<'p>>>>, KeepFault> {
        open_files(self.alloc, self.pair.files(), self.room)
    }
}

// The options of a connection with such room.
fn options(room: Room) -> Options {
    Options {
        cache_pages: room.read,
        spill_pages: room.written,
        checkpoint_frames: room.logged,
        seed: SEED,
    }
}

// A connection with the database on files.
fn connect<D: Disk + Drop>(
    alloc: Global,
    files: Files<D>,
    room: Room,
) -> Result<Connection<FileStore<D>>, KeepFault> {
    if !files.may_be_used() {
        return Err(KeepFault::Store);
    }
    match Connection::open_files(alloc, files, options(room)) {
        Ok(conn) => Ok(conn),
        Err(_) => Err(KeepFault::Store),
    }
}

// The keep of the house on files.
fn open_files<D: Disk + Drop>(
    alloc: Global,
    files: Files<D>,
    room: Room,
) -> Result<SqlKeep<Renumbered<FileStore<D>>>, KeepFault> {
    match store_files::open_files(alloc, files, options(room)) {
        Ok(keep) => Ok(keep),
        Err((fault, _)) => Err(fault),
    }
}

/// The keep of a new house.
pub(crate) fn create<S: Alter + Drop, O: Opens<S>>(
    alloc: Global,
    place: &O,
) -> Result<SqlKeep<Renumbered<S>>, KeepFault> {
    let settings = settings(alloc).map_err(|_| KeepFault::Memory)?;
    make_keep(alloc, place.connection()?, &settings)
}
