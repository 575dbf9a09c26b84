//! How houses are made, in memory and in databases, and where a database lies.
ghost use Rattle.std.specs.Prelude.{◌≡◌, ◌≤◌, [], IfOk};
ghost use Rattle.house_rows.specs.Tables.{tables_of};
ghost use Rattle.sqlite.specs.Held.{state};
ghost use Rattle.sqlite_trees.specs.View.{doubt};
ghost use Rattle.store.specs.Kept.{IsHonest, content};
ghost use Rattle.store_house.specs.Named.{IsArranged};
ghost use Rattle.store_rows.specs.House.{IsHouse};
ghost use Rattle.store_house.specs.Over.{over_numbers};

use house_rows::{Keep, KeepFault, Settings};
use house_script::{FixedBytes, Makes};
use site::Site;
use sqlite::{Alter, Connection, Error, ErrorCode, File, FileStore, MemStore};
use std::alloc::Global;
use store::SqlKeep;
use store_list::ListKeep;
use store_making::make_house;
use store_open::open_house;
use tree_order::Renumbered;

/// Makes houses in memory.
#[derive(Drop)]
pub(crate) struct Lists;

impl Makes<ListKeep> for Lists {
    fn empty(&self, alloc: Global, settings: Settings) -> Result<ListKeep, KeepFault> {
        ListKeep::create(alloc, &FixedBytes, settings)
    }
}

/// What connects with databases.
pub(crate) trait Connects<S: Alter> {
    /// A connection.
    fn connection(&self) -> Result<Connection<S>, KeepFault>;
}

/// Connects each time with a new database in memory.
#[derive(Drop)]
pub(crate) struct InMemory {
    pub(crate) alloc: Global,
}

impl Connects<MemStore> for InMemory {
    fn connection(&self) -> Result<Connection<MemStore>, KeepFault> {
        Connection::open_in_memory(self.alloc).map_err(|_| KeepFault::Memory)
    }
}

/// Connects with the database in a file, which is made where it is missing.
#[derive(Drop)]
pub(crate) struct InFile<'f> {
    rt: &'f HostRuntime,
    path: &'f str,
}

impl<'f> InFile<'f> {
    /// The file of a name.
    pub(crate) fn new(rt: &'f HostRuntime, path: &'f str) -> InFile<'f> {
        InFile { rt, path }
    }
}

impl Connects<FileStore<File>> for InFile<'_> {
    fn connection(&self) -> Result<Connection<FileStore<File>>, KeepFault> {
        Connection::open(self.rt, self.path).map_err(|error| match error {
            Error::SqliteFailure(ErrorCode::OutOfMemory) => KeepFault::Memory,
            _ => KeepFault::Store,
        })
    }
}

/// Makes each house in a database of its own.
#[derive(Drop)]
pub(crate) struct Databases<'c, C> {
    pub(crate) place: &'c C,
}

impl<S: Alter + Drop, C: Connects<S>> Makes<SqlKeep<Renumbered<S>>> for Databases<'_, C> {
    fn empty(
        &self,
        alloc: Global,
        settings: Settings,
    ) -> Result<SqlKeep<Renumbered<S>>, KeepFault> {
        make_keep(alloc, self.place.connection()?, &settings)
    }
}

/// The keep of a new house, which is made over a connection.
pub(crate) fn make_keep<S: Alter + Drop>(
    alloc: Global,
    conn: Connection<S>,
    settings: &Settings,
) -> Result<SqlKeep<Renumbered<S>>, KeepFault>
    ensures empty { IfOk result (λ keep. IsHonest (over_numbers S.Store) keep
        → content (over_numbers S.Store) keep ≡ tables_of settings.now []) }
{
    let mut conn = conn;
    make_house(&mut conn, settings)?;
    open_keep(alloc, conn)
}

/// The keep of the house that a connection holds.
pub(crate) fn open_keep<S: Alter + Drop>(
    alloc: Global,
    conn: Connection<S>,
) -> Result<SqlKeep<Renumbered<S>>, KeepFault>
    ensures shown { IfOk result (λ keep. (doubt (state S.Store conn).is_clean
        ≤ doubt (state (over_numbers S.Store) keep.conn).is_clean)
        × (IsHonest (over_numbers S.Store) keep
        → IsHouse (state (over_numbers S.Store) keep.conn).now
        × IsArranged (state S.Store conn).committed.trees
        (state (over_numbers S.Store) keep.conn).now.trees)) }
{
    match open_house(alloc, conn) {
        Ok(house) => Ok(SqlKeep::of_house(alloc, house)),
        Err((fault, _)) => Err(fault),
    }
}

/// The site over a house.
pub(crate) fn site_over<K: Keep + Drop>(
    alloc: Global,
    house: Result<K, KeepFault>,
) -> Result<Site<K>, KeepFault> {
    match Site::new(alloc, house?) {
        Ok(site) => Ok(site),
        Err((fault, _)) => Err(fault),
    }
}
