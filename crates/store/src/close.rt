//! A connection over two files is closed, and a keep ended.
ghost use Rattle.std.specs.Prelude.{◌≡◌, ◌≢◌, IfErr, IfOk, IsErrOf, IsTrue, OnErr, OnOk};
ghost use Rattle.house_rows.specs.declared.fault.KeepFault.TheVariants.{Damaged};
ghost use Rattle.sqlite_disk.specs.Disk.{MoreFaults};
ghost use Rattle.sqlite_store.specs.FileStore.{faults, files as store_files, is_shielded};
ghost use Rattle.sqlite_store.specs.FileStore.{recovers, view};
ghost use Rattle.sqlite_store.specs.declared.store.FileStore.{FileStore};
ghost use Rattle.sqlite_trees.specs.View.{IsClean, IsQuiet};
ghost use Rattle.sqlite_wal.specs.Reads.{AreClean};
ghost use Rattle.store.specs.Kept.{IsKept, LeavesHouses};
ghost use Rattle.store.specs.Closing.{IsClosed, IsCopied, IsEmptied, IsEnded, IsLeft, IsUnclosed};
ghost use Rattle.store.specs.InOrder.{order_state};

use crate::keep::SqlKeep;
use house_rows::{Ends, KeepFault};
use sqlite::{Alter, Connection, FileStore};
use sqlite_disk::{Disk, Files};
use sqlite_trees::error::StoreError;
use sqlite_trees::store::Store;
use tree_order::Renumbered;

// Which fault it is that a store can't be closed.
fn close_fault(error: StoreError) -> KeepFault
    ensures sound { result ≢ Damaged }
    ensures store { result ≡ KeepFault.Store → error ≢ StoreError.OutOfMemory }
{
    match error {
        StoreError::OutOfMemory => KeepFault::Memory,
        _ => KeepFault::Store,
    }
}

// Copies the log of a store into its database file, less what is not committed, and gives both
// back.
fn close_store<D: Disk + Drop>(store: FileStore<D>) -> Result<Files<D>, (KeepFault, FileStore<D>)>
    ensures emptied { IfOk result (λ files. (last : FileStore D D.Disk)
        × (store_files last ≡ (files.log, files.db)) × IsEmptied store last) }
    ensures usable { IfOk result (λ files. IsTrue (D.Disk.is_usable files.log)
        × IsTrue (D.Disk.is_usable files.db)) }
    ensures left { IfErr result (λ e. IsQuiet view faults recovers is_shielded store e.1) }
    ensures sound { IfErr result (λ e. e.0 ≢ Damaged) }
    ensures cause { IfErr result (λ e. e.0 ≡ KeepFault.Store → IsClean (view e.1)
        → IsTrue (view store).is_open → MoreFaults (faults store) (faults e.1)) }
{
    let mut store = store;
    store.rollback();
    match store.checkpoint() {
        Ok(()) => Ok(store.close()),
        Err(error) => Err((close_fault(error), store)),
    }
}

/// Closes a connection over two files that shows a house in order, and gives the files back. What
/// it has not committed is undone. The database file then holds the house alone, with no need of
/// its log, in the order that it had there.
///
/// After an error the store is given back: a crash finds nothing that it could not have found
/// before, but for the order. The fault is `Store` only where the disk failed or refused during the
/// closing, or the connection was shut before.
pub fn close_connection<D: Disk + Drop>(
    conn: Connection<Renumbered<FileStore<D>>>,
) -> Result<Files<D>, (KeepFault, FileStore<D>)>
    requires { LeavesHouses (order_state conn) }
    ensures copied { IfOk result (λ files. AreClean D.Disk files.log files.db
        → IsCopied conn files) }
    ensures usable { IfOk result (λ files. IsTrue (D.Disk.is_usable files.log)
        × IsTrue (D.Disk.is_usable files.db)) }
    ensures left { IfErr result (λ e. IsClosed conn e.1) }
    ensures sound { IfErr result (λ e. e.0 ≢ Damaged) }
    ensures cause { IfErr result (λ e. e.0 ≡ KeepFault.Store → IsClean (view e.1)
        → IsTrue (order_state conn).is_open
        → MoreFaults (order_state conn).faults (faults e.1)) }
{
    close_store(conn.into_store().into_inner())
}

impl<S: Alter + Drop> SqlKeep<S> {
    /// The connection of the keep, which ends so.
    pub fn into_connection(self) -> Connection<S>
        ensures conn { result ≡ self.conn }
        ensures kept { IsKept S.Store self }
    {
        let SqlKeep { conn, .. } = self;
        conn
    }
}

/// Ends a keep, and gives its files back. The database file then holds what was committed last, and
/// that alone, with no need of its log, in the order that it had there. Where no call has answered
/// Store that is the house. After an `Err` a crash of file and log leaves nothing that it could not
/// have left before, but for the order. `Store` comes only where the disk failed or refused as the keep
/// was ended, or its connection was shut before.
pub fn close_files<D: Disk + Drop>(
    keep: SqlKeep<Renumbered<FileStore<D>>>,
) -> (Result<(), KeepFault>, Files<D>)
    ensures ended { OnOk result.0 (IsEnded D.Disk keep result.1) }
    ensures left { OnErr result.0 (IsLeft D.Disk keep result.1) }
    ensures sound { ¬ (IsErrOf result.0 Damaged) }
    ensures cause { IfErr result.0 (IsUnclosed D.Disk keep result.1) }
{
    match close_connection(keep.into_connection()) {
        Ok(files) => (Ok(()), files),
        Err((fault, store)) => (Err(fault), store.close()),
    }
}

impl<D: Disk + Drop> Ends for SqlKeep<Renumbered<FileStore<D>>> {
    type Left = Files<D>;

    ghost is_ended = { IsEnded D.Disk };

    ghost is_left = { IsLeft D.Disk };

    fn end(self) -> (Result<(), KeepFault>, Files<D>) {
        close_files(self)
    }
}
