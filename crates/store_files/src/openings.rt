//! A house in two files is opened, in whatever order its trees lie.
ghost use Rattle.std.specs.Prelude.{◌≡◌, ◌⊎◌, false, IfErr, IfOk};
ghost use Rattle.house_rows.specs.Tables.{Tables};
ghost use Rattle.house_rows.specs.declared.fault.KeepFault.TheVariants.{Damaged};
ghost use Rattle.sqlite.specs.Files.{AreFound, Finds, HoldsDatabase, IsCleanLeft, IsOpened};
ghost use Rattle.sqlite.specs.Files.{LeavesFiles, faults_left, faults_of, file_state, image_of};
ghost use Rattle.sqlite.specs.State.{HasCleanDisk};
ghost use Rattle.sqlite.specs.declared.error.Error.TheVariants.{SqliteFailure};
ghost use Rattle.sqlite.specs.declared.error.ErrorCode.TheVariants.{DatabaseCorrupt, NotADatabase};
ghost use Rattle.sqlite_disk.specs.Disk.{MoreFaults};
ghost use Rattle.sqlite_trees.specs.Tree.{Trees};
ghost use Rattle.sqlite_wal.specs.Reads.{AreClean};
ghost use Rattle.store_house.specs.Named.{IsArranged, tables_held};
ghost use Rattle.store_house.specs.Opening.{AreNumbered, AreSet};
ghost use Rattle.store_rows.specs.Fitting.{HouseRowFits};
ghost use Rattle.store_rows.specs.House.{IsHouse};
ghost use Rattle.store_rows.specs.Tables.{house_row_in};
ghost use Rattle.store.specs.Kept.{IsHonest, MayLeave, content, is_failed};
ghost use Rattle.store.specs.InOrder.{order_state, over_order};
ghost use Rattle.store_files.specs.InOrder.{FindsLeft, HoldsOther, HoldsSoundHouse};
ghost use Rattle.store_files.specs.InOrder.{IsCrashed, LeavesFilesInOrder};

use house_rows::KeepFault;
use sqlite::{Connection, Error, ErrorCode, FileStore, Leftover, Options};
use sqlite_disk::{Disk, Files};
use std::alloc::Global;
use store::SqlKeep;
use store_open::open_house;
use tree_order::Renumbered;

// Which fault it is that files can't be opened.
fn file_fault(error: &Error) -> KeepFault
    ensures { result ≡ Damaged → (error.now ≡ SqliteFailure NotADatabase)
        ⊎ (error.now ≡ SqliteFailure DatabaseCorrupt) }
{
    match error {
        Error::SqliteFailure(ErrorCode::OutOfMemory) => KeepFault::Memory,
        Error::SqliteFailure(ErrorCode::NotADatabase | ErrorCode::DatabaseCorrupt) =>
            KeepFault::Damaged,
        _ => KeepFault::Store,
    }
}

/// The connection with the database that a log and a database file hold. After an error what is
/// left of them is given back.
pub(crate) fn connect<D: Disk + Drop>(
    alloc: Global,
    files: Files<D>,
    options: Options,
) -> Result<Connection<FileStore<D>>, (KeepFault, Leftover<D>)>
    ensures opened { IfOk result (λ c. HasCleanDisk (file_state c) → IsOpened c) }
    ensures found { IfOk result (λ c. HasCleanDisk (file_state c) → Finds files c) }
    ensures left { IfErr result (λ e. IsCleanLeft e.1 → LeavesFiles files e.1) }
    ensures damaged { IfErr result (λ e. e.0 ≡ Damaged → IsCleanLeft e.1
        → HoldsOther (image_of D.Disk files)
        ⊎ MoreFaults (faults_of D.Disk files) (faults_left e.1)) }
{
    if !files.may_be_used() {
        return Err((KeepFault::Store, Leftover::Files(files)));
    }
    match Connection::open_files(alloc, files, options) {
        Ok(conn) => Ok(conn),
        Err((error, left)) => Err((file_fault(&error), left)),
    }
}

/// The keep of the house that a log and a database file hold, in whatever order its trees lie. It
/// needs no end of the run before: where a crash has left the files of a keep so, it has one of the
/// tables that the crash may leave, and of a keep that had not failed its own. Files that hold nothing
/// are no house.
///
/// After an error the files are given back, which hold what they held.
pub fn open_files<D: Disk + Drop>(
    alloc: Global,
    files: Files<D>,
    options: Options,
) -> Result<SqlKeep<Renumbered<FileStore<D>>>, (KeepFault, Leftover<D>)>
    ensures honest { IfOk result (λ k. IsHonest over_order k
        → AreClean D.Disk files.log files.db) }
    ensures holds { IfOk result (λ k. IsHonest over_order k → (db : Trees)
        → HoldsDatabase (image_of D.Disk files) db → content over_order k ≡ tables_held db) }
    ensures house { IfOk result (λ k. IsHonest over_order k → IsHouse (order_state k.conn).now) }
    ensures arranged { IfOk result (λ k. IsHonest over_order k → (db : Trees)
        → HoldsDatabase (image_of D.Disk files) db
        → IsArranged db (order_state k.conn).now.trees) }
    ensures there { IfOk result (λ k. IsHonest over_order k → (db : Trees)
        × AreFound D.Disk files db × IsArranged db (order_state k.conn).now.trees
        × (content over_order k ≡ tables_held db)) }
    ensures found { IfOk result (λ k. IsHonest over_order k → (before : _)
        → IsCrashed D.Disk before (image_of D.Disk files) → FindsLeft D.Disk before k) }
    ensures only { IfOk result (λ k. IsHonest over_order k → (tables : Tables)
        → MayLeave over_order k tables → tables ≡ content over_order k) }
    ensures works { IfOk result (λ k. is_failed k ≡ false) }
    ensures row { IfOk result (λ k. IsHonest over_order k
        → HouseRowFits (house_row_in (order_state k.conn).now.trees)) }
    ensures numbered { IfOk result (λ k. IsHonest over_order k
        → AreNumbered (order_state k.conn).now.trees) }
    ensures set { IfOk result (λ k. IsHonest over_order k
        → AreSet (order_state k.conn).now.trees) }
    ensures left { IfErr result (λ e. IsCleanLeft e.1 → LeavesFilesInOrder files e.1) }
    ensures damaged { IfErr result (λ e. e.0 ≡ Damaged → IsCleanLeft e.1
        → (¬ (HoldsSoundHouse (image_of D.Disk files)))
        ⊎ MoreFaults (faults_of D.Disk files) (faults_left e.1)) }
{
    let conn = connect(alloc, files, options)?;
    match open_house(alloc, conn) {
        Ok(house) => Ok(SqlKeep::of_house(alloc, house)),
        Err((fault, store)) => Err((fault, Leftover::Store(store.into_inner()))),
    }
}
