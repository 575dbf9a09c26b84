//! Keeps of the house in two files, over copies of them.
ghost use Rattle.std.specs.Prelude.{◌≡◌, ◌≢◌, ◌≤◌, false, IfErr, IfOk, IsTrue, OnOk};
ghost use Rattle.house_rows.specs.declared.fault.KeepFault.TheVariants.{Damaged};
ghost use Rattle.sqlite.specs.Files.{faults_of, image_of};
ghost use Rattle.sqlite_wal.specs.Reads.{AreClean, OnlyReads};
ghost use Rattle.store.specs.Kept.{is_failed};
ghost use Rattle.store_files.specs.InOrder.{HasFoundHouse, HasTablesHeld};

use crate::copied_files::copy_files;
use crate::openings::open_files;
use house_rows::KeepFault;
use sqlite::{FileStore, Options};
use sqlite_disk::{Disk, Files, Memory};
use std::alloc::Global;
use std::io;
use store::SqlKeep;
use tree_order::Renumbered;

// The salts of a log are drawn from it. That of a copy is read by nobody else.
const SEED: u64 = 1;

/// A disk in memory. It fails only where memory runs out.
pub trait InMemory: Sized + Disk + Drop {
    /// A copy of a log and of a database file, which are only read.
    fn copy_files<D: Disk>(alloc: Global, files: &mut Files<D>) -> io::Result<Files<Self>>
        requires log { IsTrue (D.Disk.is_usable files.old.log) }
        requires db { IsTrue (D.Disk.is_usable files.old.db) }
        ensures log { IfOk result (λ copy. IsTrue (D.Disk.is_clean files.new.log)
            → Self.Disk.seen copy.log ≡ D.Disk.seen files.old.log) }
        ensures db { IfOk result (λ copy. IsTrue (D.Disk.is_clean files.new.db)
            → Self.Disk.seen copy.db ≡ D.Disk.seen files.old.db) }
        ensures usable { IfOk result (λ copy. IsTrue (Self.Disk.is_usable copy.log)
            × IsTrue (Self.Disk.is_usable copy.db)) }
        ensures reads_log { OnlyReads D.Disk files.old.log files.new.log }
        ensures reads_db { OnlyReads D.Disk files.old.db files.new.db }
        ensures unfailed { OnOk result (faults_of D.Disk files.new ≡ faults_of D.Disk files.old) }
        ensures counts { faults_of D.Disk files.old ≤ faults_of D.Disk files.new };
}

impl InMemory for Memory {
    fn copy_files<D: Disk>(alloc: Global, files: &mut Files<D>) -> io::Result<Files<Memory>> {
        copy_files(alloc, files)
    }
}

// Why files can't be copied.
fn copy_fault(error: &io::Error) -> KeepFault
    ensures { result ≢ Damaged }
{
    if error.kind() == io::ErrorKind::OutOfMemory {
        KeepFault::Memory
    } else {
        KeepFault::Store
    }
}

// Why a copy can't be opened. Its disk fails only where memory runs out.
fn open_fault(fault: KeepFault) -> KeepFault {
    match fault {
        KeepFault::Damaged => KeepFault::Damaged,
        KeepFault::Memory | KeepFault::Store => KeepFault::Memory,
    }
}

// The keep of the house that a log and a database file hold in any order, over a copy of them.
fn open_copy<D: Disk, M: InMemory>(
    alloc: Global,
    files: &mut Files<D>,
) -> Result<SqlKeep<Renumbered<FileStore<M>>>, KeepFault>
    requires log { IsTrue (D.Disk.is_usable files.old.log) }
    requires db { IsTrue (D.Disk.is_usable files.old.db) }
    ensures holds { IfOk result (λ keep. AreClean D.Disk files.new.log files.new.db
        → HasTablesHeld (image_of D.Disk files.old) keep) }
    ensures there { IfOk result (λ keep. AreClean D.Disk files.new.log files.new.db
        → HasFoundHouse (image_of D.Disk files.old) keep) }
    ensures works { IfOk result (λ keep. is_failed keep ≡ false) }
    ensures reads_log { OnlyReads D.Disk files.old.log files.new.log }
    ensures reads_db { OnlyReads D.Disk files.old.db files.new.db }
    ensures unfailed { OnOk result (faults_of D.Disk files.new ≡ faults_of D.Disk files.old) }
    ensures counts { faults_of D.Disk files.old ≤ faults_of D.Disk files.new }
    ensures damaged { IfErr result (λ fault. fault ≡ Damaged
        → faults_of D.Disk files.new ≡ faults_of D.Disk files.old) }
{
    match M::copy_files(alloc, files) {
        Ok(copy) => match open_files(alloc, copy, Options::new(SEED)) {
            Ok(keep) => Ok(keep),
            Err((fault, _)) => Err(open_fault(fault)),
        },
        Err(error) => Err(copy_fault(&error)),
    }
}

/// Two keeps of the house that a log and a database file hold in any order, each over a copy of
/// them in memory. Both have the tables of that house, as long as the disk doesn't lie. Files that hold
/// nothing are no house.
///
/// The files are only read, also where there is an error: they show what they did, and a crash
/// leaves nothing else than before. Where one of them counts a call that failed, this is neither Ok
/// nor `Damaged`.
///
/// `Damaged` where they hold no house that `open_files` opens, `Store` where they can't be read,
/// and `Memory` where a copy finds no room.
pub fn open_copies<D: Disk, M: InMemory>(
    alloc: Global,
    files: &mut Files<D>,
) -> Result<
    (
        SqlKeep<Renumbered<FileStore<M>>>,
        SqlKeep<Renumbered<FileStore<M>>>,
    ),
    KeepFault,
>
    requires log { IsTrue (D.Disk.is_usable files.old.log) }
    requires db { IsTrue (D.Disk.is_usable files.old.db) }
    ensures left { IfOk result (λ keeps. AreClean D.Disk files.new.log files.new.db
        → HasTablesHeld (image_of D.Disk files.old) keeps.0) }
    ensures right { IfOk result (λ keeps. AreClean D.Disk files.new.log files.new.db
        → HasTablesHeld (image_of D.Disk files.old) keeps.1) }
    ensures left_there { IfOk result (λ keeps. AreClean D.Disk files.new.log files.new.db
        → HasFoundHouse (image_of D.Disk files.old) keeps.0) }
    ensures right_there { IfOk result (λ keeps. AreClean D.Disk files.new.log files.new.db
        → HasFoundHouse (image_of D.Disk files.old) keeps.1) }
    ensures left_works { IfOk result (λ keeps. is_failed keeps.0 ≡ false) }
    ensures right_works { IfOk result (λ keeps. is_failed keeps.1 ≡ false) }
    ensures reads_log { OnlyReads D.Disk files.old.log files.new.log }
    ensures reads_db { OnlyReads D.Disk files.old.db files.new.db }
    ensures unfailed { OnOk result (faults_of D.Disk files.new ≡ faults_of D.Disk files.old) }
    ensures counts { faults_of D.Disk files.old ≤ faults_of D.Disk files.new }
    ensures damaged { IfErr result (λ fault. fault ≡ Damaged
        → faults_of D.Disk files.new ≡ faults_of D.Disk files.old) }
{
    let left = open_copy(alloc, files)?;
    match open_copy(alloc, files) {
        Ok(right) => Ok((left, right)),
        Err(fault) => Err(fault),
    }
}
