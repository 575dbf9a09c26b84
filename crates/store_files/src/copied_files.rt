//! Files in memory that hold what other files hold.
ghost use Rattle.std.specs.Prelude.{◌≡◌, ◌≤◌, IfOk, IsTrue, OnOk};
ghost use Rattle.sqlite.specs.Files.{faults_of};
ghost use Rattle.sqlite_disk.specs.Memory.{memory_bytes, memory_is_usable};
ghost use Rattle.sqlite_wal.specs.Reads.{OnlyReads};

use sqlite_disk::{Disk, Files, Memory};
use std::alloc::Global;
use std::io;

// All bytes of a file.
fn bytes_of<D: Disk>(alloc: Global, file: &mut D) -> io::Result<Vec<u8>>
    requires { IsTrue (D.Disk.is_usable file.old) }
    ensures bytes { IfOk result (λ bytes. IsTrue (D.Disk.is_clean file.new)
        → bytes.items ≡ D.Disk.seen file.old) }
    ensures reads { OnlyReads D.Disk file.old file.new }
    ensures unfailed { OnOk result (D.Disk.faults file.new ≡ D.Disk.faults file.old) }
    ensures counts { D.Disk.faults file.old ≤ D.Disk.faults file.new }
{
    let length = file.len()?;
    let mut bytes = Vec::new(alloc);
    bytes.resize(length, 0)?;
    file.read_at(0, &mut bytes)?;
    Ok(bytes)
}

// A file in memory that holds these bytes.
fn memory_with(alloc: Global, bytes: &[u8]) -> io::Result<Memory>
    ensures bytes { IfOk result (λ file. memory_bytes file ≡ bytes.now) }
    ensures usable { IfOk result (λ file. IsTrue (memory_is_usable file)) }
{
    let mut file = Memory::new(alloc);
    file.write_at(0, bytes)?;
    file.sync()?;
    Ok(file)
}

// A copy of a file.
fn copy_of<D: Disk>(alloc: Global, file: &mut D) -> io::Result<Memory>
    requires { IsTrue (D.Disk.is_usable file.old) }
    ensures bytes { IfOk result (λ copy. IsTrue (D.Disk.is_clean file.new)
        → memory_bytes copy ≡ D.Disk.seen file.old) }
    ensures usable { IfOk result (λ copy. IsTrue (memory_is_usable copy)) }
    ensures reads { OnlyReads D.Disk file.old file.new }
    ensures unfailed { OnOk result (D.Disk.faults file.new ≡ D.Disk.faults file.old) }
    ensures counts { D.Disk.faults file.old ≤ D.Disk.faults file.new }
{
    let bytes = bytes_of(alloc, file)?;
    memory_with(alloc, &bytes)
}

/// A copy of a log and of a database file, in memory. It holds what reading shows, as long as the
/// disk doesn't lie.
///
/// The files are only read, also where there is an error: they show what they did, and a crash
/// leaves nothing else than before. There is no copy where one of them counts a call that failed.
pub fn copy_files<D: Disk>(alloc: Global, files: &mut Files<D>) -> io::Result<Files<Memory>>
    requires log { IsTrue (D.Disk.is_usable files.old.log) }
    requires db { IsTrue (D.Disk.is_usable files.old.db) }
    ensures log { IfOk result (λ copy. IsTrue (D.Disk.is_clean files.new.log)
        → memory_bytes copy.log ≡ D.Disk.seen files.old.log) }
    ensures db { IfOk result (λ copy. IsTrue (D.Disk.is_clean files.new.db)
        → memory_bytes copy.db ≡ D.Disk.seen files.old.db) }
    ensures usable { IfOk result (λ copy. IsTrue (memory_is_usable copy.log)
        × IsTrue (memory_is_usable copy.db)) }
    ensures reads_log { OnlyReads D.Disk files.old.log files.new.log }
    ensures reads_db { OnlyReads D.Disk files.old.db files.new.db }
    ensures unfailed { OnOk result (faults_of D.Disk files.new ≡ faults_of D.Disk files.old) }
    ensures counts { faults_of D.Disk files.old ≤ faults_of D.Disk files.new }
{
    let log = copy_of(alloc, &mut files.log)?;
    let db = copy_of(alloc, &mut files.db)?;
    Ok(Files { log, db })
}
