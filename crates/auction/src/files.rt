//! Houses in files.
ghost use Rattle.std.specs.Prelude.{◌≡◌, ℕ, List, [], true, false, IfOk, IsTrue};
ghost use Rattle.sqlite.specs.Files.{image_of};
ghost use Rattle.sqlite_disk.specs.declared.Files.{Files};
ghost use Rattle.sqlite_std_file.specs.File.{IsFresh, file_is_usable};
ghost use Rattle.sqlite_wal.specs.Files.{image_at};

use house_rows::KeepFault;
use sqlite::{FileFrom, Files, Start, Unknown};
use sqlite_disk::Disk;
use sqlite_std_file::OpenError;
use std::fs::{self, OpenOptions};
use std::io;
use std::os::unix::fs::OpenOptionsExt;

/// What stands for a file, which no code can read: its path, and what it and its log hold before they
/// are opened. An opening uses its value up, so whoever is given one opens one file.
pub trait Place: Start {
    ghost name: { List ℕ };
}

impl Place for Unknown {
    ghost name = { [] };
}

// Why a file can't be opened.
fn open_fault(error: &OpenError) -> KeepFault {
    match error {
        OpenError::OutOfMemory => KeepFault::Memory,
        OpenError::Io(error) if error.kind() == io::ErrorKind::OutOfMemory => KeepFault::Memory,
        _ => KeepFault::Store,
    }
}

// Makes a file that nobody but its user may read, where there is none. The opening would make one that
// everybody may, and gives the log its mode.
fn make_private(rt: &HostRuntime, path: &str) {
    // Where it can't be made the opening says why.
    let _ = OpenOptions::new()
        .write(true)
        .create_new(true)
        .mode(0o600)
        .open(rt, path);
}

// A name that SQLite takes for no file.
fn names_no_file(path: &str) -> bool {
    path == ":memory:" || path.starts_with("file:")
}

// A file and its log, which are made where they are missing. Every other process is refused them as
// long as they are held. A name that SQLite takes for no file is refused.
fn make_files<T: Place>(
    rt: &HostRuntime,
    path: &str,
    first: T,
) -> Result<Files<FileFrom<T>>, KeepFault>
    ensures log { IfOk result (λ files. IsTrue (file_is_usable T.Start files.log)) }
    ensures db { IfOk result (λ files. IsTrue (file_is_usable T.Start files.db)) }
    ensures fresh { path.now ≡ T.name
        → IfOk result (λ files. IsFresh true files.log × IsFresh false files.db) }
{
    if names_no_file(path) {
        return Err(KeepFault::Store);
    }
    match sqlite_std_file::open(rt, path, first) {
        Ok(files) => Ok(files),
        Err(error) => Err(open_fault(&error)),
    }
}

/// A file that is there, and its log. An empty file is no house, and stays empty.
pub fn find_files<T: Place>(
    rt: &HostRuntime,
    path: &str,
    first: T,
) -> Result<Files<FileFrom<T>>, KeepFault>
    ensures log { IfOk result (λ files. IsTrue (file_is_usable T.Start files.log)) }
    ensures db { IfOk result (λ files. IsTrue (file_is_usable T.Start files.db)) }
    ensures fresh { path.now ≡ T.name
        → IfOk result (λ files. IsFresh true files.log × IsFresh false files.db) }
{
    match fs::metadata(rt, path) {
        Ok(file) if file.len() == 0 => Err(KeepFault::Damaged),
        Ok(_) => make_files(rt, path, first),
        Err(error) if error.kind() == io::ErrorKind::OutOfMemory => Err(KeepFault::Memory),
        Err(_) => Err(KeepFault::Store),
    }
}

/// A disk whose files lie at paths of this machine.
pub trait DiskInFile: Sized + Disk + Drop {
    /// Stands for a file and its log.
    type First: Place;

    /// What is so of the two as they were opened, before anything was done to them.
    ghost are_fresh: { Files Self → Type 0 };

    /// A file and its log, which are made where they are missing, so that their user alone may read them.
    fn make_files(
        rt: &HostRuntime,
        path: &str,
        first: Self::First,
    ) -> Result<Files<Self>, KeepFault>
        ensures fresh { path.now ≡ Self.First.name → IfOk result are_fresh }
        ensures shown { path.now ≡ Self.First.name → IfOk result (λ files.
            image_of Self.Disk files ≡ image_at Self.First.Start) };

    /// A file that is there, and its log. An empty file is no house, and stays empty.
    fn find_files(
        rt: &HostRuntime,
        path: &str,
        first: Self::First,
    ) -> Result<Files<Self>, KeepFault>
        ensures fresh { path.now ≡ Self.First.name → IfOk result are_fresh }
        ensures shown { path.now ≡ Self.First.name → IfOk result (λ files.
            image_of Self.Disk files ≡ image_at Self.First.Start) };
}

impl<T: Place> DiskInFile for FileFrom<T> {
    type First = T;

    ghost are_fresh = { λ files. IsFresh true files.log × IsFresh false files.db };

    fn make_files(rt: &HostRuntime, path: &str, first: T) -> Result<Files<FileFrom<T>>, KeepFault> {
        if !names_no_file(path) {
            make_private(rt, path);
        }
        make_files(rt, path, first)
    }

    fn find_files(rt: &HostRuntime, path: &str, first: T) -> Result<Files<FileFrom<T>>, KeepFault> {
        find_files(rt, path, first)
    }
}
