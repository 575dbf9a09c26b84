//! Houses in files, opened over copies in memory.
ghost use Rattle.std.specs.Prelude.{◌≡◌, true, false, IfOk};
ghost use Rattle.auction.specs.Copies.{AreCopies, AreOnlyRead};
ghost use Rattle.sqlite.specs.Files.{IsCleanLeft};
ghost use Rattle.sqlite_std_file.specs.File.{IsFresh};
ghost use Rattle.sqlite_wal.specs.Files.{image_at};
ghost use Rattle.store.specs.Kept.{IsHonest, content, is_failed};

use crate::files::{Place, find_files};
use house_rows::{Keep, KeepFault};
use sqlite::{Alter, FileFrom, FileStore, Leftover};
use std::alloc::Global;
use store::SqlKeep;
use store_files::{InMemory, open_copies};
use tree_order::Renumbered;

/// Keeps over two copies of a house in a file, and the file with its log.
#[derive(Drop)]
pub struct Copies<K, F> {
    /// The one.
    pub left: K,
    /// The other.
    pub right: K,
    /// The file and its log. Whoever drops them closes them.
    pub files: F,
}

/// A store in memory, with a copy of a house in a file.
pub trait StoreInMemory: Sized + Alter + Drop {
    /// Keeps over two of them. The file and its log stay as they are.
    fn open_twice<T: Place>(
        rt: &HostRuntime,
        alloc: Global,
        path: &str,
        first: T,
    ) -> Result<Copies<SqlKeep<Self>, Leftover<FileFrom<T>>>, KeepFault>
        ensures copies { IfOk result (λ both. path.now ≡ T.name → IsCleanLeft both.files
            → AreCopies (content Self.Store) (IsHonest Self.Store) (image_at T.Start)
            both.left both.right) }
        ensures left { IfOk result (λ both. is_failed both.left ≡ false) }
        ensures right { IfOk result (λ both. is_failed both.right ≡ false) }
        ensures reads { IfOk result (λ both. path.now ≡ T.name → AreOnlyRead both.files
            (λ files. IsFresh true files.log × IsFresh false files.db)) };
}

impl<M: InMemory> StoreInMemory for Renumbered<FileStore<M>> {
    fn open_twice<T: Place>(
        rt: &HostRuntime,
        alloc: Global,
        path: &str,
        first: T,
    ) -> Result<Copies<SqlKeep<Renumbered<FileStore<M>>>, Leftover<FileFrom<T>>>, KeepFault> {
        let mut files = find_files(rt, path, first)?;
        match open_copies(alloc, &mut files) {
            Ok((left, right)) => Ok(Copies {
                left,
                right,
                files: Leftover::Files(files),
            }),
            Err(fault) => Err(fault),
        }
    }
}

/// A keep over a copy of a house in a file.
pub trait CopiedKeep: Sized + Keep + Drop {
    /// Two of them, over copies in memory. The file and its log stay as they are.
    fn open_twice<T: Place>(
        rt: &HostRuntime,
        alloc: Global,
        path: &str,
        first: T,
    ) -> Result<Copies<Self, Leftover<FileFrom<T>>>, KeepFault>
        ensures copies { IfOk result (λ both. path.now ≡ T.name → IsCleanLeft both.files
            → AreCopies Self.content Self.is_honest (image_at T.Start) both.left both.right) }
        ensures left { IfOk result (λ both. Self.is_failed both.left ≡ false) }
        ensures right { IfOk result (λ both. Self.is_failed both.right ≡ false) }
        ensures reads { IfOk result (λ both. path.now ≡ T.name → AreOnlyRead both.files
            (λ files. IsFresh true files.log × IsFresh false files.db)) };
}

impl<S: StoreInMemory> CopiedKeep for SqlKeep<S> {
    fn open_twice<T: Place>(
        rt: &HostRuntime,
        alloc: Global,
        path: &str,
        first: T,
    ) -> Result<Copies<SqlKeep<S>, Leftover<FileFrom<T>>>, KeepFault> {
        S::open_twice(rt, alloc, path, first)
    }
}
