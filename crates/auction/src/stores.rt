//! Stores in files, and the keeps over them.
ghost use Rattle.std.specs.Prelude.{◌≡◌, ℕ, List, Bool, IfErr, IfOk, IfSome};
ghost use Rattle.house_rows.specs.declared.settings.Settings.{Settings as TheSettings};
ghost use Rattle.sqlite.specs.Files.{IsCleanLeft, LeavesFiles, image_of};
ghost use Rattle.sqlite_wal.specs.Files.{image_at};
ghost use Rattle.store.specs.InOrder.{over_order};
ghost use Rattle.store.specs.Kept.{House, IsHonest, MayLeave, content, is_failed};
ghost use Rattle.store_files.specs.InOrder.{HoldsObject, LeavesFilesInOrder, LeavesFilesNew};
ghost use Rattle.store_files.specs.InOrder.{LeavesFilesUpgraded, shown_house};
ghost use Rattle.store_files.specs.Opened.{IsMade, IsOpened, IsUpgraded};
ghost use Rattle.tree_order.specs.declared.renumbered.Renumbered.{Renumbered as TheRenumbered};

use crate::files::{DiskInFile, Place};
use house_rows::{KeepFault, Settings};
use sqlite::{Alter, FileStore, Leftover, Options};
use std::alloc::Global;
use std::hash::{BuildHasher, RandomState};
use std::io;
use store::SqlKeep;
use store_files::{create_files, open_files, upgrade_files};
use tree_order::Renumbered;

/// A store in a file.
pub trait StoreInFile: Sized + Alter + Drop {
    /// Stands for the file.
    type First: Place;

    /// What is left of the file and its log where no keep of a house in them is made or opened.
    type Rest: Drop;

    /// What is so of a keep that was opened at a path.
    ghost is_opened: { List ℕ → House Self → Type 0 };

    /// What is so of one that was made at a path, of a new house.
    ghost is_new: { List ℕ → TheSettings → House Self → Type 0 };

    /// What is so of one that was opened at a path and upgraded, where its house was of version 1.
    ghost is_upgraded: { List ℕ → Bool → House Self → Type 0 };

    /// What is so of what is left of a file at a path that holds what it held.
    ghost is_held: { List ℕ → Self.Rest → Type 0 };

    /// The same, or it holds a new house where it held no table.
    ghost is_made: { List ℕ → TheSettings → Self.Rest → Type 0 };

    /// The same, or it holds its house upgraded.
    ghost is_grown: { List ℕ → Self.Rest → Type 0 };

    /// The keep of a new house in a file, which is made where it is missing. After an error what is left
    /// of the file is given back, if it could be opened.
    fn create_keep(
        rt: &HostRuntime,
        alloc: Global,
        path: &str,
        settings: &Settings,
        first: Self::First,
    ) -> Result<SqlKeep<Self>, (KeepFault, Option<Self::Rest>)>
        ensures made { IfOk result (is_new path.now settings.now) }
        ensures left { IfErr result (λ e. IfSome e.1 (is_made path.now settings.now)) };

    /// The keep of the house in a file.
    fn open_keep(
        rt: &HostRuntime,
        alloc: Global,
        path: &str,
        first: Self::First,
    ) -> Result<SqlKeep<Self>, (KeepFault, Option<Self::Rest>)>
        ensures opened { IfOk result (is_opened path.now) }
        ensures left { IfErr result (λ e. IfSome e.1 (is_held path.now)) };

    /// The keep of the house in a file, which is made one of version 2 where it is of version 1, and
    /// whether it was.
    fn upgrade_keep(
        rt: &HostRuntime,
        alloc: Global,
        path: &str,
        first: Self::First,
    ) -> Result<(SqlKeep<Self>, bool), (KeepFault, Option<Self::Rest>)>
        ensures upgraded { IfOk result (λ r. is_upgraded path.now r.1 r.0) }
        ensures left { IfErr result (λ e. IfSome e.1 (is_grown path.now)) };
}

/// A store in a file, over which the trees of a house are shown in its order.
pub trait StoreBelow: Sized + Alter + Drop {
    /// Stands for the file.
    type First: Place;

    /// What is left of the file and its log where no keep of a house in them is made or opened.
    type Rest: Drop;

    /// What is so of a keep that was opened at a path.
    ghost is_opened: { List ℕ → House (TheRenumbered Self) → Type 0 };

    /// What is so of one that was made at a path, of a new house.
    ghost is_new: { List ℕ → TheSettings → House (TheRenumbered Self) → Type 0 };

    /// What is so of one that was opened at a path and upgraded, where its house was of version 1.
    ghost is_upgraded: { List ℕ → Bool → House (TheRenumbered Self) → Type 0 };

    /// What is so of what is left of a file at a path that holds what it held.
    ghost is_held: { List ℕ → Self.Rest → Type 0 };

    /// The same, or it holds a new house where it held no table.
    ghost is_made: { List ℕ → TheSettings → Self.Rest → Type 0 };

    /// The same, or it holds its house upgraded.
    ghost is_grown: { List ℕ → Self.Rest → Type 0 };

    /// The keep of a new house in a file, which is made where it is missing. After an error what is left
    /// of the file is given back, if it could be opened.
    fn create_below(
        rt: &HostRuntime,
        alloc: Global,
        path: &str,
        settings: &Settings,
        first: Self::First,
    ) -> Result<SqlKeep<Renumbered<Self>>, (KeepFault, Option<Self::Rest>)>
        ensures made { IfOk result (is_new path.now settings.now) }
        ensures left { IfErr result (λ e. IfSome e.1 (is_made path.now settings.now)) };

    /// The keep of the house in a file.
    fn open_below(
        rt: &HostRuntime,
        alloc: Global,
        path: &str,
        first: Self::First,
    ) -> Result<SqlKeep<Renumbered<Self>>, (KeepFault, Option<Self::Rest>)>
        ensures opened { IfOk result (is_opened path.now) }
        ensures left { IfErr result (λ e. IfSome e.1 (is_held path.now)) };

    /// The keep of the house in a file, which is made one of version 2 where it is of version 1, and
    /// whether it was.
    fn upgrade_below(
        rt: &HostRuntime,
        alloc: Global,
        path: &str,
        first: Self::First,
    ) -> Result<(SqlKeep<Renumbered<Self>>, bool), (KeepFault, Option<Self::Rest>)>
        ensures upgraded { IfOk result (λ r. is_upgraded path.now r.1 r.0) }
        ensures left { IfErr result (λ e. IfSome e.1 (is_grown path.now)) };
}

// A store is named by one name at a time: what runs over any store can't be called of `Renumbered` over
// `FileStore` by its full name.
impl<S: StoreBelow> StoreInFile for Renumbered<S> {
    type First = S::First;

    type Rest = S::Rest;

    ghost is_opened = { S.is_opened };

    ghost is_new = { S.is_new };

    ghost is_upgraded = { S.is_upgraded };

    ghost is_held = { S.is_held };

    ghost is_made = { S.is_made };

    ghost is_grown = { S.is_grown };

    fn create_keep(
        rt: &HostRuntime,
        alloc: Global,
        path: &str,
        settings: &Settings,
        first: S::First,
    ) -> Result<SqlKeep<Renumbered<S>>, (KeepFault, Option<S::Rest>)> {
        S::create_below(rt, alloc, path, settings, first)
    }

    fn open_keep(
        rt: &HostRuntime,
        alloc: Global,
        path: &str,
        first: S::First,
    ) -> Result<SqlKeep<Renumbered<S>>, (KeepFault, Option<S::Rest>)> {
        S::open_below(rt, alloc, path, first)
    }

    fn upgrade_keep(
        rt: &HostRuntime,
        alloc: Global,
        path: &str,
        first: S::First,
    ) -> Result<(SqlKeep<Renumbered<S>>, bool), (KeepFault, Option<S::Rest>)> {
        S::upgrade_below(rt, alloc, path, first)
    }
}

// How files are opened: the salts of a log are drawn at random.
fn options(rt: &HostRuntime) -> io::Result<Options> {
    Ok(Options::new(RandomState::new(rt)?.hash_one(&0u8)))
}

impl<D: DiskInFile> StoreBelow for FileStore<D> {
    type First = D::First;

    type Rest = Leftover<D>;

    ghost is_opened = { IsOpened (content over_order) is_failed (IsHonest over_order)
        (MayLeave over_order) D.First.name (image_at D.First.Start) };

    ghost is_new = { IsMade (content over_order) is_failed (IsHonest over_order)
        (MayLeave over_order) D.First.name (image_at D.First.Start) };

    ghost is_upgraded = { IsUpgraded (content over_order) is_failed (IsHonest over_order)
        (MayLeave over_order) shown_house D.First.name (image_at D.First.Start) };

    ghost is_held = { λ path rest. path ≡ D.First.name → (files : _) × D.are_fresh files
        × (IsCleanLeft rest → LeavesFilesInOrder files rest) };

    ghost is_made = { λ path settings rest. path ≡ D.First.name → (files : _)
        × D.are_fresh files × (IsCleanLeft rest → LeavesFilesNew settings files rest)
        × (HoldsObject (image_of D.Disk files) → IsCleanLeft rest → LeavesFiles files rest) };

    ghost is_grown = { λ path rest. path ≡ D.First.name → (files : _) × D.are_fresh files
        × (IsCleanLeft rest → LeavesFilesUpgraded files rest) };

    fn create_below(
        rt: &HostRuntime,
        alloc: Global,
        path: &str,
        settings: &Settings,
        first: D::First,
    ) -> Result<SqlKeep<Renumbered<FileStore<D>>>, (KeepFault, Option<Leftover<D>>)> {
        let Ok(options) = options(rt) else {
            return Err((KeepFault::Store, None));
        };
        match D::make_files(rt, path, first) {
            Ok(files) => match create_files(alloc, files, options, settings) {
                Ok(keep) => Ok(keep),
                Err((fault, rest)) => Err((fault, Some(rest))),
            },
            Err(fault) => Err((fault, None)),
        }
    }

    fn open_below(
        rt: &HostRuntime,
        alloc: Global,
        path: &str,
        first: D::First,
    ) -> Result<SqlKeep<Renumbered<FileStore<D>>>, (KeepFault, Option<Leftover<D>>)> {
        let Ok(options) = options(rt) else {
            return Err((KeepFault::Store, None));
        };
        match D::find_files(rt, path, first) {
            Ok(files) => match open_files(alloc, files, options) {
                Ok(keep) => Ok(keep),
                Err((fault, rest)) => Err((fault, Some(rest))),
            },
            Err(fault) => Err((fault, None)),
        }
    }

    fn upgrade_below(
        rt: &HostRuntime,
        alloc: Global,
        path: &str,
        first: D::First,
    ) -> Result<(SqlKeep<Renumbered<FileStore<D>>>, bool), (KeepFault, Option<Leftover<D>>)> {
        let Ok(options) = options(rt) else {
            return Err((KeepFault::Store, None));
        };
        match D::find_files(rt, path, first) {
            Ok(files) => match upgrade_files(alloc, files, options) {
                Ok(upgraded) => Ok(upgraded),
                Err((fault, rest)) => Err((fault, Some(rest))),
            },
            Err(fault) => Err((fault, None)),
        }
    }
}
