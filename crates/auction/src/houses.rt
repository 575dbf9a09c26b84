//! Keeps that the program makes and opens.
ghost use Rattle.std.specs.Prelude.{◌≡◌, ℕ, List, [], Bool, IfErr, IfOk, IfSome};
ghost use Rattle.house_rows.specs.Tables.{tables_of};
ghost use Rattle.house_rows.specs.declared.settings.Settings.{Settings as TheSettings};

use crate::files::Place;
use crate::stores::StoreInFile;
use house_rows::{Ends, Keep, KeepFault, Settings};
use std::alloc::Global;
use store::SqlKeep;
use store_list::ListKeep;

/// A keep in memory.
pub trait KeepInMemory: Sized + Keep + Drop {
    /// That of a new house.
    fn create(rt: &HostRuntime, alloc: Global, settings: Settings) -> Result<Self, KeepFault>
        ensures empty { IfOk result (λ keep. Self.content keep ≡ tables_of settings []) }
        ensures memory { IfErr result (λ fault. fault ≡ KeepFault.Memory) };
}

impl KeepInMemory for ListKeep {
    fn create(rt: &HostRuntime, alloc: Global, settings: Settings) -> Result<ListKeep, KeepFault> {
        ListKeep::create(alloc, rt, settings)
    }
}

/// A keep in a file. Where none is made or opened, what is left of the file is given back, if it could
/// be opened.
pub trait KeepInFile: Sized + Keep + Drop + Ends {
    /// Stands for the file.
    type First: Place;

    /// What is left of the file and its log where no keep of a house in them is made or opened.
    type Rest: Drop;

    /// What is so of a keep that was opened at a path.
    ghost is_opened: { List ℕ → Self → Type 0 };

    /// What is so of one that was made at a path, of a new house.
    ghost is_new: { List ℕ → TheSettings → Self → Type 0 };

    /// What is so of one that was opened at a path and upgraded, where its house was of version 1.
    ghost is_upgraded: { List ℕ → Bool → Self → Type 0 };

    /// What is so of what is left of a file at a path that holds what it held.
    ghost is_held: { List ℕ → Self.Rest → Type 0 };

    /// The same, or it holds a new house where it held no table.
    ghost is_made: { List ℕ → TheSettings → Self.Rest → Type 0 };

    /// The same, or it holds its house upgraded.
    ghost is_grown: { List ℕ → Self.Rest → Type 0 };

    /// That of a new house.
    fn create(
        rt: &HostRuntime,
        alloc: Global,
        path: &str,
        settings: Settings,
        first: Self::First,
    ) -> Result<Self, (KeepFault, Option<Self::Rest>)>
        ensures made { IfOk result (is_new path.now settings) }
        ensures left { IfErr result (λ e. IfSome e.1 (is_made path.now settings)) };

    /// That of the house in the file.
    fn open(
        rt: &HostRuntime,
        alloc: Global,
        path: &str,
        first: Self::First,
    ) -> Result<Self, (KeepFault, Option<Self::Rest>)>
        ensures opened { IfOk result (is_opened path.now) }
        ensures left { IfErr result (λ e. IfSome e.1 (is_held path.now)) };

    /// That of the house in the file, which is made one of version 2 where it is of version 1, and
    /// whether it was.
    fn upgrade(
        rt: &HostRuntime,
        alloc: Global,
        path: &str,
        first: Self::First,
    ) -> Result<(Self, bool), (KeepFault, Option<Self::Rest>)>
        ensures upgraded { IfOk result (λ r. is_upgraded path.now r.1 r.0) }
        ensures left { IfErr result (λ e. IfSome e.1 (is_grown path.now)) };
}

impl<S: StoreInFile> KeepInFile for SqlKeep<S>
where
    SqlKeep<S>: Ends,
{
    type First = S::First;

    type Rest = S::Rest;

    ghost is_opened = { S.is_opened };

    ghost is_new = { S.is_new };

    ghost is_upgraded = { S.is_upgraded };

    ghost is_held = { S.is_held };

    ghost is_made = { S.is_made };

    ghost is_grown = { S.is_grown };

    fn create(
        rt: &HostRuntime,
        alloc: Global,
        path: &str,
        settings: Settings,
        first: S::First,
    ) -> Result<SqlKeep<S>, (KeepFault, Option<S::Rest>)> {
        S::create_keep(rt, alloc, path, &settings, first)
    }

    fn open(
        rt: &HostRuntime,
        alloc: Global,
        path: &str,
        first: S::First,
    ) -> Result<SqlKeep<S>, (KeepFault, Option<S::Rest>)> {
        S::open_keep(rt, alloc, path, first)
    }

    fn upgrade(
        rt: &HostRuntime,
        alloc: Global,
        path: &str,
        first: S::First,
    ) -> Result<(SqlKeep<S>, bool), (KeepFault, Option<S::Rest>)> {
        S::upgrade_keep(rt, alloc, path, first)
    }
}
