//! A keep in two files, after a crash of the machine.
ghost use Rattle.std.specs.Prelude.{◌≡◌, false, IfErr, IfOk};
ghost use Rattle.store.specs.InOrder.{over_order};
ghost use Rattle.store.specs.Kept.{IsHonest, MayLeave, content, is_failed};
ghost use Rattle.store_files.specs.InOrder.{LeavesCrashed};

use crate::openings::open_files;
use house_rows::KeepFault;
use sqlite::{FileStore, Leftover, Options};
use sqlite_disk::{Crash, Disk};
use std::alloc::Global;
use store::SqlKeep;
use tree_order::Renumbered;

/// Stops the machine under a keep, and opens what the crash has left of its files.
///
/// After an error the files are given back, which hold what the crash has left of them.
pub fn reopen_after_crash<D: Crash + Drop>(
    keep: SqlKeep<Renumbered<FileStore<D>>>,
    alloc: Global,
    options: Options,
) -> Result<SqlKeep<Renumbered<FileStore<D>>>, (KeepFault, Leftover<D>)>
    ensures found { IfOk result (λ k. IsHonest over_order k
        → ∥ MayLeave over_order keep (content over_order k) ∥₁) }
    ensures same { IfOk result (λ k. IsHonest over_order k → is_failed keep ≡ false
        → content over_order k ≡ content over_order keep) }
    ensures left { IfErr result (λ e. LeavesCrashed D.Disk keep e.0 e.1) }
{
    let mut files = keep.into_connection().into_store().into_inner().close();
    files.log.crash();
    files.db.crash();
    let again = open_files(alloc, files, options)?;
    Ok(again)
}
