//! The house in two files is upgraded.
ghost use Rattle.std.specs.Prelude.{◌≡◌, ◌≢◌, ◌⊎◌, false, true, IfErr, IfOk};
ghost use Rattle.house_rows.specs.Tables.{Tables};
ghost use Rattle.house_rows.specs.declared.fault.KeepFault.TheVariants.{Damaged, Store};
ghost use Rattle.sqlite.specs.Files.{HoldsDatabase, IsCleanLeft, faults_left, faults_of, image_of};
ghost use Rattle.sqlite_disk.specs.Disk.{MoreFaults};
ghost use Rattle.sqlite_trees.specs.Tree.{Trees};
ghost use Rattle.sqlite_wal.specs.Reads.{AreClean};
ghost use Rattle.store.specs.InOrder.{order_state, over_order};
ghost use Rattle.store.specs.Kept.{IsHonest, MayLeave, content, is_failed};
ghost use Rattle.store_house.specs.Named.{IsArranged, UpgradesHeld};
ghost use Rattle.store_rows.specs.House.{IsHouse};
ghost use Rattle.store_files.specs.InOrder.{FindsUpgraded, HoldsSoundFirstHouse, HoldsSoundHouse};
ghost use Rattle.store_files.specs.InOrder.{LeavesFilesInOrder, LeavesFilesUpgraded, tables_after};

use crate::openings::connect;
use house_rows::KeepFault;
use sqlite::{FileStore, Leftover, Options};
use sqlite_disk::{Disk, Files};
use std::alloc::Global;
use store::SqlKeep;
use store_open::upgrade_house;
use tree_order::Renumbered;

/// The keep of the house that a log and a database file hold, in whatever order its trees lie, made
/// one of this version where it is of version 1, and whether it was. A house of this version is not
/// changed: the keep shows what the files held, in the order of a house.
///
/// `Damaged` where they hold no house of either version. After an error what is left of the files is
/// given back: they hold what they held, or, after `Store` alone, a crash may find the house upgraded in
/// them.
pub fn upgrade_files<D: Disk + Drop>(
    alloc: Global,
    files: Files<D>,
    options: Options,
) -> Result<(SqlKeep<Renumbered<FileStore<D>>>, bool), (KeepFault, Leftover<D>)>
    ensures honest { IfOk result (λ r. IsHonest over_order r.0
        → AreClean D.Disk files.log files.db) }
    ensures holds { IfOk result (λ r. IsHonest over_order r.0 → (db : Trees)
        → HoldsDatabase (image_of D.Disk files) db
        → content over_order r.0 ≡ tables_after r.1 db) }
    ensures house { IfOk result (λ r. IsHonest over_order r.0
        → IsHouse (order_state r.0.conn).now) }
    ensures first { IfOk result (λ r. IsHonest over_order r.0 → r.1 ≡ true → (db : Trees)
        → HoldsDatabase (image_of D.Disk files) db
        → UpgradesHeld db (order_state r.0.conn).now) }
    ensures kept { IfOk result (λ r. IsHonest over_order r.0 → r.1 ≡ false → (db : Trees)
        → HoldsDatabase (image_of D.Disk files) db
        → IsArranged db (order_state r.0.conn).now.trees) }
    ensures there { IfOk result (λ r. IsHonest over_order r.0
        → FindsUpgraded (image_of D.Disk files) r.1 (order_state r.0.conn).now) }
    ensures only { IfOk result (λ r. IsHonest over_order r.0 → (tables : Tables)
        → MayLeave over_order r.0 tables → tables ≡ content over_order r.0) }
    ensures works { IfOk result (λ r. is_failed r.0 ≡ false) }
    ensures left { IfErr result (λ e. IsCleanLeft e.1 → LeavesFilesUpgraded files e.1) }
    ensures unchanged { IfErr result (λ e. e.0 ≢ Store → IsCleanLeft e.1
        → LeavesFilesInOrder files e.1) }
    ensures damaged { IfErr result (λ e. e.0 ≡ Damaged → IsCleanLeft e.1
        → ((¬ (HoldsSoundHouse (image_of D.Disk files)))
        × (¬ (HoldsSoundFirstHouse (image_of D.Disk files))))
        ⊎ MoreFaults (faults_of D.Disk files) (faults_left e.1)) }
{
    let conn = connect(alloc, files, options)?;
    match upgrade_house(alloc, conn) {
        Ok((house, was_first)) => Ok((SqlKeep::of_house(alloc, house), was_first)),
        Err((fault, store)) => Err((fault, Leftover::Store(store.into_inner()))),
    }
}
