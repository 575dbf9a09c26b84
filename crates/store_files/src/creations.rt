//! A house is made in two files.
ghost use Rattle.std.specs.Prelude.{◌≡◌, ◌⊎◌, [], false, true, IfErr, IfOk};
ghost use Rattle.house_rows.specs.Tables.{Tables, tables_of};
ghost use Rattle.house_rows.specs.Text.{is_plain};
ghost use Rattle.house_rows.specs.declared.fault.KeepFault.TheVariants.{Damaged};
ghost use Rattle.sqlite.specs.Effect.{Database};
ghost use Rattle.sqlite.specs.Files.{IsCleanLeft, LeavesFiles, faults_left, faults_of, image_of};
ghost use Rattle.sqlite_disk.specs.Disk.{MoreFaults};
ghost use Rattle.sqlite_wal.specs.Reads.{AreClean};
ghost use Rattle.store_house.specs.Named.{IsArranged};
ghost use Rattle.store_house.specs.Opening.{IsSoundHouse};
ghost use Rattle.store_making.specs.Made.{IsMadeHouse};
ghost use Rattle.store.specs.Kept.{IsHonest, MayLeave, content, is_failed};
ghost use Rattle.store.specs.InOrder.{order_state, over_order};
ghost use Rattle.store_files.specs.InOrder.{FindsNoDatabase, FindsNoTable, FindsObject};
ghost use Rattle.store_files.specs.InOrder.{HoldsNoTable, HoldsObject, HoldsOther, LeavesFilesNew};

use crate::openings::connect;
use house_rows::{KeepFault, Settings};
use sqlite::{FileStore, Leftover, Options};
use sqlite_disk::{Disk, Files};
use std::alloc::Global;
use store::SqlKeep;
use store_making::make_house;
use store_open::open_house;
use tree_order::Renumbered;

/// Makes the keep of a house to which nothing has happened yet in a log and a database file that
/// hold no table.
///
/// `Damaged` where they hold one, or are neither empty nor a database, or the zone has control
/// characters. After an error what is left of the files is given back: they hold what they held, or the
/// new house. Where they held a table, they hold what they held, and so where an opening finds no
/// database in them, not even an empty one.
pub fn create_files<D: Disk + Drop>(
    alloc: Global,
    files: Files<D>,
    options: Options,
    settings: &Settings,
) -> Result<SqlKeep<Renumbered<FileStore<D>>>, (KeepFault, Leftover<D>)>
    ensures honest { IfOk result (λ k. IsHonest over_order k
        → AreClean D.Disk files.log files.db) }
    ensures blank { IfOk result (λ k. IsHonest over_order k
        → HoldsNoTable (image_of D.Disk files)) }
    ensures there { IfOk result (λ k. IsHonest over_order k
        → FindsNoTable (image_of D.Disk files)) }
    ensures empty { IfOk result (λ k. IsHonest over_order k
        → content over_order k ≡ tables_of settings.now []) }
    ensures made { IfOk result (λ k. IsHonest over_order k → (made : Database)
        × IsMadeHouse settings.now made × IsArranged made.trees (order_state k.conn).now.trees) }
    ensures opens { IfOk result (λ k. IsHonest over_order k → is_plain settings.now.zone ≡ true
        → IsSoundHouse (order_state k.conn).now) }
    ensures only { IfOk result (λ k. IsHonest over_order k → (tables : Tables)
        → MayLeave over_order k tables → tables ≡ content over_order k) }
    ensures works { IfOk result (λ k. is_failed k ≡ false) }
    ensures left { IfErr result (λ e. IsCleanLeft e.1 → LeavesFilesNew settings.now files e.1) }
    ensures spared { IfErr result (λ e. HoldsObject (image_of D.Disk files) → IsCleanLeft e.1
        → LeavesFiles files e.1) }
    ensures untouched { IfErr result (λ e. FindsNoDatabase (image_of D.Disk files)
        → IsCleanLeft e.1 → LeavesFiles files e.1) }
    ensures damaged { IfErr result (λ e. e.0 ≡ Damaged → IsCleanLeft e.1
        → HoldsOther (image_of D.Disk files) ⊎ FindsObject (image_of D.Disk files)
        ⊎ (¬ (is_plain settings.now.zone ≡ true))
        ⊎ MoreFaults (faults_of D.Disk files) (faults_left e.1)) }
{
    let mut conn = connect(alloc, files, options)?;
    match make_house(&mut conn, settings) {
        Ok(()) => match open_house(alloc, conn) {
            Ok(house) => Ok(SqlKeep::of_house(alloc, house)),
            Err((fault, store)) => Err((fault, Leftover::Store(store.into_inner()))),
        },
        Err(fault) => Err((fault, Leftover::Store(conn.into_store()))),
    }
}
