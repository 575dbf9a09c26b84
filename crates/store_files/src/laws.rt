//! What the names find, and what openings find after a crash.
ghost use Rattle.std.specs.Prelude.{◌≡◌, ◌≤◌, length};
ghost use Rattle.sqlite.specs.Effect.{Database};
ghost use Rattle.sqlite.specs.Files.{file_state};
ghost use Rattle.sqlite.specs.Held.{Held};
ghost use Rattle.sqlite.specs.Start.{FindsIn};
ghost use Rattle.sqlite_store.specs.declared.store.FileStore.{FileStore};
ghost use Rattle.sqlite_wal.specs.Recovery.{Image};
ghost use Rattle.sqlite_trees.specs.Objects.{catalog_tree};
ghost use Rattle.sqlite_trees.specs.Tree.{Trees};
ghost use Rattle.sqlite_trees.specs.View.{IsShaped};
ghost use Rattle.sqlite_trees.specs.declared.store.Shape.TheVariants.{Table};
ghost use Rattle.store_house.specs.Named.{IsArranged, IsReordered, tables_held, trees_of};
ghost use Rattle.store_rows.specs.House.{IsHouse};
ghost use Rattle.store_rows.specs.Tables.{IsAtRest};
ghost use Rattle.store.specs.Kept.{MayLeave, content};
ghost use Rattle.store.specs.Closing.{MayHold};
ghost use Rattle.store.specs.InOrder.{order_state, over_order};
ghost use Rattle.store_files.specs.InOrder.{IsCrashed};

use sqlite_disk::Disk;

/// A house has 28 trees, and an older one, without the index of watches by item, 27. In whatever
/// order they lie, the names find each.
pub fn houses_lie_in_any_order()
    ensures { (below : Trees) (db : Database) → IsShaped Table (below catalog_tree)
        → (order : IsReordered below db.trees) → (house : IsHouse db)
        → length order.inner ≤ trees_of house.is_indexed → IsArranged below db.trees }
{}

/// Where a crash has left this of the files of a keep whose disk was honest, an opening that finds
/// it holds a database in which the names find the tables of one that the crash may leave; of a
/// keep at rest, its own tables.
pub fn openings_find_what_crashes_leave<D: Disk, E: Disk>()
    ensures found { (before : _) (left : Image) (opened : Held (FileStore E E.Disk))
        → IsCrashed D.Disk before left → FindsIn left (file_state opened)
        → ∥ MayLeave over_order before (tables_held (file_state opened).committed.trees) ∥₁ }
    ensures same { (before : _) (left : Image) (opened : Held (FileStore E E.Disk))
        → IsCrashed D.Disk before left → FindsIn left (file_state opened)
        → IsAtRest (order_state before.conn)
        → tables_held (file_state opened).committed.trees ≡ content over_order before }
{}

/// Whatever a crash leaves of the files of a keep holds a database in which the names find tables
/// that the crash may leave of the keep.
pub fn crashes_leave_databases<D: Disk>()
    ensures { (before : _) (left : Image) → IsCrashed D.Disk before left → MayHold before left }
{}
