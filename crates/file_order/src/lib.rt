//! The laws of what a crash may leave of a file whose trees are shown in another order.
//!
//! What opens the file again reads its own list of objects. So what is known of the trees that are
//! shown has to be known of those in the file. `order_laws` has the step for one database.
#![tactic(auto)]

ghost use Rattle.std.specs.Prelude.{◌≡◌, ℕ, List, [], map, true, IsTrue};
ghost use Rattle.sqlite.specs.Held.{AreDatabases};
ghost use Rattle.sqlite_catalog.specs.Listing.{IsSound};
ghost use Rattle.sqlite_schema.specs.declared.schema.Schema.{Schema};
ghost use Rattle.sqlite_store.specs.FileStore.{recovers, view};
ghost use Rattle.sqlite_store.specs.declared.store.FileStore.{FileStore};
ghost use Rattle.sqlite_trees.specs.Objects.{catalog_tree};
ghost use Rattle.sqlite_trees.specs.Sound.{are_in_order, head_at};
ghost use Rattle.sqlite_trees.specs.Tree.{Trees};
ghost use Rattle.sqlite_trees.specs.View.{IsShaped};
ghost use Rattle.sqlite_trees.specs.declared.store.Shape.TheVariants.{Table};
ghost use Rattle.tree_order.specs.Numbers.{AreInverse};
ghost use Rattle.tree_order.specs.Renumbered.{renumbered_trees};

use sqlite_disk::Disk;

/// What a crash may leave of a file lists its objects under rowids that rise, each name once, and
/// each index after its table.
pub fn recovered_lists_are_in_order<D: Disk>()
    ensures shape { (it : FileStore D D.Disk) (below : Trees)
        → recovers it below → IsShaped Table (below catalog_tree) }
    ensures order { (it : FileStore D D.Disk) (below : Trees)
        → IsTrue (view it).is_numbered → recovers it below
        → are_in_order [] (map (head_at 1) (below catalog_tree)) ≡ true }
{}

/// If all that a crash may leave of a file, shown under other numbers of its trees, lists and obeys a
/// schema with no views, then it lists and obeys one in the file's own order.
pub fn files_in_order_hold_databases<D: Disk>()
    ensures { (inner outer : List ℕ) (it : FileStore D D.Disk)
        → AreInverse inner outer → IsTrue (view it).is_numbered
        → ((below : Trees) → recovers it below → (schema : Schema)
        × IsSound schema (renumbered_trees inner outer below) × (schema.views ≡ []))
        → AreDatabases (recovers it) }
{}
