//! The law that a database which a store shows in another order is a database in its own order.
//!
//! A crash leaves the other store, and what opens that one again reads its own list of objects. So
//! what is known of the trees that are shown has to be known of those below.
#![tactic(auto)]

ghost use Rattle.std.specs.Prelude.{◌≡◌, ℕ, List, [], map, true};
ghost use Rattle.sqlite_catalog.specs.Listing.{IsSound};
ghost use Rattle.sqlite_schema.specs.declared.schema.Schema.{Schema};
ghost use Rattle.sqlite_trees.specs.Objects.{catalog_tree};
ghost use Rattle.sqlite_trees.specs.Sound.{are_in_order, head_at};
ghost use Rattle.sqlite_trees.specs.Tree.{Trees};
ghost use Rattle.sqlite_trees.specs.View.{IsShaped};
ghost use Rattle.sqlite_trees.specs.declared.store.Shape.TheVariants.{Table};
ghost use Rattle.tree_order.specs.Numbers.{AreInverse};
ghost use Rattle.tree_order.specs.Renumbered.{renumbered_trees};

/// Trees that list and obey a schema with no views in some order list and obey one in their own, if
/// their own list has each index after its table.
pub fn databases_in_order_are_databases()
    ensures { (inner outer : List ℕ) (schema : Schema) (below : Trees)
        → AreInverse inner outer → IsShaped Table (below catalog_tree)
        → are_in_order [] (map (head_at 1) (below catalog_tree)) ≡ true → schema.views ≡ []
        → IsSound schema (renumbered_trees inner outer below)
        → (own : Schema) × IsSound own below }
{}
