//! What an opening finds of a house that was made.
ghost use Rattle.std.specs.Prelude.{◌≡◌, [], true};
ghost use Rattle.house_rows.specs.Tables.{tables_of};
ghost use Rattle.house_rows.specs.Text.{is_plain};
ghost use Rattle.house_rows.specs.declared.settings.Settings.{Settings};
ghost use Rattle.sqlite.specs.Effect.{Database};
ghost use Rattle.sqlite_trees.specs.Objects.{catalog_tree};
ghost use Rattle.sqlite_trees.specs.View.{IsShaped};
ghost use Rattle.sqlite_trees.specs.declared.store.Shape.TheVariants.{Table};
ghost use Rattle.store_house.specs.Named.{HoldsHouse, HoldsSound, IsReordered};
ghost use Rattle.store_house.specs.Opening.{IsSoundHouse};
ghost use Rattle.store_making.specs.Made.{IsMadeHouse};
ghost use Rattle.store_rows.specs.House.{IsHouse};
ghost use Rattle.store_rows.specs.Rows.{reserves_in};
ghost use Rattle.store_rows.specs.Tables.{tables_in};

/// A house that is shown of one that was made, in whatever order, has the tables of a house to which
/// nothing has happened yet, and an opening takes it, if its zone has no control characters.
pub fn made_houses_are_found()
    ensures tables { (settings : Settings) (made shown : Database) → IsMadeHouse settings made
        → IsShaped Table (made.trees catalog_tree) → IsReordered made.trees shown.trees
        → IsHouse shown → tables_in shown.trees ≡ tables_of settings [] }
    ensures reserves { (settings : Settings) (made shown : Database) → IsMadeHouse settings made
        → IsShaped Table (made.trees catalog_tree) → IsReordered made.trees shown.trees
        → IsHouse shown → reserves_in shown.trees ≡ [] }
    ensures opens { (settings : Settings) (made shown : Database) → IsMadeHouse settings made
        → IsShaped Table (made.trees catalog_tree) → IsReordered made.trees shown.trees
        → IsHouse shown → is_plain settings.zone ≡ true → IsSoundHouse shown }
{}

/// A house that was made lies under other numbers than a house's own, and the names find it there; an
/// opening takes it, if its zone has no control characters.
pub fn made_houses_are_held()
    ensures house { (settings : Settings) (made : Database) → IsMadeHouse settings made
        → IsShaped Table (made.trees catalog_tree) → HoldsHouse made.trees }
    ensures sound { (settings : Settings) (made : Database) → IsMadeHouse settings made
        → IsShaped Table (made.trees catalog_tree) → is_plain settings.zone ≡ true
        → HoldsSound made.trees }
{}
