//! A connection made anew, whose store shows the trees of a house by their names.
ghost use Rattle.std.specs.Prelude.{◌≡◌, ℕ, List, None, true, false, IfErr, IfOk, IsErrOf, IsTrue, MatchOption, map};
ghost use Rattle.house_rows.specs.declared.fault.KeepFault.TheVariants.{Damaged};
ghost use Rattle.sqlite.specs.Effect.{Database};
ghost use Rattle.sqlite.specs.Held.{state};
ghost use Rattle.sqlite.specs.State.{HasCleanDisk};
ghost use Rattle.sqlite.specs.declared.error.Error.TheVariants.{SqliteFailure};
ghost use Rattle.sqlite.specs.declared.error.ErrorCode.TheVariants.{NotADatabase};
ghost use Rattle.sqlite_trees.specs.Objects.{catalog_tree};
ghost use Rattle.sqlite_trees.specs.Tree.{Trees};
ghost use Rattle.sqlite_trees.specs.View.{IsClean, IsShaped};
ghost use Rattle.sqlite_trees.specs.declared.store.Shape.TheVariants.{Table};
ghost use Rattle.store_house.specs.Named.{FollowsInOrder, HoldsFirstHouse, HoldsHouse, IsArranged};
ghost use Rattle.store_house.specs.Named.{IsReordered, house_names, house_trees, tables_held};
ghost use Rattle.store_rows.specs.House.{IsFirstHouse, IsHouse, IsHouseSchema};
ghost use Rattle.store_rows.specs.Schema.{first_schema};
ghost use Rattle.store_rows.specs.Tables.{tables_in};
ghost use Rattle.tree_order.specs.Numbers.{AreInverse};
ghost use Rattle.store_house.specs.Over.{over_numbers};

use crate::places::trees_named;
use crate::schemas::{is_first_schema, is_house_schema};
use house_rows::KeepFault;
use sqlite::{Alter, Connection, Error, ErrorCode};
use std::alloc::Global;
use store_rows::fault_of;
use tree_order::{Numbers, Renumbered};

/// A house that is shown in its order has the tables that are found by their names.
pub fn names_find_tables()
    ensures { (below : Trees) (db : Database) → IsShaped Table (below catalog_tree)
        → IsReordered below db.trees → IsHouse db → tables_in db.trees ≡ tables_held below }
{}

// The names of a house's trees, in the order of their numbers.
#[tactic(auto, unfolding(crate::specs::Named::house_names))]
fn house_names() -> [&'static str; 28]
    ensures { map (λ name. name.now) result ≡ house_names }
{
    [
        "house",
        "band",
        "member",
        "sqlite_autoindex_member_1",
        "category",
        "sqlite_autoindex_category_1",
        "item",
        "sqlite_autoindex_item_1",
        "bid",
        "sqlite_autoindex_bid_1",
        "watch",
        "sqlite_autoindex_watch_1",
        "question",
        "sqlite_autoindex_question_1",
        "feedback",
        "sqlite_autoindex_feedback_1",
        "item_by_category",
        "item_by_seller",
        "item_by_leader",
        "item_by_end",
        "bid_by_member",
        "question_by_asker",
        "feedback_by_receiver",
        "reserve",
        "edition",
        "later_band",
        "sqlite_autoindex_later_band_1",
        "watch_by_item",
    ]
}

// Where each of a house's trees lies in a store. None where two of them lie in one tree. Memory is the
// only fault.
fn house_numbers<S: Alter>(alloc: Global, store: &S) -> Result<Option<Numbers>, KeepFault>
    ensures value { IsClean (S.Store.view store.now) → IfOk result (λ found. MatchOption found
        ((outer : List ℕ) → ¬ AreInverse (house_trees (S.Store.view store.now).trees) outer)
        (λ numbers. numbers.inner.items ≡ house_trees (S.Store.view store.now).trees)) }
    ensures sound { ¬ (IsErrOf result Damaged) }
{
    let Ok(rows) = store.objects(alloc) else {
        return Err(KeepFault::Memory);
    };
    let Ok(trees) = trees_named(alloc, &rows, &house_names()) else {
        return Err(KeepFault::Memory);
    };
    match Numbers::new(alloc, trees) {
        Ok(found) => Ok(found),
        Err(_) => Err(KeepFault::Memory),
    }
}

// Why a store is refused: it holds no database, memory ran out, or it failed.
fn refusal(error: Error) -> KeepFault
    ensures { result ≡ Damaged → error ≡ SqliteFailure NotADatabase }
{
    match error {
        Error::SqliteFailure(ErrorCode::NotADatabase) => KeepFault::Damaged,
        other => fault_of(other),
    }
}

// The connection made anew, with the trees of a house in their order: what wasn't committed is undone,
// and each tree is tested against the schema, so its rows lie in their order.
fn arranged_anew<S: Alter + Drop>(
    alloc: Global,
    conn: Connection<S>,
) -> Result<Connection<Renumbered<S>>, (KeepFault, Renumbered<S>)>
    ensures house { IfOk result (λ c. HasCleanDisk (state (over_numbers S.Store) c)
        → IsHouseSchema (state (over_numbers S.Store) c).now.schema
        → IsHouse (state (over_numbers S.Store) c).now) }
    ensures first { IfOk result (λ c. HasCleanDisk (state (over_numbers S.Store) c)
        → (state (over_numbers S.Store) c).now.schema ≡ first_schema
        → IsFirstHouse (state (over_numbers S.Store) c).now) }
    ensures rests { IfOk result (λ c. HasCleanDisk (state (over_numbers S.Store) c)
        → IsTrue (state (over_numbers S.Store) c).is_open
        × ((state (over_numbers S.Store) c).now ≡ (state (over_numbers S.Store) c).committed)) }
    ensures arranged { IfOk result (λ c. HasCleanDisk (state (over_numbers S.Store) c)
        → IsArranged (state S.Store conn).committed.trees (state (over_numbers S.Store) c).now.trees) }
    ensures mode { IfOk result (λ c. c.in_transaction ≡ false) }
    ensures unlimited { IfOk result (λ c. c.step_limit ≡ None) }
    ensures follows { IfOk result (λ c. FollowsInOrder S.Store conn c.store) }
    ensures left { IfErr result (λ e. FollowsInOrder S.Store conn e.1) }
    ensures damaged { IfErr result (λ e. e.0 ≡ Damaged → IsClean (S.Store.view e.1.inner)
        → ¬ (HoldsHouse (state S.Store conn).committed.trees)) }
    ensures damaged_first { IfErr result (λ e. e.0 ≡ Damaged → IsClean (S.Store.view e.1.inner)
        → ¬ (HoldsFirstHouse (state S.Store conn).committed.trees)) }
{
    let store = conn.into_store();
    if store.is_broken() {
        return Err((KeepFault::Store, Renumbered::plain(alloc, store)));
    }
    let numbers = match house_numbers(alloc, &store) {
        Ok(Some(numbers)) => numbers,
        Ok(None) => return Err((KeepFault::Damaged, Renumbered::plain(alloc, store))),
        Err(fault) => return Err((fault, Renumbered::plain(alloc, store))),
    };
    match Connection::over(alloc, Renumbered::new(store, numbers)) {
        Ok(again) => Ok(again),
        Err((error, left)) => Err((refusal(error), left)),
    }
}

/// The connection made anew, if it holds the tables of a house in any order, which its store then has
/// in that of a house; `Damaged` where it doesn't. After an error the store is given back, which shows
/// in some order what it held.
pub fn house_by_names<S: Alter + Drop>(
    alloc: Global,
    conn: Connection<S>,
) -> Result<Connection<Renumbered<S>>, (KeepFault, Renumbered<S>)>
    ensures house { IfOk result (λ c. HasCleanDisk (state (over_numbers S.Store) c)
        → IsTrue (state (over_numbers S.Store) c).is_open
        × IsHouse (state (over_numbers S.Store) c).now) }
    ensures rests { IfOk result (λ c. HasCleanDisk (state (over_numbers S.Store) c)
        → (state (over_numbers S.Store) c).now ≡ (state (over_numbers S.Store) c).committed) }
    ensures arranged { IfOk result (λ c. HasCleanDisk (state (over_numbers S.Store) c)
        → IsArranged (state S.Store conn).committed.trees (state (over_numbers S.Store) c).now.trees) }
    ensures mode { IfOk result (λ c. c.in_transaction ≡ false) }
    ensures unlimited { IfOk result (λ c. c.step_limit ≡ None) }
    ensures follows { IfOk result (λ c. FollowsInOrder S.Store conn c.store) }
    ensures left { IfErr result (λ e. FollowsInOrder S.Store conn e.1) }
    ensures damaged { IfErr result (λ e. e.0 ≡ Damaged → IsClean (S.Store.view e.1.inner)
        → ¬ (HoldsHouse (state S.Store conn).committed.trees)) }
{
    let again = arranged_anew(alloc, conn)?;
    let is_house = match is_house_schema(alloc, again.schema()) {
        Ok(is_house) => is_house,
        Err(fault) => return Err((fault, again.into_store())),
    };
    if is_house {
        Ok(again)
    } else {
        Err((KeepFault::Damaged, again.into_store()))
    }
}

/// The connection made anew, if it holds the tables of a house of version 1 or of this version in any
/// order, which its store then has in that of a house, and whether it is version 1; `Damaged` where it
/// doesn't. After an error the store is given back, which shows in some order what it held.
pub fn either_by_names<S: Alter + Drop>(
    alloc: Global,
    conn: Connection<S>,
) -> Result<(Connection<Renumbered<S>>, bool), (KeepFault, Renumbered<S>)>
    ensures house { IfOk result (λ r. HasCleanDisk (state (over_numbers S.Store) r.0) → r.1 ≡ false
        → IsTrue (state (over_numbers S.Store) r.0).is_open
        × IsHouse (state (over_numbers S.Store) r.0).now) }
    ensures first { IfOk result (λ r. HasCleanDisk (state (over_numbers S.Store) r.0) → r.1 ≡ true
        → IsTrue (state (over_numbers S.Store) r.0).is_open
        × IsFirstHouse (state (over_numbers S.Store) r.0).now) }
    ensures rests { IfOk result (λ r. HasCleanDisk (state (over_numbers S.Store) r.0)
        → (state (over_numbers S.Store) r.0).now ≡ (state (over_numbers S.Store) r.0).committed) }
    ensures arranged { IfOk result (λ r. HasCleanDisk (state (over_numbers S.Store) r.0)
        → IsArranged (state S.Store conn).committed.trees
        (state (over_numbers S.Store) r.0).now.trees) }
    ensures mode { IfOk result (λ r. r.0.in_transaction ≡ false) }
    ensures unlimited { IfOk result (λ r. r.0.step_limit ≡ None) }
    ensures follows { IfOk result (λ r. FollowsInOrder S.Store conn r.0.store) }
    ensures left { IfErr result (λ e. FollowsInOrder S.Store conn e.1) }
    ensures damaged { IfErr result (λ e. e.0 ≡ Damaged → IsClean (S.Store.view e.1.inner)
        → (¬ (HoldsHouse (state S.Store conn).committed.trees))
        × (¬ (HoldsFirstHouse (state S.Store conn).committed.trees))) }
{
    let again = arranged_anew(alloc, conn)?;
    match is_first_schema(alloc, again.schema()) {
        Ok(is_first) => Ok((again, is_first)),
        Err(fault) => Err((fault, again.into_store())),
    }
}
