//! The store, and what it reads and writes.
ghost use Rattle.std.specs.Prelude.{◌≡◌, []};

use crate::numbers::Numbers;
use sqlite_trees::error::StoreError;
use sqlite_trees::store::{Alter, Direction, Shape, Store};
use sqlite_value::row::Row;
use std::alloc::Global;

/// A store with the trees of another one under other numbers, which writes nothing of its own.
///
/// While it has numbers it lists no tree anew: `relist` answers `OutOfMemory`, and changes nothing.
/// `create` and `destroy` answer so too where the other store refuses the list that would come of
/// it, since that one is in the other order.
#[derive(Drop)]
pub struct Renumbered<S: Alter> {
    pub(crate) inner: S,
    pub(crate) numbers: Numbers,
}

impl<S: Alter> Renumbered<S> {
    ghost use Rattle.tree_order.specs.Shown.{shown};

    /// Tree t is the tree of `inner` that has its number.
    pub fn new(inner: S, numbers: Numbers) -> Renumbered<S>
        ensures inner { result.inner ≡ inner }
        ensures numbers { result.numbers ≡ numbers }
    {
        Renumbered { inner, numbers }
    }

    /// The store as it is: no tree has another number.
    pub fn plain(alloc: Global, inner: S) -> Renumbered<S>
        ensures inner { result.inner ≡ inner }
        ensures numbers { result.numbers.inner.items ≡ [] }
        ensures view { shown result.numbers (S.Store.view result.inner) ≡ S.Store.view inner }
    {
        Renumbered::new(inner, Numbers::plain(alloc))
    }

    /// Gives the other store back.
    pub fn into_inner(self) -> S
        ensures { result ≡ self.inner }
    {
        let Renumbered { inner, numbers: _ } = self;
        inner
    }
}

impl<S: Alter> Store for Renumbered<S> {
    ghost use Rattle.std.specs.Prelude.{◌⊎◌, option_map, refl};
    ghost use Rattle.std.proofs.Common.{ap, ◌∙◌};
    ghost use Rattle.sqlite_trees.specs.Tree.{Trees};
    ghost use Rattle.sqlite_trees.specs.declared.error.StoreError.TheVariants.{OutOfMemory};
    ghost use Rattle.tree_order.specs.Numbers.{number};
    ghost use Rattle.tree_order.specs.Shown.{shown_trees, shown};
    ghost use Rattle.tree_order.specs.Laws.{ordered_under, unaltered_under};
    ghost use Rattle.tree_order.specs.Laws.{empty_under, survives_under};

    ghost view = { λ s. shown s.numbers (S.Store.view s.inner) };

    ghost faults = { λ s. S.Store.faults s.inner };

    // A crash leaves what it leaves of the other store, under these numbers.
    ghost recovers = { λ s db. (below : Trees)
        × S.Store.recovers s.inner below × (db ≡ shown_trees s.numbers below) };

    ghost is_shielded = { λ s. S.Store.is_shielded s.inner };

    // A call that is refused here does not reach the other store.
    ghost is_step = { λ old new tree. (new ≡ old)
        ⊎ S.Store.is_step old.inner new.inner (option_map (number old.numbers.inner.items) tree) };

    ghost blamed = { λ s. S.Store.blamed s.inner };

    ghost names = { λ old new error. (error ≡ OutOfMemory)
        ⊎ S.Store.names old.inner new.inner error };

    ghost ordered = { λ s sound. ordered_under _ _ s.numbers.inverse (S.Store.view s.inner)
        (S.Alter.listed s.inner sound).itself.0 (S.Store.ordered s.inner sound) };

    ghost shut_if_dirty = { λ s. S.Store.shut_if_dirty s.inner };

    ghost empty_if_dirty = { λ s dirty. empty_under _ _ (S.Store.view s.inner)
        (S.Store.empty_if_dirty s.inner dirty) };

    ghost broken_if_shut = { λ s. S.Store.broken_if_shut s.inner };

    ghost settled = { λ s db is_open may. may.2
        ∙ ap (shown_trees s.numbers) (S.Store.settled s.inner may.0 is_open may.1) };

    ghost stays = { λ s is_open. (
      (S.Store.view s.inner).committed,
      S.Store.stays s.inner is_open,
      refl,
    ) };

    ghost survives = { λ s clean. survives_under s.numbers.inner.items s.numbers.outer.items
        (S.Store.recovers s.inner) (S.Store.survives s.inner clean) };

    ghost unaltered = { λ s sound. unaltered_under _ _ s.numbers.inverse (S.Store.view s.inner)
        (S.Store.unaltered s.inner sound) };

    fn is_broken(&self) -> bool {
        self.inner.is_broken()
    }

    fn shape(&self, tree: u32) -> Shape {
        self.inner.shape(self.numbers.inner_number(tree))
    }

    fn tree_count(&self) -> u64 {
        let listed = self.numbers.len() as u64;
        let below = self.inner.tree_count();
        if below > listed {
            return below;
        }
        let mut count = listed;
        while count > 0 && self.shape((count - 1) as u32) == Shape::Absent {
            count -= 1;
        }
        count
    }

    fn reals(&self, tree: u32) -> u64 {
        self.inner.reals(self.numbers.inner_number(tree))
    }

    fn seek(
        &mut self,
        cursor: u16,
        tree: u32,
        key: &Row,
        direction: Direction,
    ) -> Result<(), StoreError> {
        let tree = self.numbers.inner_number(tree);
        self.inner.seek(cursor, tree, key, direction)
    }

    fn next(&mut self, cursor: u16, row: &mut Row) -> Result<bool, StoreError> {
        self.inner.next(cursor, row)
    }

    fn get(&mut self, table: u32, id: i64, row: &mut Row) -> Result<bool, StoreError> {
        let table = self.numbers.inner_number(table);
        self.inner.get(table, id, row)
    }

    fn put(&mut self, table: u32, row: &Row) -> Result<(), StoreError> {
        let table = self.numbers.inner_number(table);
        self.inner.put(table, row)
    }

    fn delete(&mut self, table: u32, id: i64) -> Result<(), StoreError> {
        let table = self.numbers.inner_number(table);
        self.inner.delete(table, id)
    }

    fn insert(&mut self, index: u32, entry: &Row) -> Result<(), StoreError> {
        let index = self.numbers.inner_number(index);
        self.inner.insert(index, entry)
    }

    fn remove(&mut self, index: u32, entry: &Row) -> Result<(), StoreError> {
        let index = self.numbers.inner_number(index);
        self.inner.remove(index, entry)
    }

    fn commit(&mut self) -> Result<(), StoreError> {
        self.inner.commit()
    }

    fn rollback(&mut self) {
        self.inner.rollback();
    }

    fn savepoint(&mut self) -> Result<(), StoreError> {
        self.inner.savepoint()
    }

    fn release(&mut self) -> Result<(), StoreError> {
        self.inner.release()
    }

    fn rollback_to(&mut self) -> Result<(), StoreError> {
        self.inner.rollback_to()
    }
}
