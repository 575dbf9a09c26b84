//! The list of its objects.
ghost use Rattle.std.specs.Prelude.{◌≡◌, IfErr, IsErrAnd, IsOk, OnOk};
ghost use Rattle.tree_order.specs.Told.{told};

use crate::numbers::Numbers;
use crate::renumbered::Renumbered;
use crate::rows::renumbered_rows;
use sqlite_trees::error::StoreError;
use sqlite_trees::schema::Object;
use sqlite_trees::store::Alter;
use sqlite_value::row::Row;
use std::alloc::{AllocError, Global};

// The answer of the other store, which judges a list by its own order.
fn outer_answer(numbers: &Numbers, done: Result<(), StoreError>) -> Result<(), StoreError>
    ensures ok { OnOk result (IsOk done) }
    ensures err { IfErr result (λ error.
        IsErrAnd done (λ cause. error ≡ told numbers.now.inner.items cause)) }
{
    match done {
        Err(StoreError::Unstorable) if numbers.len() > 0 => Err(StoreError::OutOfMemory),
        answer => answer,
    }
}

impl<S: Alter> Alter for Renumbered<S> {
    ghost use Rattle.tree_order.specs.Laws.{listed_view};

    ghost listed = { λ s sound. listed_view _ _ s.numbers.inverse (S.Store.view s.inner)
        (S.Store.ordered s.inner sound) (S.Alter.listed s.inner sound) };

    fn objects(&self, alloc: Global) -> Result<Vec<Row>, AllocError> {
        let rows = self.inner.objects(alloc)?;
        renumbered_rows(alloc, &self.numbers, rows)
    }

    fn create(&mut self, tree: u32, object: &Object<'_>) -> Result<(), StoreError> {
        let tree = self.numbers.inner_number(tree);
        let done = self.inner.create(tree, object);
        outer_answer(&self.numbers, done)
    }

    fn destroy(&mut self, tree: u32) -> Result<(), StoreError> {
        let tree = self.numbers.inner_number(tree);
        let done = self.inner.destroy(tree);
        outer_answer(&self.numbers, done)
    }

    fn relist(&mut self, changes: &[(u32, Object<'_>)]) -> Result<(), StoreError> {
        if self.numbers.len() > 0 {
            return Err(StoreError::OutOfMemory);
        }
        self.inner.relist(changes)
    }

    fn version(&self) -> u32 {
        self.inner.version()
    }

    fn set_version(&mut self, version: u32) -> Result<(), StoreError> {
        self.inner.set_version(version)
    }
}
