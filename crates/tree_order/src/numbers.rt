//! The numbers of trees in two stores, and the way back.
ghost use Rattle.std.specs.Prelude.{◌≡◌, ℕ, List, [], length, IfOk, MatchOption};
ghost use Rattle.tree_order.specs.Numbers.{number, AreInverse};
ghost use Rattle.tree_order.specs.Rows.{shifted};

use std::alloc::{AllocError, Global};

/// How many trees a file has at most.
const MOST: usize = 65_536;

/// Stands where no number is set.
const UNSET: u32 = u32::MAX;

/// Which tree of another store each tree is: a permutation, and past its length each tree itself.
#[derive(Debug, Drop)]
pub struct Numbers {
    inner: Vec<u32>,
    /// Leads back from the numbers in `inner`.
    outer: Vec<u32>,
    ghost inverse: { AreInverse inner.items outer.items },
}

// The list that leads back from the numbers.
fn inverse(alloc: Global, numbers: &[u32]) -> Result<Option<Vec<u32>>, AllocError>
    ensures { IfOk result (λ found. MatchOption found
        ((outer : List ℕ) → ¬ AreInverse numbers.now outer)
        (λ outer. AreInverse numbers.now outer.items)) }
{
    if numbers.len() > MOST {
        return Ok(None);
    }
    let mut outer = vec![in alloc; UNSET; numbers.len()]?;
    for tree in 0..numbers.len() {
        let number = numbers[tree] as usize;
        if number >= outer.len() || outer[number] != UNSET {
            return Ok(None);
        }
        outer[number] = tree as u32;
    }
    if outer.contains(&UNSET) {
        return Ok(None);
    }
    Ok(Some(outer))
}

impl Numbers {
    /// Each tree has its own number.
    pub fn plain(alloc: Global) -> Numbers
        ensures { (result.inner.items ≡ []) × (result.outer.items ≡ []) }
    {
        Numbers {
            inner: Vec::new(alloc),
            outer: Vec::new(alloc),
        }
    }

    /// Tree t is tree `inner[t]` of the other store. None where the list is no permutation of the
    /// numbers below its length, or has more than 65,536.
    pub fn new(alloc: Global, inner: Vec<u32>) -> Result<Option<Numbers>, AllocError>
        ensures { IfOk result (λ found. MatchOption found
            ((outer : List ℕ) → ¬ AreInverse inner.items outer)
            (λ numbers. numbers.inner.items ≡ inner.items)) }
    {
        match inverse(alloc, &inner)? {
            Some(outer) => Ok(Some(Numbers { inner, outer })),
            None => Ok(None),
        }
    }

    /// How many trees may have other numbers.
    pub fn len(&self) -> usize
        ensures { result ≡ length self.now.inner.items }
    {
        self.inner.len()
    }

    /// The number in the other store.
    pub fn inner_number(&self, tree: u32) -> u32
        ensures { result ≡ number self.now.inner.items tree }
    {
        self.inner.get(tree as usize).copied().unwrap_or(tree)
    }

    /// The rowid in `sqlite_schema` under the number outside, which is one less.
    pub(crate) fn outer_id(&self, id: i64) -> i64
        ensures { result ≡ shifted self.now.outer.items id }
    {
        if id < 1 {
            return id;
        }
        match self.outer.get(id as usize - 1) {
            Some(tree) => i64::from(*tree) + 1,
            None => id,
        }
    }
}
