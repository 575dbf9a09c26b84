//! How empty keeps are made.
ghost use Rattle.std.specs.Prelude.{◌≡◌, [], IfOk};
ghost use Rattle.house_rows.specs.Tables.{tables_of};

use house_rows::{Keep, KeepFault, Settings};
use std::alloc::Global;

/// What makes keeps of houses to which nothing has happened yet.
pub trait Makes<K: Keep> {
    /// A keep without members.
    fn empty(&self, alloc: Global, settings: Settings) -> Result<K, KeepFault>
        ensures empty { IfOk result (λ keep. K.is_honest keep → K.content keep ≡ tables_of settings []) };
}
