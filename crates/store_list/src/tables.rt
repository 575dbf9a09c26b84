//! Band tables that are set.
ghost use Rattle.std.specs.Prelude.{◌+◌, ◌<◌, ◌++◌, ◌∷◌, [], ⊤, length};
ghost use Rattle.house_rows.specs.Limits.{most_editions};
ghost use Rattle.list_rows.specs.Makes.{Makes};

use house_rows::{Editions, KeepFault};
use std::alloc::Global;
use steps::Bands;

/// Sets one more band table, which begins with an item that is still to come.
///
/// The only error is `KeepFault::Memory`.
pub(crate) fn set_table(
    alloc: Global,
    editions: &mut Editions,
    first: u32,
    rows: &[(u64, u64)],
) -> Result<(), KeepFault>
    requires room { length editions.old.later + 1 < most_editions }
    ensures { Makes result editions.old editions.new (record {
      settings = editions.old.settings;
      later = editions.old.later ++ record { edition = length editions.old.later + 2; first = first; bands = rows.now } ∷ [];
    }) ⊤ }
{
    let Ok(bands) = Bands::of_rows(alloc, rows) else {
        return Err(KeepFault::Memory);
    };
    editions.set(first, bands)?;
    Ok(())
}
