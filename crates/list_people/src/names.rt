//! The index by which a row is found by its name, and the place of a number.
ghost use Rattle.std.specs.Prelude.{if◌then◌else◌, ◌≡◌, ◌<◌, ◌-◌, ◌^◌, ◌++◌, ◌∷◌, [], ◌==◌, ℕ};
ghost use Rattle.std.specs.Prelude.{List, Some, None, length, slice_get, IfErr, OnOk, OnErr};
ghost use Rattle.std.specs.Option.{option_copied};
ghost use Rattle.house_rows.specs.Text.{same_text};
ghost use Rattle.list_people.specs.Named.{fault_of, place_in};

use house_rows::{KeepFault, Text};
use std::alloc::Global;
use std::collections::HashMap;
use std::collections::hash_map::Entry;
use std::hash::RandomState;
use std::rc::RcStr;

/// For each name the place of its row, counted from 0.
// The hashes have keys of their own: strangers choose the names, and could make them fall together.
#[derive(Drop)]
pub(crate) struct Names {
    places: HashMap<RcStr, u32, RandomState>,
}

impl Names {
    /// The index of no rows.
    pub(crate) fn new(alloc: Global, keys: RandomState) -> Names
        ensures { (name : List ℕ) → place_in result name ≡ None }
    {
        Names {
            places: HashMap::with_hasher(alloc, keys),
        }
    }

    /// The place of a name's row.
    pub(crate) fn place(&self, name: &str) -> Option<usize>
        ensures { result ≡ place_in self.now name.now }
    {
        self.places.get(name).map(|place| *place as usize)
    }

    /// Puts a row after the others, and its name into the index.
    ///
    /// `KeepFault::Damaged` comes where the index has the name, and `KeepFault::Memory` is the only
    /// other error. Rows and index are then as they were.
    pub(crate) fn push<R: Drop>(
        &mut self,
        rows: &mut Vec<R>,
        name: &Text,
        row: R,
    ) -> Result<(), KeepFault>
        requires room { length rows.old.items < 2 ^ 32 }
        ensures row { OnOk result (rows.new.items ≡ rows.old.items ++ row ∷ []) }
        ensures place { OnOk result ((other : List ℕ) → place_in self.new other
            ≡ (if same_text name.now other then Some (length rows.old.items) else place_in self.old other)) }
        ensures rows_left { OnErr result (rows.new.items ≡ rows.old.items) }
        ensures places_left { OnErr result ((other : List ℕ) → place_in self.new other ≡ place_in self.old other) }
        ensures free { OnOk result (place_in self.old name.now ≡ None) }
        ensures fault { IfErr result (λ e. e ≡ fault_of (place_in self.old name.now)) }
    {
        let place = rows.len() as u32;
        // The row's room comes first, so that after the index nothing can fail.
        let Ok(()) = rows.try_reserve(1) else {
            return Err(self.fault(name));
        };
        let Ok(key) = name.to_shared() else {
            return Err(self.fault(name));
        };
        match self.places.entry(key) {
            Ok(Entry::Vacant(entry)) => {
                let _ = entry.insert(place);
            }
            Ok(Entry::Occupied(entry)) => {
                // Gives the table back, for the proof.
                let _ = entry.into_mut();
                return Err(KeepFault::Damaged);
            }
            Err(_) => return Err(KeepFault::Memory),
        }
        let _ = rows.push(row);
        Ok(())
    }

    /// The fault of a row that isn't made: `Damaged` where the index has its name, or else `Memory`.
    pub(crate) fn fault(&self, name: &Text) -> KeepFault
        ensures { result ≡ fault_of (place_in self.now name.now) }
    {
        match self.place(name.as_str()) {
            Some(_) => KeepFault::Damaged,
            None => KeepFault::Memory,
        }
    }
}

/// The row of a number, where numbers run from 1 on.
pub(crate) fn row_at<R>(rows: &[R], number: u64) -> Option<&R>
    ensures { option_copied result ≡ (if number == 0 then None else slice_get rows.now (number - 1)) }
{
    let place = number.checked_sub(1)?;
    rows.get(place as usize)
}
