//! Categories.
ghost use Rattle.std.specs.Prelude.{◌≡◌, ◌<◌, ◌+◌, ◌++◌, ◌∷◌, [], ◌==◌, find, length, None};
ghost use Rattle.std.specs.Option.{option_copied};
ghost use Rattle.house_rows.specs.Limits.{most_categories};
ghost use Rattle.house_rows.specs.Text.{same_text};
ghost use Rattle.list_rows.specs.Makes.{Makes};

use crate::names::{Names, row_at};
use house_rows::{Category, KeepFault, Text};
use std::alloc::Global;
use std::hash::RandomState;
use std::marker::Model;

/// The categories. Clauses see the list of them, in the order in which they were added.
#[derive(Drop)]
pub struct Categories {
    rows: Vec<Category>,
    names: Names,
}

impl Model for Categories {
    ghost use Rattle.std.specs.Prelude.{List};
    ghost use Rattle.house_rows.specs.declared.people.Category.{Category};

    ghost Value = { List Category };

    ghost use Rattle.list_people.specs.Named.{AreNamed};

    ghost view = { λ k. k.rows.items };

    ghost invariant = { λ k. AreNamed (λ (row : Category). row.category) (λ (row : Category). row.name) k.rows.items k.names };
}

impl Categories {
    /// No categories.
    ///
    /// The keys are those of the hashes by which names are found; no result depends on them.
    pub fn new(alloc: Global, keys: RandomState) -> Categories
        ensures { result ≡ [] }
    {
        Categories {
            rows: Vec::new(alloc),
            names: Names::new(alloc, keys),
        }
    }

    /// All categories.
    pub fn rows(&self) -> &[Category]
        ensures { result.now ≡ self.now }
    {
        &self.rows
    }

    /// The category of a number.
    pub fn category(&self, number: u64) -> Option<&Category>
        ensures { option_copied result ≡ find (λ k. k.category == number) self.now }
    {
        row_at(&self.rows, number)
    }

    /// The category of a name.
    pub fn by_name(&self, name: &str) -> Option<&Category>
        ensures { option_copied result ≡ find (λ k. same_text k.name name.now) self.now }
    {
        let place = self.names.place(name)?;
        self.rows.get(place)
    }

    /// A category comes, with the next number.
    ///
    /// `KeepFault::Damaged` comes where the name is taken, and `KeepFault::Memory` is the only other error.
    pub fn add(&mut self, name: &Text) -> Result<(), KeepFault>
        requires room { length self.old < most_categories }
        ensures { Makes result self.old self.new
            (self.old ++ record { category = length self.old + 1; name = name.now } ∷ [])
            (find (λ k. same_text k.name name.now) self.old ≡ None) }
    {
        let Ok(text) = name.try_clone() else {
            return Err(self.names.fault(name));
        };
        let category = Category {
            category: self.rows.len() as u32 + 1,
            name: text,
        };
        self.names.push(&mut self.rows, name, category)?;
        Ok(())
    }
}
