//! Members.
ghost use Rattle.std.specs.Prelude.{◌≡◌, ◌<◌, ◌+◌, ◌++◌, ◌∷◌, [], find, length, None};
ghost use Rattle.std.specs.Option.{option_copied};
ghost use Rattle.house_rows.specs.Limits.{most_members};
ghost use Rattle.house_rows.specs.Pages.{member_at};
ghost use Rattle.house_rows.specs.Text.{same_text};
ghost use Rattle.list_rows.specs.Makes.{Makes};

use crate::names::{Names, row_at};
use house_rows::{KeepFault, Member, Text};
use std::alloc::Global;
use std::hash::RandomState;
use std::marker::Model;

/// The members. Clauses see the list of them, in order of registration.
#[derive(Drop)]
pub struct Members {
    rows: Vec<Member>,
    names: Names,
}

impl Model for Members {
    ghost use Rattle.std.specs.Prelude.{List};
    ghost use Rattle.house_rows.specs.declared.people.Member.{Member};

    ghost Value = { List Member };

    ghost use Rattle.list_people.specs.Named.{AreNamed};

    ghost view = { λ m. m.rows.items };

    ghost invariant = { λ m. AreNamed (λ (row : Member). row.member) (λ (row : Member). row.name) m.rows.items m.names };
}

impl Members {
    /// No members.
    ///
    /// The keys are those of the hashes by which names are found; no result depends on them.
    pub fn new(alloc: Global, keys: RandomState) -> Members
        ensures { result ≡ [] }
    {
        Members {
            rows: Vec::new(alloc),
            names: Names::new(alloc, keys),
        }
    }

    /// All members.
    pub fn rows(&self) -> &[Member]
        ensures { result.now ≡ self.now }
    {
        &self.rows
    }

    /// The member of a number.
    pub fn member(&self, number: u64) -> Option<&Member>
        ensures { option_copied result ≡ member_at self.now number }
    {
        row_at(&self.rows, number)
    }

    /// The member of a name.
    pub fn by_name(&self, name: &str) -> Option<&Member>
        ensures { option_copied result ≡ find (λ m. same_text m.name name.now) self.now }
    {
        let place = self.names.place(name)?;
        self.rows.get(place)
    }

    /// A member comes, with the next number.
    ///
    /// `KeepFault::Damaged` comes where the name is taken, and `KeepFault::Memory` is the only other error.
    pub fn register(&mut self, name: &Text) -> Result<(), KeepFault>
        requires room { length self.old < most_members }
        ensures { Makes result self.old self.new
            (self.old ++ record { member = length self.old + 1; name = name.now } ∷ [])
            (find (λ m. same_text m.name name.now) self.old ≡ None) }
    {
        let Ok(text) = name.try_clone() else {
            return Err(self.names.fault(name));
        };
        let member = Member {
            member: self.rows.len() as u32 + 1,
            name: text,
        };
        self.names.push(&mut self.rows, name, member)?;
        Ok(())
    }
}
