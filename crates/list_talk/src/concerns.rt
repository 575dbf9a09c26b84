//! For each member the items that it is concerned with.
ghost use Rattle.std.specs.Prelude.{◌≡◌, ◌==◌, ℕ, [], nat_le, IfErr, OnOk, filter};
ghost use Rattle.house_rows.specs.declared.fault.KeepFault.TheVariants as fault;
ghost use Rattle.list_rows.specs.Blocks.{IsRising};
ghost use Rattle.list_talk.specs.Index.{IsNoted, concern_key};

use house_rows::KeepFault;
use list_rows::{Keyed, RowKey, block, put};
use std::alloc::Global;
use std::marker::Model;

/// That a member is concerned with an item.
#[derive(Clone, Copy)]
pub(crate) struct Concern {
    /// The number of the member.
    pub member: u32,
    /// The number of the item.
    pub item: u32,
}

impl Keyed for Concern {
    ghost key = { concern_key };

    fn row_key(&self) -> RowKey {
        RowKey::new(u64::from(self.member), u64::from(self.item), 0)
    }
}

/// For each member the items that it is concerned with. Clauses see the list, by member and item. It
/// need only be complete: who looks up a row tests it again.
#[derive(Drop)]
pub(crate) struct Concerns {
    blocks: Vec<Vec<Concern>>,
}

impl Model for Concerns {
    ghost use Rattle.std.specs.Prelude.{List};
    ghost use Rattle.list_rows.specs.Blocks.{IsBlocked, rows_of};
    ghost use Rattle.list_talk.specs.declared.concerns.Concern.{Concern};
    ghost use Rattle.list_talk.specs.Index.{concern_key};

    ghost Value = { List Concern };

    ghost view = { λ c. rows_of c.blocks.items };

    ghost invariant = { λ c. IsBlocked concern_key c.blocks.items };
}

impl Concerns {
    /// Nobody is concerned with an item.
    pub(crate) fn new(alloc: Global) -> Concerns
        ensures { result ≡ [] }
    {
        Concerns {
            blocks: Vec::new(alloc),
        }
    }

    /// The items that a member is concerned with, by number, from one on.
    pub(crate) fn of(&self, member: u64, from: u64) -> &[Concern]
        ensures items { result.now ≡ filter (λ c. nat_le from c.item) (filter (λ c. c.member == member) self.now) }
        ensures rising { IsRising concern_key self.now }
    {
        let own = block(&self.blocks, member);
        &own[own.partition_point(|concern| u64::from(concern.item) < from)..]
    }

    /// Notes that a member is concerned with an item. Nothing is forgotten, also after an error.
    pub(crate) fn note(&mut self, alloc: Global, member: u32, item: u32) -> Result<(), KeepFault>
        ensures noted { OnOk result (IsNoted self.new member item) }
        ensures stays { (m : ℕ) (i : ℕ) → IsNoted self.old m i → IsNoted self.new m i }
        ensures memory { IfErr result (λ e. e ≡ fault.Memory) }
    {
        match put(alloc, &mut self.blocks, Concern { member, item }) {
            // It was noted before.
            Err(KeepFault::Damaged) => Ok(()),
            answer => answer,
        }
    }
}
