//! The reserves of a house, as a keep holds them beside its file.
ghost use Rattle.std.specs.Prelude.{◌≡◌, ◌<◌, ◌++◌, ◌∷◌, [], All, List, IfSome, IsSome, OnErr, OnOk, IsErrOf};
ghost use Rattle.house_rows.specs.declared.fault.KeepFault.TheVariants.{Damaged, Store};
ghost use Rattle.store_rows.specs.ItemRows.{amount_of};
ghost use Rattle.store_rows.specs.Reserves.{AreRising};
ghost use Rattle.store_rows.specs.declared.reserve.ReserveRow.{ReserveRow as TheRow};

use crate::reserve::ReserveRow;
use cents::Cents;
use house_rows::KeepFault;
use list_rows::push;
use std::alloc::Global;
use std::marker::Model;

/// The reserves of a house, by item. Clauses see the rows. Their items rise, so that one is found by
/// a binary search.
#[derive(Drop)]
pub struct Reserves {
    rows: Vec<ReserveRow>,
}

impl Model for Reserves {
    ghost use Rattle.std.specs.Prelude.{List};
    ghost use Rattle.store_rows.specs.declared.reserve.ReserveRow.{ReserveRow};
    ghost use Rattle.store_rows.specs.Reserves.{AreRising};

    ghost Value = { List ReserveRow };

    ghost view = { λ r. r.rows.items };

    ghost invariant = { λ r. AreRising r.rows.items };
}

impl Reserves {
    /// Those of a house that has none.
    pub fn new(alloc: Global) -> Reserves
        ensures { result ≡ [] }
    {
        Reserves {
            rows: Vec::new(alloc),
        }
    }

    /// Those that rows give, where the items rise.
    pub fn from_rows(rows: Vec<ReserveRow>) -> Option<Reserves>
        ensures value { IfSome result (λ r. r ≡ rows.items) }
        ensures rising { AreRising rows.items → IsSome result }
    {
        if rows.is_sorted_by(|row, next| row.item < next.item) {
            Some(Reserves { rows })
        } else {
            None
        }
    }

    /// Adds that of an item as the last.
    ///
    /// `Damaged` where the item has a number under the last, or that of the last. After an error all
    /// is as it was.
    pub fn add(&mut self, item: u32, amount: Cents) -> Result<(), KeepFault>
        ensures value { OnOk result (self.new ≡ self.old ++ record { item = item; amount = amount }
            ∷ []) }
        ensures left { OnErr result (self.new ≡ self.old) }
        ensures sound { All (λ r. r.item < item) self.old → ¬ (IsErrOf result Damaged) }
        ensures working { ¬ (IsErrOf result Store) }
    {
        match self.rows.last() {
            Some(last) if last.item >= item => Err(KeepFault::Damaged),
            _ => push(&mut self.rows, ReserveRow { item, amount }),
        }
    }

    /// Takes the last back, if there is one.
    pub fn remove_last(&mut self)
        ensures value { (before : List TheRow) (last : TheRow) → self.old ≡ before ++ last ∷ []
            → self.new ≡ before }
        ensures empty { self.old ≡ [] → self.new ≡ [] }
    {
        self.rows.pop();
    }

    /// The reserve of an item, if it has one.
    pub fn amount(&self, item: u64) -> Option<Cents>
        ensures { result ≡ amount_of self.now item }
    {
        match self
            .rows
            .binary_search_by_key(&item, |row| u64::from(row.item))
        {
            Ok(at) => Some(self.rows[at].amount),
            Err(_) => None,
        }
    }
}
