//! Why nothing is shown or done.
ghost use Rattle.std.specs.Prelude.{◌≡◌, IsTrue, map, Some, None};
ghost use Rattle.house_rows.specs.Names.{refusal_name, refusal_number};
ghost use Rattle.pages_json.specs.Fields.{are_keys, member_of};
ghost use Rattle.pages_json.specs.Words.{AreInOrder, object_of};
ghost use Rattle.pages_text.specs.Trees.{fault_word, floor_reported, refused_with};

use house_rows::{KeepFault, Refusal};
use pages_json::{Field, Shows, key, put_object};
use std::alloc::{AllocError, Global};

// The floor that is reported of a bid under it, in cents.
pub(crate) fn floor_reported(refusal: Refusal) -> Option<u64>
    ensures { result ≡ floor_reported refusal }
{
    match refusal {
        Refusal::Low { floor } => Some(floor),
        _ => None,
    }
}

// The keys of a refusal that gives no floor, and what they have.
pub(crate) fn plain_fields(refusal: Refusal) -> [(&'static str, Field<'static>); 2]
    ensures tree { object_of (map member_of result)
        ≡ refused_with (refusal_name refusal) (refusal_number refusal) None }
    ensures order { AreInOrder (map member_of result) }
    ensures keys { IsTrue (are_keys result) }
{
    [
        (key!("error"), Field::Text(refusal.name())),
        (key!("number"), Field::Number(u64::from(refusal.number()))),
    ]
}

// And those of one that gives it.
pub(crate) fn fields_with(refusal: Refusal, floor: u64) -> [(&'static str, Field<'static>); 3]
    ensures tree { object_of (map member_of result)
        ≡ refused_with (refusal_name refusal) (refusal_number refusal) (Some floor) }
    ensures order { AreInOrder (map member_of result) }
    ensures keys { IsTrue (are_keys result) }
{
    [
        (key!("error"), Field::Text(refusal.name())),
        (key!("floor"), Field::Number(floor)),
        (key!("number"), Field::Number(u64::from(refusal.number()))),
    ]
}

/// Refusals.
#[derive(Clone, Copy)]
pub struct AsRefusals;

impl Shows<Refusal> for AsRefusals {
    ghost use Rattle.pages_text.specs.Trees.{refusal_tree};

    ghost tree = { λ _ refusal. refusal_tree refusal };

    fn put(&self, alloc: Global, out: &mut Vec<u8>, refusal: &Refusal) -> Result<(), AllocError> {
        match floor_reported(*refusal) {
            None => put_object(alloc, out, &plain_fields(*refusal)),
            Some(floor) => put_object(alloc, out, &fields_with(*refusal, floor)),
        }
    }
}

// The word that is reported of a fault.
fn fault_word(fault: KeepFault) -> &'static str
    ensures { result.now ≡ fault_word fault }
{
    match fault {
        KeepFault::Memory => "memory",
        KeepFault::Store => "store",
        KeepFault::Damaged => "damaged",
    }
}

/// Faults of a keep.
#[derive(Clone, Copy)]
pub struct AsFaults;

impl Shows<KeepFault> for AsFaults {
    ghost use Rattle.pages_text.specs.Trees.{fault_tree};

    ghost tree = { λ _ fault. fault_tree fault };

    fn put(&self, alloc: Global, out: &mut Vec<u8>, fault: &KeepFault) -> Result<(), AllocError> {
        put_object(
            alloc,
            out,
            &[(key!("error"), Field::Text(fault_word(*fault)))],
        )
    }
}
