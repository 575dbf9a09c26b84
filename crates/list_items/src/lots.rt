//! Numbers of items by seller and lot.
ghost use Rattle.std.specs.Prelude.{◌≡◌, ◌==◌, ◌&&◌, ℕ, List, if◌then◌else◌, Some, None, OnOk, OnErr};
ghost use Rattle.house_rows.specs.Text.{same_text};
ghost use Rattle.list_items.specs.Groups.{number_at};
ghost use Rattle.list_rows.specs.Shared.{get_by_shared};

use house_rows::{KeepFault, Text};
use std::alloc::Global;
use std::collections::hash_map::Entry;
use std::collections::{BTreeMap, HashMap};
use std::hash::RandomState;
use std::rc::RcStr;

/// The numbers of a seller's items by their lots.
pub(crate) type Lots = HashMap<RcStr, u32, RandomState>;

/// The number that is at a seller's lot.
pub(crate) fn number_at(sellers: &BTreeMap<u64, Lots>, seller: u64, lot: &str) -> Option<u32>
    ensures { result ≡ number_at sellers.now seller lot.now }
{
    match sellers.get(&seller) {
        Some(lots) => lots.get(lot).copied(),
        None => None,
    }
}

/// A number comes to be at a seller's lot, unless one is there. No result depends on the keys of the
/// hashes.
pub(crate) fn add_lot(
    alloc: Global,
    keys: RandomState,
    sellers: &mut BTreeMap<u64, Lots>,
    seller: u64,
    lot: &Text,
    number: u32,
) -> Result<(), KeepFault>
    ensures ok { OnOk result ((s : ℕ) (l : List ℕ)
        → number_at sellers.new s l ≡ (if (seller == s) && same_text lot.now l then Some number
        else number_at sellers.old s l)) }
    ensures err { OnErr result ((s : ℕ) (l : List ℕ) → number_at sellers.new s l ≡ number_at sellers.old s l) }
    ensures free { OnOk result (number_at sellers.old seller lot.now ≡ None) }
{
    match sellers.get_mut(&seller) {
        Some(lots) => insert_lot(lots, lot, number),
        None => add_first(alloc, keys, sellers, seller, lot, number),
    }
}

// The first lot of a seller.
fn add_first(
    alloc: Global,
    keys: RandomState,
    sellers: &mut BTreeMap<u64, Lots>,
    seller: u64,
    lot: &Text,
    number: u32,
) -> Result<(), KeepFault>
    requires new { (l : List ℕ) → number_at sellers.old seller l ≡ None }
    ensures ok { OnOk result ((s : ℕ) (l : List ℕ)
        → number_at sellers.new s l ≡ (if (seller == s) && same_text lot.now l then Some number
        else number_at sellers.old s l)) }
    ensures err { OnErr result ((s : ℕ) (l : List ℕ) → number_at sellers.new s l ≡ number_at sellers.old s l) }
{
    let mut lots = HashMap::with_hasher(alloc, keys);
    insert_lot(&mut lots, lot, number)?;
    match sellers.insert(seller, lots) {
        Ok(_) => Ok(()),
        Err(_) => Err(KeepFault::Memory),
    }
}

// One more lot of a seller.
fn insert_lot(lots: &mut Lots, lot: &Text, number: u32) -> Result<(), KeepFault>
    ensures ok { OnOk result ((l : List ℕ)
        → get_by_shared lots.new l ≡ (if same_text lot.now l then Some number
        else get_by_shared lots.old l)) }
    ensures err { OnErr result ((l : List ℕ) → get_by_shared lots.new l ≡ get_by_shared lots.old l) }
    ensures free { OnOk result (get_by_shared lots.old lot.now ≡ None) }
{
    let Ok(key) = lot.to_shared() else {
        return Err(KeepFault::Memory);
    };
    match lots.entry(key) {
        Ok(Entry::Vacant(entry)) => {
            let _ = entry.insert(number);
            Ok(())
        }
        Ok(Entry::Occupied(entry)) => {
            // Gives the map back, for the proof.
            let _ = entry.into_mut();
            Err(KeepFault::Damaged)
        }
        Err(_) => Err(KeepFault::Memory),
    }
}
