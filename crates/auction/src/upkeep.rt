//! `init`, `bands` and `upgrade`: a house in a file is made, or changed by whoever runs it.
ghost use Rattle.std.specs.Prelude.{◌≡◌, ◌≤◌};
ghost use Rattle.auction.specs.Remains.{IsEndedAs, IsLeftAs};
ghost use Rattle.auction_runs.specs.Over.{IsOver};
ghost use Rattle.auction_runs.specs.Runs.{HasDone, HasSetTable, IsLeftBy, IsMadeBy, IsUpgradedAs, MayHaveSetTable};

use crate::houses::KeepInFile;
use crate::remains::{Remains, refuse_house};
use auction_runs::{TaskFault, bands_run, init_run, upgrade_run};
use auction_words::{BandsWords, HouseWords, read_bands, read_settings};
use device::Writing;
use house_rows::Rows;
use std::alloc::Global;

/// Makes a new house in a file.
pub(crate) fn init_file<K: KeepInFile>(
    rt: &HostRuntime,
    alloc: Global,
    path: &str,
    words: &HouseWords<'_>,
    first: K::First,
) -> (u8, Remains<K::Rest, K::Left>)
    ensures made { result.0 ≡ 0 → IsEndedAs (HasDone (IsMadeBy
        (K.is_new path.now) words.now) K.is_ended) result.1 }
    ensures left { IsLeftAs (IsLeftBy (K.is_made path.now) words.now)
        (HasDone (IsMadeBy
        (K.is_new path.now) words.now) (IsOver K.is_ended K.is_left)) result.1 }
    ensures within { result.0 ≤ 1 }
{
    let settings = match read_settings(rt, alloc, words) {
        Ok(settings) => settings,
        Err(fault) => return refuse_house(rt, TaskFault::from(fault), None),
    };
    match K::create(rt, alloc, path, settings, first) {
        Ok(keep) => {
            let mut errors = Writing::new(rt.stderr());
            let (status, left) = init_run(&mut rt.stdout(), &mut errors, keep);
            (status, Remains::Ended(left))
        }
        Err((fault, rest)) => refuse_house(rt, TaskFault::from(fault), rest),
    }
}

// The rows of a band table in a file.
fn read_rows(rt: &HostRuntime, alloc: Global, csv: &str) -> Result<Rows<(u64, u64)>, TaskFault> {
    let bands = match read_bands(rt, alloc, csv) {
        Ok(bands) => bands,
        Err(fault) => return Err(TaskFault::Bands(fault)),
    };
    match bands.rows().to_vec(alloc) {
        Ok(rows) => Ok(Rows::new(rows)),
        Err(_) => Err(TaskFault::Memory),
    }
}

/// Sets a band table in the house in a file. A fault of the table is reported before one of the house.
pub(crate) fn bands_file<K: KeepInFile>(
    rt: &HostRuntime,
    alloc: Global,
    path: &str,
    asked: BandsWords<'_>,
    first: K::First,
) -> (u8, Remains<K::Rest, K::Left>)
    ensures set { result.0 ≡ 0 → IsEndedAs (HasDone (K.is_opened path.now)
        (λ given left. HasSetTable K.Keep (λ last. K.is_ended last left)
        asked.entry.moment given)) result.1 }
    ensures left { IsLeftAs (K.is_held path.now) (HasDone (K.is_opened path.now)
        (MayHaveSetTable K.Keep K.is_ended K.is_left asked.entry.moment)) result.1 }
    ensures within { result.0 ≤ 1 }
{
    let rows = match read_rows(rt, alloc, asked.csv) {
        Ok(rows) => rows,
        Err(fault) => return refuse_house(rt, fault, None),
    };
    match K::open(rt, alloc, path, first) {
        Ok(keep) => {
            let moment = asked.moment;
            let mut errors = Writing::new(rt.stderr());
            let (status, left) = bands_run(&mut rt.stdout(), &mut errors, keep, rows, moment);
            (status, Remains::Ended(left))
        }
        Err((fault, rest)) => refuse_house(rt, TaskFault::from(fault), rest),
    }
}

/// Makes the house in a file one of version 2.
pub(crate) fn upgrade_file<K: KeepInFile>(
    rt: &HostRuntime,
    alloc: Global,
    path: &str,
    first: K::First,
) -> (u8, Remains<K::Rest, K::Left>)
    ensures upgraded { result.0 ≡ 0 → IsEndedAs (HasDone (IsUpgradedAs
        (K.is_upgraded path.now)) K.is_ended) result.1 }
    ensures left { IsLeftAs (K.is_grown path.now)
        (HasDone (IsUpgradedAs (K.is_upgraded path.now)) (IsOver K.is_ended K.is_left)) result.1 }
    ensures within { result.0 ≤ 1 }
{
    match K::upgrade(rt, alloc, path, first) {
        Ok((keep, upgraded)) => {
            let mut errors = Writing::new(rt.stderr());
            let (status, left) = upgrade_run(&mut rt.stdout(), &mut errors, keep, upgraded);
            (status, Remains::Ended(left))
        }
        Err((fault, rest)) => refuse_house(rt, TaskFault::from(fault), rest),
    }
}
