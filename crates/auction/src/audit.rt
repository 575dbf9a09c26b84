//! `audit` and `surplus`: the messages of files, over new houses or over copies of one in a file.
ghost use Rattle.std.specs.Prelude.{◌≡◌, ◌≤◌, IfOk};
ghost use Rattle.auction.specs.Tasks.{IsBegunNew, IsMadeNew};
ghost use Rattle.auction_words.specs.Houses.{IsNew};

use crate::copies::{CopiedKeep, Copies, StoreInMemory};
use crate::files::Place;
use crate::houses::KeepInMemory;
use crate::input::open_source;
use auction_runs::{Houses, Raise, Run, TaskFault, Trial, audit_run, finish_run, surplus_run};
use auction_words::{
    AuditWords, Beginning, HouseWords, SurplusWords, read_settings, same_settings,
};
use device::Writing;
use house_rows::Keep;
use sqlite::FileStore;
use sqlite_disk::Memory;
use std::alloc::Global;
use store::SqlKeep;
use store_files::InMemory;
use tree_order::Renumbered;

/// What is answered over two houses, and compared.
#[derive(Clone, Copy)]
pub enum Comparison<'a> {
    /// The messages of two files.
    Audit(AuditWords<'a>),
    /// Those of one, and the same with a bid raised.
    Surplus(SurplusWords<'a>),
}

// Two new houses in memory, set up alike.
fn new_houses<K: KeepInMemory>(
    rt: &HostRuntime,
    alloc: Global,
    words: &HouseWords<'_>,
) -> Result<(K, K), TaskFault>
    ensures new { IfOk result (λ keeps. IsNew words.now (K.content keeps.0)) }
    ensures same { IfOk result (λ keeps. K.content keeps.1 ≡ K.content keeps.0) }
{
    let settings = read_settings(rt, alloc, words)?;
    let same = same_settings(alloc, &settings)?;
    let left = K::create(rt, alloc, settings)?;
    let right = K::create(rt, alloc, same)?;
    Ok((left, right))
}

// Compares the messages of two files.
fn audit_keeps<K: Keep + Drop>(
    rt: &HostRuntime,
    alloc: Global,
    houses: Houses,
    left: K,
    right: K,
    asked: AuditWords<'_>,
) -> u8
    ensures { result ≤ 1 }
{
    let left = Run {
        keep: left,
        source: open_source(rt, asked.left),
    };
    let right = Run {
        keep: right,
        source: open_source(rt, asked.right),
    };
    let mut errors = Writing::new(rt.stderr());
    audit_run(
        alloc,
        houses,
        left,
        right,
        asked.member,
        &mut rt.stdout(),
        &mut errors,
    )
}

// Raises a bid of the messages of a file.
fn surplus_keeps<K: Keep + Drop>(
    rt: &HostRuntime,
    alloc: Global,
    houses: Houses,
    left: K,
    right: K,
    asked: SurplusWords<'_>,
) -> u8
    ensures { result ≤ 1 }
{
    let trial = Trial {
        left,
        right,
        source: open_source(rt, asked.list),
    };
    let raise = Raise {
        place: asked.place,
        maximum: asked.maximum,
        other: asked.member,
    };
    let mut errors = Writing::new(rt.stderr());
    surplus_run(alloc, houses, trial, raise, &mut rt.stdout(), &mut errors)
}

// Compares over the houses of two keeps.
fn compare_keeps<K: Keep + Drop>(
    rt: &HostRuntime,
    alloc: Global,
    houses: Houses,
    left: K,
    right: K,
    asked: Comparison<'_>,
) -> u8
    ensures { result ≤ 1 }
{
    match asked {
        Comparison::Audit(asked) => audit_keeps(rt, alloc, houses, left, right, asked),
        Comparison::Surplus(asked) => surplus_keeps(rt, alloc, houses, left, right, asked),
    }
}

// Compares over new houses.
fn compare_new<K: KeepInMemory>(
    rt: &HostRuntime,
    alloc: Global,
    words: &HouseWords<'_>,
    asked: Comparison<'_>,
) -> u8
    ensures made { result ≡ 0 → IsMadeNew K.content words.now }
    ensures within { result ≤ 1 }
{
    match new_houses::<K>(rt, alloc, words) {
        Ok((left, right)) => compare_keeps(rt, alloc, Houses::New, left, right, asked),
        Err(fault) => finish_run(&mut Writing::new(rt.stderr()), Err(fault)),
    }
}

// Compares over copies of the house in a file.
fn compare_copies<K: CopiedKeep, T: Place>(
    rt: &HostRuntime,
    alloc: Global,
    path: &str,
    asked: Comparison<'_>,
    first: T,
) -> u8
    ensures { result ≤ 1 }
{
    match K::open_twice(rt, alloc, path, first) {
        Ok(Copies { left, right, .. }) => {
            compare_keeps(rt, alloc, Houses::Living, left, right, asked)
        }
        Err(fault) => finish_run(&mut Writing::new(rt.stderr()), Err(TaskFault::from(fault))),
    }
}

// The same, of copies in a store in memory.
fn compare_house<S: StoreInMemory, T: Place>(
    rt: &HostRuntime,
    alloc: Global,
    path: &str,
    asked: Comparison<'_>,
    first: T,
) -> u8
    ensures { result ≤ 1 }
{
    compare_copies::<SqlKeep<S>, T>(rt, alloc, path, asked, first)
}

// The same, of copies on a disk in memory. Here the store is named, over any such disk: what runs over
// any store can't be called of it by its full name.
fn compare_on<D: InMemory, T: Place>(
    rt: &HostRuntime,
    alloc: Global,
    path: &str,
    asked: Comparison<'_>,
    first: T,
) -> u8
    ensures { result ≤ 1 }
{
    compare_house::<Renumbered<FileStore<D>>, T>(rt, alloc, path, asked, first)
}

/// Compares what is asked for, over new houses or over copies of the house in a file.
pub(crate) fn compare<M: KeepInMemory, T: Place>(
    rt: &HostRuntime,
    alloc: Global,
    begun: &Beginning<'_>,
    asked: Comparison<'_>,
    first: T,
) -> u8
    ensures made { result ≡ 0 → IsBegunNew M.content begun.now }
    ensures within { result ≤ 1 }
{
    match begun {
        Beginning::New(house) => compare_new::<M>(rt, alloc, house, asked),
        Beginning::House(path) => compare_on::<Memory, T>(rt, alloc, path, asked, first),
    }
}
