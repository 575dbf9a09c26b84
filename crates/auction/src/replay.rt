//! `replay`: standard input over a new house in memory.
ghost use Rattle.std.specs.Prelude.{◌≡◌, ◌≤◌, IfErr, IfOk};
ghost use Rattle.auction.specs.Tasks.{IsMadeNew};
ghost use Rattle.auction_runs.specs.Faults.{IsOfSettings};
ghost use Rattle.auction_words.specs.Houses.{IsNew};

use crate::houses::KeepInMemory;
use auction_runs::{TaskFault, finish_run, replay_run};
use auction_words::{HouseWords, Replay, read_settings};
use device::{Reading, Writing};
use std::alloc::Global;

// A new house in memory.
fn new_house<K: KeepInMemory>(
    rt: &HostRuntime,
    alloc: Global,
    words: &HouseWords<'_>,
) -> Result<K, TaskFault>
    ensures new { IfOk result (λ keep. IsNew words.now (K.content keep)) }
    ensures fault { IfErr result (IsOfSettings words.now) }
{
    let settings = read_settings(rt, alloc, words)?;
    Ok(K::create(rt, alloc, settings)?)
}

/// Answers standard input over a new house in memory.
pub(crate) fn replay_input<K: KeepInMemory>(
    rt: &HostRuntime,
    alloc: Global,
    words: &HouseWords<'_>,
    asked: Replay,
) -> u8
    ensures made { result ≡ 0 → IsMadeNew K.content words.now }
    ensures within { result ≤ 1 }
{
    let mut errors = Writing::new(rt.stderr());
    match new_house::<K>(rt, alloc, words) {
        Ok(keep) => {
            let mut source = Reading::new(rt.reader());
            let mut sink = Writing::new(rt.stdout());
            replay_run(alloc, &mut source, &mut sink, &mut errors, keep, asked)
        }
        Err(fault) => finish_run(&mut errors, Err(fault)),
    }
}
