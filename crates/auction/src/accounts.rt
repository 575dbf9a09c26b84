//! `statement`: a member's statement, from the house in a file.
ghost use Rattle.std.specs.Prelude.{◌≡◌, ◌≤◌};
ghost use Rattle.auction.specs.Remains.{IsEndedAs, IsLeftAs};
ghost use Rattle.auction_runs.specs.Stated.{HasRead};
ghost use Rattle.auction_runs.specs.Over.{IsReadOver};
ghost use Rattle.auction_runs.specs.Runs.{HasAsked, HasDone};
ghost use Rattle.settle.specs.Statement.{Account as TheAccount};

use crate::houses::KeepInFile;
use crate::remains::{Remains, refuse_house};
use auction_runs::{Inquiry, TaskFault, statement_run};
use auction_words::StatementWords;
use device::Writing;
use std::alloc::Global;

// Prints a statement from the house of a keep, and ends it.
fn state_keep<K: KeepInFile>(
    rt: &HostRuntime,
    alloc: Global,
    keep: K,
    asked: Inquiry,
) -> (u8, K::Left)
    ensures stated { result.0 ≡ 0 → (account : TheAccount) × HasRead K.content K.is_failed
        K.is_honest K.may_leave (λ last. K.is_ended last result.1) asked keep account }
    ensures left { IsReadOver K.content K.is_failed K.is_honest K.may_leave K.is_ended K.is_left
        keep result.1 }
    ensures within { result.0 ≤ 1 }
{
    let mut sink = Writing::new(rt.stdout());
    statement_run(
        alloc,
        keep,
        asked,
        &mut sink,
        &mut Writing::new(rt.stderr()),
    )
}

/// Prints a statement from the house in a file. A fault of what is asked is reported before one of the
/// file.
pub(crate) fn statement_file<K: KeepInFile>(
    rt: &HostRuntime,
    alloc: Global,
    path: &str,
    words: &StatementWords<'_>,
    first: K::First,
) -> (u8, Remains<K::Rest, K::Left>)
    ensures stated { result.0 ≡ 0 → IsEndedAs (HasDone (K.is_opened path.now)
        (λ given left. HasAsked K.Keep (λ last. K.is_ended last left) words.now given)) result.1 }
    ensures left { IsLeftAs (K.is_held path.now) (HasDone (K.is_opened path.now)
        (IsReadOver K.content K.is_failed K.is_honest K.may_leave K.is_ended K.is_left)) result.1 }
    ensures within { result.0 ≤ 1 }
{
    let asked = match Inquiry::read(words) {
        Ok(asked) => asked,
        Err(fault) => return refuse_house(rt, fault, None),
    };
    match K::open(rt, alloc, path, first) {
        Ok(keep) => {
            let (status, left) = state_keep::<K>(rt, alloc, keep, asked);
            (status, Remains::Ended(left))
        }
        Err((fault, rest)) => refuse_house(rt, TaskFault::from(fault), rest),
    }
}
