//! `import`: the rows of a lot file, in the house in a file.
ghost use Rattle.std.specs.Prelude.{◌≡◌, ◌≤◌};
ghost use Rattle.auction.specs.Remains.{IsEndedAs, IsLeftAs};
ghost use Rattle.auction_runs.specs.Listed.{HasTaken, IsOrderedOver};
ghost use Rattle.auction_runs.specs.Runs.{HasDone};

use crate::houses::KeepInFile;
use crate::input::open_input;
use crate::remains::{Remains, refuse_house};
use auction_runs::{TaskFault, import_run};
use auction_words::ImportWords;
use device::Writing;
use office::Lister;
use std::alloc::Global;
use std::io::{BufWriter, Write};

// Lists the rows of a lot file in the house of a keep, and ends it.
fn import_keep<K: KeepInFile, W: Write>(
    rt: &HostRuntime,
    alloc: Global,
    keep: K,
    asked: ImportWords<'_>,
    output: &mut W,
) -> (u8, K::Left)
    ensures imported { result.0 ≡ 0 → HasTaken K.content K.is_failed K.is_honest K.may_leave
        (λ last. K.is_ended last result.1)
        (record { member = asked.entry.member; moment = asked.entry.moment }) keep }
    ensures left { IsOrderedOver K.content K.is_failed K.is_honest K.may_leave K.is_ended
        K.is_left (record { member = asked.entry.member; moment = asked.entry.moment }) keep
        result.1 }
    ensures within { result.0 ≤ 1 }
{
    let lots = open_input(rt, asked.lots);
    let by = Lister {
        member: asked.member,
        moment: asked.moment,
    };
    import_run(
        alloc,
        keep,
        lots,
        by,
        output,
        &mut Writing::new(rt.stderr()),
    )
}

/// Lists the rows of a lot file in the house in a file, and prints what became of them. What is printed
/// is held back until it is much.
pub(crate) fn import_file<K: KeepInFile>(
    rt: &HostRuntime,
    alloc: Global,
    path: &str,
    asked: ImportWords<'_>,
    first: K::First,
) -> (u8, Remains<K::Rest, K::Left>)
    ensures imported { result.0 ≡ 0 → IsEndedAs (HasDone (K.is_opened path.now)
        (λ given left. HasTaken K.content K.is_failed K.is_honest K.may_leave
        (λ last. K.is_ended last left)
        (record { member = asked.entry.member; moment = asked.entry.moment }) given)) result.1 }
    ensures left { IsLeftAs (K.is_held path.now) (HasDone (K.is_opened path.now)
        (IsOrderedOver K.content K.is_failed K.is_honest K.may_leave K.is_ended K.is_left
        (record { member = asked.entry.member; moment = asked.entry.moment }))) result.1 }
    ensures within { result.0 ≤ 1 }
{
    let Ok(mut output) = BufWriter::new(alloc, rt.stdout()) else {
        return refuse_house(rt, TaskFault::Memory, None);
    };
    match K::open(rt, alloc, path, first) {
        Ok(keep) => {
            let (status, left) = import_keep::<K, _>(rt, alloc, keep, asked, &mut output);
            (status, Remains::Ended(left))
        }
        Err((fault, rest)) => refuse_house(rt, TaskFault::from(fault), rest),
    }
}
