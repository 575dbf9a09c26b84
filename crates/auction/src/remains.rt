//! What a run leaves of the file of a house.
ghost use Rattle.std.specs.Prelude.{◌≡◌};
ghost use Rattle.auction.specs.Remains.{remains_of};

use auction_runs::{TaskFault, finish_run};
use device::Writing;

/// What a run leaves of the file of a house. Whoever drops it closes the file.
#[derive(Drop)]
pub enum Remains<R, L> {
    /// The file wasn't opened.
    Unopened,
    /// No keep was made or opened in it.
    Refused(R),
    /// A keep was, and it was ended.
    Ended(L),
}

/// The end of a run in which no keep was made or opened: its exit status, and what is left of the file
/// if it was opened.
pub fn refuse_house<R: Drop, L: Drop>(
    rt: &HostRuntime,
    fault: TaskFault,
    rest: Option<R>,
) -> (u8, Remains<R, L>)
    ensures status { result.0 ≡ 1 }
    ensures left { result.1 ≡ remains_of rest }
{
    let left = match rest {
        Some(rest) => Remains::Refused(rest),
        None => Remains::Unopened,
    };
    (finish_run(&mut Writing::new(rt.stderr()), Err(fault)), left)
}
