//! What a run came to, whose keep was ended.
ghost use Rattle.std.specs.Prelude.{◌≡◌, ◌⊎◌, Err, Ok, IfErr, IfOk, IsOk, OnOk};
ghost use Rattle.auction_runs.specs.Faults.{IsEndFault};

use crate::fault::TaskFault;
use house_rows::KeepFault;

/// What a run came to, after its keep was ended. A fault of the run goes before one of the end.
pub fn outcome_after_end<T: Drop>(
    outcome: Result<T, TaskFault>,
    ended: Result<(), KeepFault>,
) -> Result<T, TaskFault>
    ensures same { IfOk result (λ value. outcome ≡ Ok value) }
    ensures ended { OnOk result (IsOk ended) }
    ensures first { IfErr outcome (λ fault. result ≡ Err fault) }
    ensures fault { IfErr result (λ fault. (outcome ≡ Err fault) ⊎ IsEndFault ended fault) }
{
    let value = outcome?;
    ended?;
    Ok(value)
}
