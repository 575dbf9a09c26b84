//! The result of a bid: the standing of its item after it, by no maximum.
ghost use Rattle.std.specs.Prelude.{◌≡◌, IfOk};
ghost use Rattle.house_rows.specs.Keeping.{Faults};
ghost use Rattle.house_rows.specs.Tables.{bands_for};
ghost use Rattle.house_rows.specs.Taken.{IsUndamaged};
ghost use Rattle.site_results.specs.ByTables.{kept_floor};

use house_rows::{CommandResult, Keep, KeepFault};
use proxy::Standing;

/// The result of a bid on an item that leaves this standing, whether or not bids leave such a one.
pub(crate) fn tell_bid<K: Keep>(
    keep: &K,
    item: u32,
    standing: &Standing,
) -> Result<CommandResult, KeepFault>
    ensures value { K.is_honest keep.now → IfOk result (λ r. r
        ≡ CommandResult.Placed standing.now.count
        (kept_floor (bands_for (K.content keep.now) item) standing.now)
        standing.now.leader standing.now.price) }
    ensures faults { Faults result (K.is_honest keep.now) (K.is_failed keep.now) (K.content keep.now) }
    ensures damaged { K.is_honest keep.now → IsUndamaged result }
{
    let bands = keep.editions()?.bands_for(u64::from(item));
    let floor = standing.floor(bands);
    Ok(CommandResult::Placed {
        count: standing.count(),
        floor,
        leader: standing.leader(),
        price: standing.price(),
    })
}
