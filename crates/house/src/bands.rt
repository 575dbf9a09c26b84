//! Setting a new band table.
ghost use Rattle.std.specs.Prelude.{◌≡◌, ◌+◌, ◌++◌, ⊤, IfOk, false, true, length};
ghost use Rattle.proxy.specs.Rules.{first_failing};
ghost use Rattle.house_rows.specs.Answers.{Answers};
ghost use Rattle.house_rows.specs.declared.command.Command.TheVariants as command;
ghost use Rattle.house_rows.specs.Keeping.{Faults};
ghost use Rattle.house_rows.specs.Taken.{IsUndamaged};
ghost use Rattle.house_rows.specs.Verdict.{table_rules};
ghost use Rattle.house.specs.Decides.{Decides};
ghost use Rattle.house.specs.Judged.{first_rules};

use crate::targets::common;
use house_rows::{Change, Keep, KeepFault, MOST_EDITIONS, Refusal, Rows};
use steps::Bands;

/// Decides on a new band table, each row of which is (at, step) in cents.
pub fn set_bands<'c, K: Keep>(
    keep: &mut K,
    moment: u64,
    caller: u64,
    bands: &'c Rows<(u64, u64)>,
) -> Result<Result<Change<'c>, Refusal>, KeepFault>
    ensures { Decides K.Keep keep.old keep.new result moment caller (command.SetBands bands.now) }
{
    match set_bands_refused(keep, moment, caller, bands)? {
        Some(refusal) => Ok(Err(refusal)),
        None => Ok(Ok(Change::SetBands {
            moment,
            bands: bands.as_slice(),
        })),
    }
}

// Why that is refused.
#[tactic(auto, using(crate::proofs::Found::first_some, crate::proofs::Found::first_none))]
fn set_bands_refused<K: Keep>(
    keep: &mut K,
    moment: u64,
    caller: u64,
    bands: &Rows<(u64, u64)>,
) -> Result<Option<Refusal>, KeepFault>
    ensures { Answers K.Keep keep.old keep.new result (λ t r. r ≡ first_failing (
        first_rules t moment caller true ++ table_rules bands.now (length t.editions + 1)))
        (λ _. ⊤) }
{
    match common(keep, moment, caller, true)? {
        Some(refusal) => Ok(Some(refusal)),
        None => table_refused(keep, bands),
    }
}

// Why a band table can't be set.
fn table_refused<K: Keep>(keep: &K, bands: &Rows<(u64, u64)>) -> Result<Option<Refusal>, KeepFault>
    requires going { K.is_failed keep.now ≡ false }
    ensures value { K.is_honest keep.now
        → IfOk result (λ r. r ≡ first_failing
        (table_rules bands.now (length (K.content keep.now).editions + 1))) }
    ensures faults { Faults result (K.is_honest keep.now) (K.is_failed keep.now) (K.content keep.now) }
    ensures damaged { K.is_honest keep.now → IsUndamaged result }
{
    if !Bands::are_rows(bands.as_slice()) {
        return Ok(Some(Refusal::Range));
    }
    if keep.editions()?.newest() >= MOST_EDITIONS {
        return Ok(Some(Refusal::Limit));
    }
    Ok(None)
}
