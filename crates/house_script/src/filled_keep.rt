//! Keeps that are filled with many changes at once.
ghost use Rattle.std.specs.Prelude.{◌≡◌, [], false, IfOk};
ghost use Rattle.house.specs.Filled.{after};
ghost use Rattle.house_rows.specs.Tables.{tables_of};
ghost use Rattle.house_script.specs.Housed.{IsHoused, LeadTo, set_up};

use crate::fault::ScriptFault;
use crate::fixed_bytes::FixedBytes;
use crate::makes::Makes;
use crate::script_line::ScriptLine;
use house::fill;
use house_rows::{Change, Keep, Rate, Settings, Text};
use std::alloc::Global;
use steps::Bands;
use store_list::ListKeep;

/// What each house is set up with: the example bands, a fee of a tenth, the zone `UTC0`.
pub fn settings(alloc: Global) -> Result<Settings, ScriptFault>
    ensures { IfOk result (λ settings. settings ≡ set_up) }
{
    let bands = Bands::example(alloc).map_err(|_| ScriptFault::Memory)?;
    let rate = Rate::new(1_000).ok_or(ScriptFault::Script)?;
    let zone = Text::copy_of(alloc, "UTC0")?;
    Ok(Settings { bands, rate, zone })
}

/// A keep that is filled at once with the changes of lines, each of which is accepted in its turn.
///
/// The changes are decided over a keep in memory, so that a failing disk decides none.
pub(crate) fn fill_at_once<K: Keep + Drop, M: Makes<K>>(
    alloc: Global,
    makes: &M,
    lines: &[ScriptLine],
) -> Result<K, ScriptFault>
    ensures { IfOk result (λ keep. IsHoused (K.is_honest keep) (K.is_failed keep) (K.content keep)) }
{
    let changes = accept_all(alloc, lines)?;
    let mut keep = makes.empty(alloc, settings(alloc)?)?;
    fill(&mut keep, &changes)?;
    Ok(keep)
}

// The changes of lines, each of which is accepted in its turn.
fn accept_all<'o>(alloc: Global, lines: &'o [ScriptLine]) -> Result<Vec<Change<'o>>, ScriptFault>
    ensures { IfOk result (λ changes. LeadTo changes.items (after (tables_of set_up []) changes.items)) }
{
    let mut keep = ListKeep::create(alloc, &FixedBytes, settings(alloc)?)?;
    given(alloc, &mut keep, lines)
}

// The changes of lines that are given to a keep without members.
fn given<'o, K: Keep>(
    alloc: Global,
    keep: &mut K,
    lines: &'o [ScriptLine],
) -> Result<Vec<Change<'o>>, ScriptFault>
    requires empty { K.is_honest keep.old → K.content keep.old ≡ tables_of set_up [] }
    ensures lead { K.is_honest keep.new → K.is_failed keep.new ≡ false
        → IfOk result (λ changes. LeadTo changes.items (K.content keep.new)) }
{
    let mut changes = Vec::new(alloc);
    for line in lines {
        // The fault is matched, since a `?` on what holds a change isn't covered by the borrow check.
        match line.give(keep) {
            Err(fault) => return Err(fault),
            Ok(Err(_)) => return Err(ScriptFault::Keep),
            Ok(Ok(change)) => {
                let Ok(()) = changes.push(change) else {
                    return Err(ScriptFault::Memory);
                };
            }
        }
    }
    Ok(changes)
}
