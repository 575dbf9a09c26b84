//! The statement of a member.
ghost use Rattle.std.specs.Prelude.{◌≡◌, ◌<◌, ◌≤◌, ◌↔◌, false, true, None, IfOk, IsErrOf, IsOk, OnOk, is_some};
ghost use Rattle.house_rows.specs.Answers.{Reads};
ghost use Rattle.house_rows.specs.Found.{sales_to};
ghost use Rattle.house_rows.specs.Keeping.{AreSound};
ghost use Rattle.house_rows.specs.Pages.{member_at};
ghost use Rattle.house_rows.specs.Taken.{MemberFitsAt, SalesFit};
ghost use Rattle.settle.specs.Statement.{statement_of};
ghost use Rattle.settle.specs.Zoned.{IsZoneOf};
ghost use Rattle.site.specs.Replies.{IsReadable};
ghost use Rattle.settle.specs.declared.zone.Zone.{Zone as TheZone};

use crate::zone::read_zone;
use house_rows::{Keep, KeepFault};
use settle::{Day, SettleFault, Statement, lines};
use std::alloc::Global;

/// Why there is no statement.
#[derive(Clone, Copy)]
pub enum StatementFault {
    /// Memory was refused.
    Memory,
    /// The store failed.
    Store,
    /// A kept row, or the kept zone, doesn't fit.
    Damaged,
    /// The period ends before it begins.
    Order,
    /// Nobody has this number.
    Member,
}

impl From<KeepFault> for StatementFault {
    ghost use Rattle.office.specs.Faults.{fault_of_keep};

    ghost from_gives = { λ fault report. report ≡ fault_of_keep fault };

    fn from(fault: KeepFault) -> StatementFault {
        match fault {
            KeepFault::Memory => StatementFault::Memory,
            KeepFault::Store => StatementFault::Store,
            KeepFault::Damaged => StatementFault::Damaged,
        }
    }
}

/// The statement of a member for the days from `from` to `to`, by the kept sales, zone and rate.
///
/// A zone that can't be read is reported before a member whom nobody knows, and both before a period
/// that ends before it begins. Damaged is answered only where the zone, the member's row or that of
/// an item to whose sale it may be a party doesn't fit.
pub fn statement<K: Keep>(
    alloc: Global,
    keep: &mut K,
    member: u64,
    from: Day,
    to: Day,
) -> Result<Statement, StatementFault>
    ensures shown { K.is_honest keep.new → IfOk result (λ s. (zone : TheZone)
        × IsZoneOf (K.content keep.old).settings.zone zone
        × (s ≡ statement_of (sales_to (K.content keep.old) member) member from to zone
        (K.content keep.old).settings.rate)) }
    ensures known { K.is_honest keep.new → IsOk result
        → is_some (member_at (K.content keep.old).members member) ≡ true }
    ensures unknown { K.is_honest keep.new → IsErrOf result StatementFault.Member
        → is_some (member_at (K.content keep.old).members member) ≡ false }
    ensures zone { K.is_honest keep.old → IsErrOf result StatementFault.Member
        → IsReadable (K.content keep.old).settings.zone }
    ensures order { IsErrOf result StatementFault.Order → to < from }
    ensures last { K.is_honest keep.new → IsErrOf result StatementFault.Order
        → IsReadable (K.content keep.old).settings.zone
        × (is_some (member_at (K.content keep.old).members member) ≡ true) }
    ensures within { OnOk result (from ≤ to) }
    ensures damaged { K.is_honest keep.new → AreSound (K.content keep.old)
        → IsErrOf result StatementFault.Damaged
        → ¬ (IsReadable (K.content keep.old).settings.zone) }
    ensures undamaged { K.is_honest keep.new → MemberFitsAt member (K.content keep.old)
        → SalesFit member (K.content keep.old) → IsErrOf result StatementFault.Damaged
        → ¬ (IsReadable (K.content keep.old).settings.zone) }
    ensures store { IsErrOf result StatementFault.Store ↔ (K.is_failed keep.new ≡ true) }
    ensures read { Reads K.Keep keep.old keep.new }
{
    let settings = keep.settings()?;
    let zone = read_zone(settings)?;
    let rate = settings.rate.value();
    if !keep.has_member(member)? {
        return Err(StatementFault::Member);
    }
    let sales = keep.sold_of(member)?;
    match lines(alloc, &sales, member as u32, from, to, &zone, rate) {
        Ok(statement) => Ok(statement),
        Err(SettleFault::Order) => Err(StatementFault::Order),
        Err(_) => Err(StatementFault::Memory),
    }
}
