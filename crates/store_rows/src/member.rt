//! Rows of the table of members.
ghost use Rattle.std.specs.Prelude.{◌≡◌, IfOk, IsErrOf};
ghost use Rattle.house_rows.specs.Fits.{MemberFits};
ghost use Rattle.house_rows.specs.declared.fault.KeepFault.TheVariants.{Damaged, Store};
ghost use Rattle.store_rows.specs.Rows.{member_of};

use crate::columns::{number_at, text_at};
use crate::fits::member_fits;
use crate::stored::Stored;
use house_rows::{KeepFault, Member};
use sqlite::Row;

// The columns as they are.
fn report_member(row: &Row) -> Result<Member, KeepFault>
    ensures value { IfOk result (λ m. m ≡ member_of row.now) }
    ensures damaged { MemberFits (member_of row.now) → ¬ (IsErrOf result Damaged) }
    ensures working { ¬ (IsErrOf result Store) }
{
    let member = number_at(row, 0)?;
    let name = text_at(row, 1)?;
    Ok(Member { member, name })
}

impl Stored for Member {
    ghost report = { member_of };

    ghost fits = { MemberFits };

    fn read(row: &Row) -> Result<Member, KeepFault> {
        let report = report_member(row)?;
        if member_fits(&report) {
            Ok(report)
        } else {
            Err(KeepFault::Damaged)
        }
    }
}
