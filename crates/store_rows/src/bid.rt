//! Rows of the table of bids.
ghost use Rattle.std.specs.Prelude.{◌≡◌, IfOk, IsErrOf};
ghost use Rattle.house_rows.specs.declared.fault.KeepFault.TheVariants.{Damaged, Store};
ghost use Rattle.store_rows.specs.Fitting.{BidFits};
ghost use Rattle.store_rows.specs.Rows.{bid_of};

use crate::columns::{cents_at, number_at};
use crate::fits::bid_fits;
use crate::stored::Stored;
use house_rows::KeepFault;
use proxy::Bid;
use sqlite::Row;

// The columns as they are.
fn report_bid(row: &Row) -> Result<Bid, KeepFault>
    ensures value { IfOk result (λ b. b ≡ (bid_of row.now).bid) }
    ensures damaged { BidFits (bid_of row.now).bid → ¬ (IsErrOf result Damaged) }
    ensures working { ¬ (IsErrOf result Store) }
{
    let no = number_at(row, 1)?;
    let member = number_at(row, 2)?;
    let maximum = cents_at(row, 3)?;
    Ok(Bid {
        member,
        maximum,
        no,
    })
}

impl Stored for Bid {
    ghost report = { λ r. (bid_of r).bid };

    ghost fits = { BidFits };

    fn read(row: &Row) -> Result<Bid, KeepFault> {
        let report = report_bid(row)?;
        if bid_fits(&report) {
            Ok(report)
        } else {
            Err(KeepFault::Damaged)
        }
    }
}
