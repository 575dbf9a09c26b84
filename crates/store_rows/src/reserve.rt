//! A reserve as its columns give it.
ghost use Rattle.store_rows.specs.Fitting.{ReserveRowFits};
ghost use Rattle.store_rows.specs.Rows.{reserve_of};

use crate::columns::{cents_at, number_at};
use crate::stored::Stored;
use cents::Cents;
use house_rows::KeepFault;
use sqlite::Row;

/// A reserve, and the number of its item.
#[derive(Clone, Copy)]
pub struct ReserveRow {
    /// The number of the item.
    pub item: u32,
    /// The amount.
    pub amount: Cents,
}

impl Stored for ReserveRow {
    ghost report = { reserve_of };

    ghost fits = { ReserveRowFits };

    fn read(row: &Row) -> Result<ReserveRow, KeepFault> {
        let item = number_at(row, 0)?;
        let amount = cents_at(row, 1)?;
        Ok(ReserveRow { item, amount })
    }
}
