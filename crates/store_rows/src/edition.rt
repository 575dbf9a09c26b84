//! An edition of the band table, and a band of one, as their columns give them.
ghost use Rattle.store_rows.specs.Fitting.{EditionRowFits, LaterBandRowFits};
ghost use Rattle.store_rows.specs.Rows.{edition_row_of, later_band_of};

use crate::columns::number_at;
use crate::stored::Stored;
use house_rows::KeepFault;
use sqlite::Row;

/// An edition of the band table that the house has set, without its bands.
#[derive(Clone, Copy)]
pub struct EditionRow {
    /// Its number.
    pub edition: u32,
    /// The number that the next item got as it was set.
    pub first: u32,
}

impl Stored for EditionRow {
    ghost report = { edition_row_of };

    ghost fits = { EditionRowFits };

    fn read(row: &Row) -> Result<EditionRow, KeepFault> {
        let edition = number_at(row, 0)?;
        let first = number_at(row, 1)?;
        Ok(EditionRow { edition, first })
    }
}

/// A band of such an edition, in cents.
#[derive(Clone, Copy)]
pub struct LaterBandRow {
    /// The number of the edition.
    pub edition: u32,
    /// The price from which the step holds.
    pub from: u64,
    /// The step.
    pub step: u64,
}

impl Stored for LaterBandRow {
    ghost report = { later_band_of };

    ghost fits = { LaterBandRowFits };

    fn read(row: &Row) -> Result<LaterBandRow, KeepFault> {
        let edition = number_at(row, 0)?;
        let from = number_at(row, 1)?;
        let step = number_at(row, 2)?;
        Ok(LaterBandRow {
            edition,
            from: u64::from(from),
            step: u64::from(step),
        })
    }
}
