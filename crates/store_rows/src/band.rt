//! The band table.
ghost use Rattle.std.specs.Prelude.{◌≡◌, IfOk, IsErrOf};
ghost use Rattle.std.specs.List.{AllByRecursion};
ghost use Rattle.sqlite.specs.State.{HasCleanDisk};
ghost use Rattle.sqlite.specs.Held.{state};
ghost use Rattle.house_rows.specs.declared.fault.KeepFault.TheVariants.{Damaged};
ghost use Rattle.store_rows.specs.Fitting.{BandRowFits};
ghost use Rattle.store_rows.specs.House.{Serves};
ghost use Rattle.store_rows.specs.Rows.{band_of, bands_in};
ghost use Rattle.store_rows.specs.Frames.{OnlyReads};

use crate::columns::number_at;
use crate::sql::rows_shown;
use crate::stored::{Stored, all_of};
use house_rows::KeepFault;
use sqlite::{Alter, Connection, Row};
use std::alloc::Global;

/// A row of the band table, in cents.
#[derive(Clone, Copy)]
pub struct BandRow {
    /// The price from which the step holds.
    pub from: u64,
    /// The step.
    pub step: u64,
}

impl Stored for BandRow {
    ghost report = { band_of };

    ghost fits = { BandRowFits };

    fn read(row: &Row) -> Result<BandRow, KeepFault> {
        let from = number_at(row, 0)?;
        let step = number_at(row, 1)?;
        Ok(BandRow {
            from: u64::from(from),
            step: u64::from(step),
        })
    }
}

/// The rows of the band table, in the order of their prices.
pub fn all_bands<S: Alter>(
    alloc: Global,
    conn: &mut Connection<S>,
) -> Result<Vec<BandRow>, KeepFault>
    requires { Serves (state S.Store conn.old) }
    ensures bands { HasCleanDisk (state S.Store conn.new)
        → IfOk result (λ bands. bands.items ≡ bands_in (state S.Store conn.old).now.trees) }
    ensures damaged { HasCleanDisk (state S.Store conn.new)
        → AllByRecursion BandRowFits (bands_in (state S.Store conn.old).now.trees)
        → ¬ (IsErrOf result Damaged) }
    ensures read { OnlyReads (state S.Store conn.old) (state S.Store conn.new) result }
{
    let rows = rows_shown(conn, "SELECT at, step FROM band ORDER BY at", &[])?;
    all_of(alloc, &rows)
}
