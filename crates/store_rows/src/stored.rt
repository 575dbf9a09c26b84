//! Typed rows, read from what a query shows.
ghost use Rattle.std.specs.Prelude.{◌≡◌, ◌<◌, ◌^◌, IfOk, IfSome, IsErrOf, map, option_map, slice_get};
ghost use Rattle.std.specs.List.{AllByRecursion};
ghost use Rattle.sqlite_value.specs.Order.{Row as Columns, column};
ghost use Rattle.house_rows.specs.declared.fault.KeepFault.TheVariants.{Damaged, Store};
ghost use Rattle.store_rows.specs.Rows.{number_in};

use crate::columns::number_at;
use house_rows::KeepFault;
use sqlite::Row;
use std::alloc::Global;

/// A typed row, which is read from the columns that a query shows.
pub trait Stored: Sized + Drop {
    /// What the columns give.
    ghost report: { Columns → Self };

    /// Which typed rows fit.
    ghost fits: { Self → Type 0 };

    /// Reads the columns. They are damaged only where they don't fit; memory is the other cause.
    fn read(row: &Row) -> Result<Self, KeepFault>
        ensures value { IfOk result (λ it. it ≡ report row.now) }
        ensures fits { IfOk result fits }
        ensures damaged { fits (report row.now) → ¬ (IsErrOf result Damaged) }
        ensures working { ¬ (IsErrOf result Store) };
}

// A number that is shown alone.
impl Stored for u32 {
    ghost report = { λ r. number_in (column r 0) };

    ghost fits = { λ n. n < 2 ^ 32 };

    fn read(row: &Row) -> Result<u32, KeepFault> {
        number_at(row, 0)
    }
}

/// The first of the rows.
pub fn first_of<T: Stored>(rows: &[Row]) -> Result<Option<T>, KeepFault>
    ensures value { IfOk result (λ found. found ≡ option_map T.report (slice_get rows.now 0)) }
    ensures fits { IfOk result (λ found. IfSome found T.fits) }
    ensures damaged { IfSome (option_map T.report (slice_get rows.now 0)) T.fits
        → ¬ (IsErrOf result Damaged) }
    ensures working { ¬ (IsErrOf result Store) }
{
    match rows.first() {
        None => Ok(None),
        Some(row) => Ok(Some(T::read(row)?)),
    }
}

/// All of the rows.
pub fn all_of<T: Stored>(alloc: Global, rows: &[Row]) -> Result<Vec<T>, KeepFault>
    ensures value { IfOk result (λ all. all.items ≡ map T.report rows.now) }
    ensures fits { IfOk result (λ all. AllByRecursion T.fits all.items) }
    ensures damaged { AllByRecursion T.fits (map T.report rows.now) → ¬ (IsErrOf result Damaged) }
    ensures working { ¬ (IsErrOf result Store) }
{
    let mut all = Vec::new(alloc);
    for row in rows {
        let it = T::read(row)?;
        let Ok(()) = all.push(it) else {
            return Err(KeepFault::Memory);
        };
    }
    Ok(all)
}
