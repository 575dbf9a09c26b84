//! Rows of the table of categories.
ghost use Rattle.std.specs.Prelude.{◌≡◌, IfOk, IsErrOf};
ghost use Rattle.house_rows.specs.Fits.{CategoryFits};
ghost use Rattle.house_rows.specs.declared.fault.KeepFault.TheVariants.{Damaged, Store};
ghost use Rattle.store_rows.specs.Rows.{category_of};

use crate::columns::{number_at, text_at};
use crate::fits::category_fits;
use crate::stored::Stored;
use house_rows::{Category, KeepFault};
use sqlite::Row;

// The columns as they are.
fn report_category(row: &Row) -> Result<Category, KeepFault>
    ensures value { IfOk result (λ m. m ≡ category_of row.now) }
    ensures damaged { CategoryFits (category_of row.now) → ¬ (IsErrOf result Damaged) }
    ensures working { ¬ (IsErrOf result Store) }
{
    let category = number_at(row, 0)?;
    let name = text_at(row, 1)?;
    Ok(Category { category, name })
}

impl Stored for Category {
    ghost report = { category_of };

    ghost fits = { CategoryFits };

    fn read(row: &Row) -> Result<Category, KeepFault> {
        let report = report_category(row)?;
        if category_fits(&report) {
            Ok(report)
        } else {
            Err(KeepFault::Damaged)
        }
    }
}
