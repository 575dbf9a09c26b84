//! A count that was read.
ghost use Rattle.std.specs.Prelude.{◌≡◌, Some, IfOk, ℕ, ◌<◌, ◌^◌, IsErrOf};
ghost use Rattle.house_rows.specs.declared.fault.KeepFault.TheVariants.{Damaged, Store};
ghost use Rattle.store_rows.specs.Counts.{first_number};

use crate::columns::count_at;
use house_rows::KeepFault;
use sqlite::Row;

/// The number in the only row of a count.
pub fn read_count(rows: &[Row]) -> Result<u64, KeepFault>
    ensures value { IfOk result (λ n. first_number rows.now ≡ Some n) }
    ensures damaged { (n : ℕ)
        → first_number rows.now ≡ Some n
        → n < 2 ^ 64
        → ¬ (IsErrOf result Damaged) }
    ensures working { ¬ (IsErrOf result Store) }
{
    match rows.first() {
        Some(row) => count_at(row, 0),
        None => Err(KeepFault::Damaged),
    }
}
