//! Where a row is in its block.
ghost use Rattle.std.specs.Prelude.{◌≡◌, ◌<◌, ◌≤◌, length, position, Some, None, true, IfOk, IfErr, OnOk, OnErr};
ghost use Rattle.std.specs.List.{position_or_len};
ghost use Rattle.house_rows.specs.History.{is_less};
ghost use Rattle.list_rows.specs.Blocks.{IsRising, same_key};

use crate::keyed::{Keyed, RowKey};
use std::cmp::Ordering;

/// The place of the row of that key, or else where it would be: before the first row with a
/// greater key. The last row is looked at first, so that a row at the end costs no search.
pub(crate) fn search<R: Keyed>(rows: &[R], wanted: RowKey) -> Result<usize, usize>
    requires rising { IsRising R.key rows.now }
    ensures found { IfOk result (λ place. position (λ row. same_key (R.key row) wanted) rows.now ≡ Some place) }
    ensures absent { OnErr result (position (λ row. same_key (R.key row) wanted) rows.now ≡ None) }
    ensures place { IfErr result (λ place. place ≡ position_or_len (λ row. is_less wanted (R.key row)) rows.now) }
{
    if is_after(rows, wanted) {
        return Err(rows.len());
    }
    rows.binary_search_by(|row| row.row_key().order(wanted))
}

// Whether a key comes after all rows.
fn is_after<R: Keyed>(rows: &[R], wanted: RowKey) -> bool
    requires rising { IsRising R.key rows.now }
    ensures absent { result ≡ true → position (λ row. same_key (R.key row) wanted) rows.now ≡ None }
    ensures place { result ≡ true → length rows.now ≡ position_or_len (λ row. is_less wanted (R.key row)) rows.now }
{
    match rows.last() {
        Some(last) => matches!(last.row_key().order(wanted), Ordering::Less),
        None => true,
    }
}
