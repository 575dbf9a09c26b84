//! Rows of the table of feedback.
ghost use Rattle.std.specs.Prelude.{◌≡◌, true, IfOk, IsErrOf};
ghost use Rattle.sqlite_value.specs.Order.{column};
ghost use Rattle.house_rows.specs.Fits.{FeedbackFits};
ghost use Rattle.house_rows.specs.declared.fault.KeepFault.TheVariants.{Damaged, Store};
ghost use Rattle.store_rows.specs.Rows.{feedback_of, is_rating, rating_in};

use crate::columns::{number_at, text_at, value_at};
use crate::fits::feedback_fits;
use crate::stored::Stored;
use house_rows::{Feedback, KeepFault, Rating};
use sqlite::Row;

// A rating, which is stored as its number.
fn read_rating(row: &Row, at: usize) -> Result<Rating, KeepFault>
    ensures rating { IfOk result (λ r. r ≡ rating_in (column row.now at)) }
    ensures stored { IfOk result (λ r. is_rating (column row.now at) ≡ true) }
    ensures damaged { is_rating (column row.now at) ≡ true → ¬ (IsErrOf result Damaged) }
    ensures working { ¬ (IsErrOf result Store) }
{
    let number: i64 = value_at(row, at)?;
    match number {
        -1 => Ok(Rating::Minus),
        0 => Ok(Rating::Zero),
        1 => Ok(Rating::Plus),
        _ => Err(KeepFault::Damaged),
    }
}

// The columns as they are.
fn report_feedback(row: &Row) -> Result<Feedback, KeepFault>
    ensures value { IfOk result (λ f. f ≡ feedback_of row.now) }
    ensures damaged { FeedbackFits (feedback_of row.now) → ¬ (IsErrOf result Damaged) }
    ensures working { ¬ (IsErrOf result Store) }
{
    let item = number_at(row, 0)?;
    let from = number_at(row, 1)?;
    let to = number_at(row, 2)?;
    let rating = read_rating(row, 3)?;
    let text = text_at(row, 4)?;
    Ok(Feedback {
        item,
        from,
        to,
        rating,
        text,
    })
}

impl Stored for Feedback {
    ghost report = { feedback_of };

    ghost fits = { FeedbackFits };

    fn read(row: &Row) -> Result<Feedback, KeepFault> {
        let report = report_feedback(row)?;
        if feedback_fits(&report) {
            Ok(report)
        } else {
            Err(KeepFault::Damaged)
        }
    }
}
