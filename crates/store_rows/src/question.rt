//! Rows of the table of questions.
ghost use Rattle.std.specs.Prelude.{◌≡◌, IfOk, IsErrOf};
ghost use Rattle.house_rows.specs.Fits.{QuestionFits};
ghost use Rattle.house_rows.specs.declared.fault.KeepFault.TheVariants.{Damaged, Store};
ghost use Rattle.store_rows.specs.Rows.{question_of};

use crate::columns::{maybe_text_at, number_at, text_at};
use crate::fits::question_fits;
use crate::stored::Stored;
use house_rows::{KeepFault, Question};
use sqlite::Row;

// The columns as they are.
fn report_question(row: &Row) -> Result<Question, KeepFault>
    ensures value { IfOk result (λ q. q ≡ question_of row.now) }
    ensures damaged { QuestionFits (question_of row.now) → ¬ (IsErrOf result Damaged) }
    ensures working { ¬ (IsErrOf result Store) }
{
    let item = number_at(row, 0)?;
    let asker = number_at(row, 1)?;
    let number = number_at(row, 2)?;
    let answer = maybe_text_at(row, 3)?;
    let text = text_at(row, 4)?;
    Ok(Question {
        item,
        asker,
        number,
        text,
        answer,
    })
}

impl Stored for Question {
    ghost report = { question_of };

    ghost fits = { QuestionFits };

    fn read(row: &Row) -> Result<Question, KeepFault> {
        let report = report_question(row)?;
        if question_fits(&report) {
            Ok(report)
        } else {
            Err(KeepFault::Damaged)
        }
    }
}
