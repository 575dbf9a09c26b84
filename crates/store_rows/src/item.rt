//! An item as its columns give it.
ghost use Rattle.std.specs.Prelude.{◌≡◌, IfOk, IsErrOf, true};
ghost use Rattle.sqlite_value.specs.Order.{column};
ghost use Rattle.house_rows.specs.Fits.{ItemFits, TermsFit};
ghost use Rattle.house_rows.specs.declared.fault.KeepFault.TheVariants.{Damaged, Store};
ghost use Rattle.store_rows.specs.Columns.{AreTerms, HasTexts};
ghost use Rattle.store_rows.specs.ItemRows.{is_state, item_of, state_in, terms_of};

use crate::columns::{cents_at, maybe_cents_at, maybe_number_at, number_at, text_at};
use crate::fits::{item_fits, terms_fit};
use crate::stored::Stored;
use house_rows::{Item, KeepFault, State, Terms};
use sqlite::Row;

// A state, which is stored as its number.
fn state_at(row: &Row, at: usize) -> Result<State, KeepFault>
    ensures state { IfOk result (λ s. s ≡ state_in (column row.now at)) }
    ensures stored { IfOk result (λ s. is_state (column row.now at) ≡ true) }
    ensures damaged { is_state (column row.now at) ≡ true → ¬ (IsErrOf result Damaged) }
    ensures working { ¬ (IsErrOf result Store) }
{
    let number = number_at(row, at)?;
    match number {
        0 => Ok(State::Open),
        1 => Ok(State::Sold),
        2 => Ok(State::Unsold),
        3 => Ok(State::Settled),
        _ => Err(KeepFault::Damaged),
    }
}

// The columns of the terms, as they are.
fn report_terms(row: &Row) -> Result<Terms, KeepFault>
    ensures value { IfOk result (λ t. t ≡ terms_of row.now) }
    ensures damaged { AreTerms row.now → ¬ (IsErrOf result Damaged) }
    ensures working { ¬ (IsErrOf result Store) }
{
    Ok(Terms {
        item: number_at(row, 0)?,
        seller: number_at(row, 1)?,
        category: number_at(row, 2)?,
        start: cents_at(row, 3)?,
        buy_now: maybe_cents_at(row, 4)?,
        end: u64::from(number_at(row, 5)?),
        state: state_at(row, 6)?,
        closed: maybe_number_at(row, 7)?.map(u64::from),
        price: cents_at(row, 8)?,
        leader: maybe_number_at(row, 9)?,
        count: number_at(row, 10)?,
        met: None,
    })
}

// All but the texts, from the first eleven columns, without a reserve.
impl Stored for Terms {
    ghost report = { terms_of };

    ghost fits = { TermsFit };

    fn read(row: &Row) -> Result<Terms, KeepFault> {
        let report = report_terms(row)?;
        if terms_fit(&report) {
            Ok(report)
        } else {
            Err(KeepFault::Damaged)
        }
    }
}

// The texts after them, as they are.
fn report_item(row: &Row) -> Result<Item, KeepFault>
    ensures value { IfOk result (λ i. i ≡ item_of row.now) }
    ensures damaged { AreTerms row.now → HasTexts row.now → ¬ (IsErrOf result Damaged) }
    ensures working { ¬ (IsErrOf result Store) }
{
    let terms = report_terms(row)?;
    let lot = text_at(row, 11)?;
    let title = text_at(row, 12)?;
    let text = text_at(row, 13)?;
    Ok(Item {
        terms,
        lot,
        title,
        text,
    })
}

impl Stored for Item {
    ghost report = { item_of };

    ghost fits = { ItemFits };

    fn read(row: &Row) -> Result<Item, KeepFault> {
        let report = report_item(row)?;
        if item_fits(&report) {
            Ok(report)
        } else {
            Err(KeepFault::Damaged)
        }
    }
}
