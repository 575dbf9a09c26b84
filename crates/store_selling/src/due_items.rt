//! What a close would take.
ghost use Rattle.std.specs.Prelude.{◌≡◌, not};
ghost use Rattle.sqlite.specs.Held.{state};
ghost use Rattle.house_rows.specs.History.{counted};
ghost use Rattle.house_rows.specs.Items.{close_sells, is_due};
ghost use Rattle.store_rows.specs.House.{ServesBy};
ghost use Rattle.store_rows.specs.Frames.{Finds};
ghost use Rattle.store_items.specs.LookUps.{ItemsFitBy};
ghost use Rattle.store_selling.specs.LookUps.{IsDueAt};

use crate::sold_rule::close_sells;
use house_rows::{Due, KeepFault, Terms};
use sqlite::{Alter, Connection};
use std::alloc::Global;
use store_items::due_terms;
use store_rows::{Rules, bound_of};

// How many of the items a close sells, and how many it doesn't.
fn counts_of(due: &[Terms]) -> Due
    ensures sold { result.sold ≡ counted (λ t. close_sells t.leader t.met) due.now }
    ensures unsold { result.unsold ≡ counted (λ t. not (close_sells t.leader t.met)) due.now }
{
    let mut sold = 0;
    let mut unsold = 0;
    for terms in due {
        if close_sells(terms) {
            sold += 1;
        } else {
            unsold += 1;
        }
    }
    Due { sold, unsold }
}

// The items that are due at a moment of the house.
fn due_by<S: Alter>(
    alloc: Global,
    conn: &mut Connection<S>,
    rules: &Rules,
    moment: u32,
) -> Result<Due, KeepFault>
    requires { ServesBy rules.now.reserves (state S.Store conn.old) }
    ensures { Finds S.Store conn.old conn.new result (IsDueAt rules.now.editions moment)
        (ItemsFitBy rules.now.editions (λ row. is_due moment row.item.terms)) }
{
    let due = due_terms(alloc, conn, rules, moment)?;
    Ok(counts_of(&due))
}

/// How many items a close at a moment would leave sold, and how many unsold. The moment is in
/// seconds since 1970-01-01T00:00:00Z. One from 2^32 on, which no house reaches, is as the last
/// before it: no stored end is as great.
pub fn due<S: Alter>(
    alloc: Global,
    conn: &mut Connection<S>,
    rules: &Rules,
    moment: u64,
) -> Result<Due, KeepFault>
    requires { ServesBy rules.now.reserves (state S.Store conn.old) }
    ensures { Finds S.Store conn.old conn.new result (IsDueAt rules.now.editions moment)
        (ItemsFitBy rules.now.editions (λ row. is_due moment row.item.terms)) }
{
    due_by(alloc, conn, rules, bound_of(moment))
}
