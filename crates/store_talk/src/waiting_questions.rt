//! The questions that wait for a member's answer.
ghost use Rattle.std.specs.Prelude.{◌≡◌, ◌==◌, ◌≤◌, ◌++◌, flat_map, length, take, IfOk, OnOk};
ghost use Rattle.std.specs.List.{AllByRecursion};
ghost use Rattle.sqlite.specs.Held.{state};
ghost use Rattle.sqlite.specs.State.{HasCleanDisk};
ghost use Rattle.house_rows.specs.Fits.{QuestionFits};
ghost use Rattle.house_rows.specs.Found.{first_waiting, waiting_for};
ghost use Rattle.house_rows.specs.Limits.{most_shown};
ghost use Rattle.house_rows.specs.declared.item.Terms.{Terms as TermsRow};
ghost use Rattle.store_rows.specs.House.{Serves, ServesBy};
ghost use Rattle.store_rows.specs.Tables.{tables_in};
ghost use Rattle.store_rows.specs.Frames.{Finds};
ghost use Rattle.store_items.specs.ConsistentRows.{RowsAreKept};
ghost use Rattle.store_talk.specs.Waiting.{AllWaitingFit, AreWaiting, FirstWaitingFit, waiting_in, WaitingFit, WaitingInTurn};

use crate::question_lists::waiting_on;
use crate::question_pages::first_waiting_on;
use house_rows::{KeepFault, MOST_SHOWN, Question, Terms};
use sqlite::{Alter, Connection};
use std::alloc::Global;
use store_items::terms_of_seller;
use store_rows::Rules;

// Adds the questions on an item that wait to those found.
fn add_waiting<S: Alter>(
    alloc: Global,
    conn: &mut Connection<S>,
    item: u32,
    asked: &mut Vec<Question>,
) -> Result<(), KeepFault>
    requires { Serves (state S.Store conn.old) }
    ensures finds { Finds S.Store conn.old conn.new result
        (λ db _. asked.new.items ≡ asked.old.items ++ waiting_in db item)
        (λ db. WaitingFit db item) }
    ensures fits { AllByRecursion QuestionFits asked.old.items
        → OnOk result (AllByRecursion QuestionFits asked.new.items) }
{
    let mut more = waiting_on(alloc, conn, item)?;
    match asked.append(&mut more) {
        Ok(()) => Ok(()),
        Err(_) => Err(KeepFault::Memory),
    }
}

// The questions on some items that wait, item by item.
fn waiting_on_each<S: Alter>(
    alloc: Global,
    conn: &mut Connection<S>,
    own: &[Terms],
) -> Result<Vec<Question>, KeepFault>
    requires { Serves (state S.Store conn.old) }
    ensures finds { Finds S.Store conn.old conn.new result
        (λ db asked. asked.items ≡ flat_map (λ (t : TermsRow). waiting_in db t.item) own.now)
        (λ db. AllByRecursion (λ (t : TermsRow). WaitingFit db t.item) own.now) }
    ensures fits { IfOk result (λ asked. AllByRecursion QuestionFits asked.items) }
{
    let mut asked = Vec::new(alloc);
    for terms in own {
        add_waiting(alloc, conn, terms.item, &mut asked)?;
    }
    Ok(asked)
}

/// The questions that wait for a member's answer, by item, asker and number.
pub fn waiting_for<S: Alter>(
    alloc: Global,
    conn: &mut Connection<S>,
    rules: &Rules,
    member: u32,
) -> Result<Vec<Question>, KeepFault>
    requires { ServesBy rules.now.reserves (state S.Store conn.old) }
    ensures finds { Finds S.Store conn.old conn.new result (λ db asked.
        AreWaiting rules.now.editions db (waiting_for (tables_in db) member) asked.items)
        (AllWaitingFit rules.now.editions member) }
    ensures fits { IfOk result (λ asked. AllByRecursion QuestionFits asked.items) }
    ensures kept { HasCleanDisk (state S.Store conn.new)
        → OnOk result (RowsAreKept rules.now.editions (λ row. row.item.terms.seller == member)
        (state S.Store conn.old).now.trees) }
{
    let own = terms_of_seller(alloc, conn, rules, member)?;
    waiting_on_each(alloc, conn, &own)
}

// Adds the questions on an item that wait to those found, up to fifty in all.
fn add_first_waiting<S: Alter>(
    alloc: Global,
    conn: &mut Connection<S>,
    item: u32,
    asked: &mut Vec<Question>,
) -> Result<(), KeepFault>
    requires { Serves (state S.Store conn.old) }
    ensures finds { Finds S.Store conn.old conn.new result
        (λ db _. asked.new.items ≡ take most_shown (asked.old.items ++ waiting_in db item))
        (λ db. WaitingFit db item) }
    ensures few { OnOk result (length asked.new.items ≤ most_shown) }
    ensures fits { AllByRecursion QuestionFits asked.old.items
        → OnOk result (AllByRecursion QuestionFits asked.new.items) }
{
    let mut more = first_waiting_on(alloc, conn, item)?;
    match asked.append(&mut more) {
        Ok(()) => {
            asked.truncate(MOST_SHOWN);
            Ok(())
        }
        Err(_) => Err(KeepFault::Memory),
    }
}

// The first fifty questions on some items that wait, item by item.
fn first_on_each<S: Alter>(
    alloc: Global,
    conn: &mut Connection<S>,
    own: &[Terms],
) -> Result<Vec<Question>, KeepFault>
    requires { Serves (state S.Store conn.old) }
    ensures finds { Finds S.Store conn.old conn.new result
        (λ db asked. asked.items ≡ take most_shown
        (flat_map (λ (t : TermsRow). waiting_in db t.item) own.now))
        (λ db. WaitingInTurn db 0 own.now) }
    ensures fits { IfOk result (λ asked. AllByRecursion QuestionFits asked.items) }
{
    let mut asked = Vec::new(alloc);
    for terms in own {
        if asked.len() >= MOST_SHOWN {
            return Ok(asked);
        }
        add_first_waiting(alloc, conn, terms.item, &mut asked)?;
    }
    Ok(asked)
}

/// The first of the questions that wait for a member's answer, by item, asker and number; at most
/// fifty.
///
/// It reads the terms of all items that the member sells, and of each item's questions no row after
/// the fiftieth.
pub fn first_waiting<S: Alter>(
    alloc: Global,
    conn: &mut Connection<S>,
    rules: &Rules,
    member: u32,
) -> Result<Vec<Question>, KeepFault>
    requires { ServesBy rules.now.reserves (state S.Store conn.old) }
    ensures finds { Finds S.Store conn.old conn.new result (λ db asked.
        AreWaiting rules.now.editions db (first_waiting (tables_in db) member) asked.items)
        (FirstWaitingFit rules.now.editions member) }
    ensures fits { IfOk result (λ asked. AllByRecursion QuestionFits asked.items) }
    ensures kept { HasCleanDisk (state S.Store conn.new)
        → OnOk result (RowsAreKept rules.now.editions (λ row. row.item.terms.seller == member)
        (state S.Store conn.old).now.trees) }
{
    let own = terms_of_seller(alloc, conn, rules, member)?;
    first_on_each(alloc, conn, &own)
}
