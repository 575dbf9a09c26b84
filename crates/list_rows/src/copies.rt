//! Copies of rows that hold texts.
ghost use Rattle.std.specs.Prelude.{◌≡◌, ◌++◌, ◌∷◌, [], Bool, IfOk, IfErr, OnOk, OnErr, take, filter};
ghost use Rattle.std.specs.Option.{option_copied};
ghost use Rattle.house_rows.specs.declared.fault.KeepFault.TheVariants as fault;

use house_rows::{Category, Feedback, Item, KeepFault, Member, Question, Text};
use std::alloc::{AllocError, Global};

/// A row that can be copied.
pub trait Copied {
    /// A copy of it.
    fn try_clone(&self) -> Result<Self, AllocError>
    where
        Self: Sized,
        ensures { IfOk result (λ copy. copy ≡ self.now) };
}

impl Copied for Member {
    fn try_clone(&self) -> Result<Member, AllocError> {
        Ok(Member {
            member: self.member,
            name: self.name.try_clone()?,
        })
    }
}

impl Copied for Category {
    fn try_clone(&self) -> Result<Category, AllocError> {
        Ok(Category {
            category: self.category,
            name: self.name.try_clone()?,
        })
    }
}

impl Copied for Item {
    fn try_clone(&self) -> Result<Item, AllocError> {
        Ok(Item {
            terms: self.terms,
            lot: self.lot.try_clone()?,
            title: self.title.try_clone()?,
            text: self.text.try_clone()?,
        })
    }
}

impl Copied for Question {
    fn try_clone(&self) -> Result<Question, AllocError> {
        let answer = match &self.answer {
            Some(text) => Some(text.try_clone()?),
            None => None,
        };
        Ok(Question {
            item: self.item,
            asker: self.asker,
            number: self.number,
            text: self.text.try_clone()?,
            answer,
        })
    }
}

impl Copied for Feedback {
    fn try_clone(&self) -> Result<Feedback, AllocError> {
        Ok(Feedback {
            item: self.item,
            from: self.from,
            to: self.to,
            rating: self.rating,
            text: self.text.try_clone()?,
        })
    }
}

/// The same text, with one more owner.
pub fn share_text(text: &Text) -> Result<Text, KeepFault>
    ensures value { IfOk result (λ shared. shared ≡ text.now) }
    ensures memory { IfErr result (λ e. e ≡ fault.Memory) }
{
    match text.try_clone() {
        Ok(shared) => Ok(shared),
        Err(_) => Err(KeepFault::Memory),
    }
}

/// A copy of what was found.
pub fn clone_found<R: Copied>(row: Option<&R>) -> Result<Option<R>, KeepFault>
    ensures value { IfOk result (λ copy. copy ≡ option_copied row.entry) }
    ensures memory { IfErr result (λ e. e ≡ fault.Memory) }
{
    match row {
        Some(row) => match row.try_clone() {
            Ok(copy) => Ok(Some(copy)),
            Err(_) => Err(KeepFault::Memory),
        },
        None => Ok(None),
    }
}

/// One more row at the end.
pub fn push<R: Drop>(rows: &mut Vec<R>, row: R) -> Result<(), KeepFault>
    ensures ok { OnOk result (rows.new.items ≡ rows.old.items ++ row ∷ []) }
    ensures err { OnErr result (rows.new.items ≡ rows.old.items) }
    ensures memory { IfErr result (λ e. e ≡ fault.Memory) }
{
    match rows.push(row) {
        Ok(()) => Ok(()),
        Err(_) => Err(KeepFault::Memory),
    }
}

/// A copy of one more row.
pub fn push_copy<R: Copied + Drop>(rows: &mut Vec<R>, row: &R) -> Result<(), KeepFault>
    ensures ok { OnOk result (rows.new.items ≡ rows.old.items ++ row.now ∷ []) }
    ensures err { OnErr result (rows.new.items ≡ rows.old.items) }
    ensures memory { IfErr result (λ e. e ≡ fault.Memory) }
{
    match row.try_clone() {
        Ok(copy) => push(rows, copy),
        Err(_) => Err(KeepFault::Memory),
    }
}

/// Copies of all rows.
pub fn copies_of<R: Copied + Drop>(alloc: Global, rows: &[R]) -> Result<Vec<R>, KeepFault>
    ensures value { IfOk result (λ v. v.items ≡ rows.now) }
    ensures memory { IfErr result (λ e. e ≡ fault.Memory) }
{
    let mut found = Vec::new(alloc);
    for row in rows {
        push_copy(&mut found, row)?;
    }
    Ok(found)
}

/// Copies of the first rows that pass, at most so many.
pub fn chosen<R: Copied + Drop, F: Fn(&R) -> bool + Drop>(
    alloc: Global,
    rows: &[R],
    most: usize,
    passes: F,
) -> Result<Vec<R>, KeepFault>
    requires callable { F.IsAlwaysCallable passes }
    ensures value { (test : R → Bool) → ((row : _) (answer : Bool) → F.post passes row answer → answer ≡ test row.now)
        → IfOk result (λ v. v.items ≡ take most (filter test rows.now)) }
    ensures memory { IfErr result (λ e. e ≡ fault.Memory) }
{
    let mut found = Vec::new(alloc);
    for row in rows {
        let wanted = passes(row);
        let room = found.len() < most;
        if wanted && room {
            push_copy(&mut found, row)?;
        }
    }
    Ok(found)
}
