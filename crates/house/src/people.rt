//! Registering members and adding categories.
ghost use Rattle.std.specs.Prelude.{◌≡◌, ◌++◌, false, true};
ghost use Rattle.std.specs.List.{list_any};
ghost use Rattle.proxy.specs.Rules.{first_failing};
ghost use Rattle.house_rows.specs.Answers.{Answers};
ghost use Rattle.house_rows.specs.declared.command.Command.TheVariants as command;
ghost use Rattle.house_rows.specs.Found.{category_named, member_named};
ghost use Rattle.house_rows.specs.Text.{same_text};
ghost use Rattle.house_rows.specs.Verdict.{category_rules, register_rules};
ghost use Rattle.house.specs.Decides.{Decides};
ghost use Rattle.house.specs.Judged.{first_rules, name_rules};
ghost use Rattle.house_rows.specs.Taken.{CategoryFitsNamed, MemberFitsNamed};

use crate::targets::{common, is_text};
use house_rows::{Change, Keep, KeepFault, MOST_CATEGORIES, MOST_MEMBERS, Refusal, Text};

/// Decides on a registration.
pub fn register<'c, K: Keep>(
    keep: &mut K,
    moment: u64,
    caller: u64,
    name: &'c Text,
) -> Result<Result<Change<'c>, Refusal>, KeepFault>
    ensures { Decides K.Keep keep.old keep.new result moment caller (command.Register name.now) }
{
    match register_refused(keep, moment, caller, name)? {
        Some(refusal) => Ok(Err(refusal)),
        None => Ok(Ok(Change::Register { moment, name })),
    }
}

// Why that is refused.
#[tactic(auto, using(crate::proofs::Found::first_some, crate::proofs::Found::first_none))]
fn register_refused<K: Keep>(
    keep: &mut K,
    moment: u64,
    caller: u64,
    name: &Text,
) -> Result<Option<Refusal>, KeepFault>
    ensures { Answers K.Keep keep.old keep.new result (λ t r. r ≡ first_failing (
        first_rules t moment caller true ++ register_rules name.now t.members))
        (MemberFitsNamed name.now) }
{
    match common(keep, moment, caller, true)? {
        Some(refusal) => Ok(Some(refusal)),
        None => member_refused(keep, name),
    }
}

// Why a member of that name can't be registered.
fn member_refused<K: Keep>(keep: &mut K, name: &Text) -> Result<Option<Refusal>, KeepFault>
    requires going { K.is_failed keep.old ≡ false }
    ensures { Answers K.Keep keep.old keep.new result
        (λ t r. r ≡ first_failing (register_rules name.now t.members))
        (MemberFitsNamed name.now) }
{
    let is_taken = is_member_named(keep, name)?;
    let count = keep.counts()?.members;
    Ok(name_refused(name, is_taken, count, MOST_MEMBERS))
}

/// Decides on a new category.
pub fn add_category<'c, K: Keep>(
    keep: &mut K,
    moment: u64,
    caller: u64,
    name: &'c Text,
) -> Result<Result<Change<'c>, Refusal>, KeepFault>
    ensures { Decides K.Keep keep.old keep.new result moment caller (command.AddCategory name.now) }
{
    match add_category_refused(keep, moment, caller, name)? {
        Some(refusal) => Ok(Err(refusal)),
        None => Ok(Ok(Change::AddCategory { moment, name })),
    }
}

// Why that is refused.
#[tactic(auto, using(crate::proofs::Found::first_some, crate::proofs::Found::first_none))]
fn add_category_refused<K: Keep>(
    keep: &mut K,
    moment: u64,
    caller: u64,
    name: &Text,
) -> Result<Option<Refusal>, KeepFault>
    ensures { Answers K.Keep keep.old keep.new result (λ t r. r ≡ first_failing (
        first_rules t moment caller true ++ category_rules name.now t.categories))
        (CategoryFitsNamed name.now) }
{
    match common(keep, moment, caller, true)? {
        Some(refusal) => Ok(Some(refusal)),
        None => category_refused(keep, name),
    }
}

// Why a category of that name can't be added.
fn category_refused<K: Keep>(keep: &mut K, name: &Text) -> Result<Option<Refusal>, KeepFault>
    requires going { K.is_failed keep.old ≡ false }
    ensures { Answers K.Keep keep.old keep.new result
        (λ t r. r ≡ first_failing (category_rules name.now t.categories))
        (CategoryFitsNamed name.now) }
{
    let is_taken = is_category_named(keep, name)?;
    let count = keep.counts()?.categories;
    Ok(name_refused(name, is_taken, count, MOST_CATEGORIES))
}

// Why a name can't be given, where there are so many of at most so many.
fn name_refused(name: &Text, is_taken: bool, count: u32, most: u32) -> Option<Refusal>
    ensures { result ≡ first_failing (name_rules name.now is_taken count most) }
{
    if !is_text(1, 40, name) {
        return Some(Refusal::Range);
    }
    if is_taken {
        return Some(Refusal::NameTaken);
    }
    if count >= most {
        return Some(Refusal::Limit);
    }
    None
}

// Whether there is a member of that name.
#[tactic(auto, using(crate::proofs::Found::some_found))]
fn is_member_named<K: Keep>(keep: &mut K, name: &Text) -> Result<bool, KeepFault>
    ensures { Answers K.Keep keep.old keep.new result
        (λ t is. is ≡ list_any (λ m. same_text m.name name.now) t.members)
        (MemberFitsNamed name.now) }
{
    Ok(keep.member_named(name.as_str())?.is_some())
}

// Whether there is a category of that name.
#[tactic(auto, using(crate::proofs::Found::some_found))]
fn is_category_named<K: Keep>(keep: &mut K, name: &Text) -> Result<bool, KeepFault>
    ensures { Answers K.Keep keep.old keep.new result
        (λ t is. is ≡ list_any (λ k. same_text k.name name.now) t.categories)
        (CategoryFitsNamed name.now) }
{
    Ok(keep.category_named(name.as_str())?.is_some())
}
