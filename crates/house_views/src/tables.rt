//! Whether two keeps have the same rows, list by list.
ghost use Rattle.std.specs.Prelude.{◌≡◌, ◌↔◌, true, IfOk};
ghost use Rattle.house_rows.specs.Found.{all_items, all_published, waiting_for};
ghost use Rattle.house_rows.specs.Taken.{AllWaitingFit, IsUndamaged, PublicRowsFit};
ghost use Rattle.house_views.specs.Compares.{Compares};
ghost use Rattle.house_views.specs.Views.{HaveSamePeople, HaveSameRows, HaveSameTalk, PairFaults};

use crate::same::are_same;
use house_rows::{Keep, KeepFault};

// Whether the clocks are alike.
fn have_same_clock<K: Keep>(left: &mut K, right: &mut K) -> Result<bool, KeepFault>
    ensures { Compares K.Keep left.old left.new right.old right.new result
        (λ t u same. (same ≡ true) ↔ (t.clock ≡ u.clock)) PublicRowsFit }
{
    let clock = left.clock()?;
    let other = right.clock()?;
    Ok(clock == other)
}

// Whether the members are the same.
fn have_same_members<K: Keep>(left: &mut K, right: &mut K) -> Result<bool, KeepFault>
    ensures { Compares K.Keep left.old left.new right.old right.new result
        (λ t u same. (same ≡ true) ↔ (t.members ≡ u.members)) PublicRowsFit }
{
    let members = left.members()?;
    let others = right.members()?;
    Ok(are_same(&members, &others))
}

// Whether the categories are the same.
fn have_same_categories<K: Keep>(left: &mut K, right: &mut K) -> Result<bool, KeepFault>
    ensures { Compares K.Keep left.old left.new right.old right.new result
        (λ t u same. (same ≡ true) ↔ (t.categories ≡ u.categories)) PublicRowsFit }
{
    let categories = left.categories()?;
    let others = right.categories()?;
    Ok(are_same(&categories, &others))
}

// Whether the same band tables were set, each from the same item on.
fn have_same_editions<K: Keep>(left: &K, right: &K) -> Result<bool, KeepFault>
    ensures report { K.is_honest left.now → K.is_honest right.now → IfOk result (λ same.
        (same ≡ true) ↔ ((K.content left.now).editions ≡ (K.content right.now).editions)) }
    ensures faults { PairFaults result (K.is_honest left.now × K.is_honest right.now)
        (K.is_failed left.now) (K.is_failed right.now) (K.content left.now) (K.content right.now) }
    ensures damaged { K.is_honest left.now → K.is_honest right.now → IsUndamaged result }
{
    let editions = left.editions()?;
    let others = right.editions()?;
    Ok(are_same(editions.later(), others.later()))
}

// Whether the items are the same.
fn have_same_items<K: Keep>(left: &mut K, right: &mut K) -> Result<bool, KeepFault>
    ensures { Compares K.Keep left.old left.new right.old right.new result
        (λ t u same. (same ≡ true) ↔ (all_items t ≡ all_items u)) PublicRowsFit }
{
    let items = left.items()?;
    let others = right.items()?;
    Ok(are_same(&items, &others))
}

// Whether the published questions are the same.
fn have_same_questions<K: Keep>(left: &mut K, right: &mut K) -> Result<bool, KeepFault>
    ensures { Compares K.Keep left.old left.new right.old right.new result
        (λ t u same. (same ≡ true) ↔ (all_published t ≡ all_published u)) PublicRowsFit }
{
    let questions = left.all_published()?;
    let others = right.all_published()?;
    Ok(are_same(&questions, &others))
}

// Whether the feedback is the same.
fn have_same_feedback<K: Keep>(left: &mut K, right: &mut K) -> Result<bool, KeepFault>
    ensures { Compares K.Keep left.old left.new right.old right.new result
        (λ t u same. (same ≡ true) ↔ (t.feedback ≡ u.feedback)) PublicRowsFit }
{
    let feedback = left.all_feedback()?;
    let others = right.all_feedback()?;
    Ok(are_same(&feedback, &others))
}

// Whether the same questions wait for a member.
pub(crate) fn have_same_open<K: Keep>(
    left: &mut K,
    right: &mut K,
    member: u64,
) -> Result<bool, KeepFault>
    ensures { Compares K.Keep left.old left.new right.old right.new result
        (λ t u same. (same ≡ true) ↔ (waiting_for t member ≡ waiting_for u member))
        (AllWaitingFit member) }
{
    let questions = left.waiting_for(member)?;
    let others = right.waiting_for(member)?;
    Ok(are_same(&questions, &others))
}

// Whether clock, members and categories are the same.
fn have_same_people<K: Keep>(left: &mut K, right: &mut K) -> Result<bool, KeepFault>
    ensures { Compares K.Keep left.old left.new right.old right.new result
        (λ t u same. (same ≡ true) ↔ HaveSamePeople t u) PublicRowsFit }
{
    if !have_same_clock(left, right)? {
        return Ok(false);
    }
    if !have_same_members(left, right)? {
        return Ok(false);
    }
    let same = have_same_categories(left, right)?;
    Ok(same)
}

// Whether what members say in public is the same.
fn have_same_talk<K: Keep>(left: &mut K, right: &mut K) -> Result<bool, KeepFault>
    ensures { Compares K.Keep left.old left.new right.old right.new result
        (λ t u same. (same ≡ true) ↔ HaveSameTalk t u) PublicRowsFit }
{
    if !have_same_questions(left, right)? {
        return Ok(false);
    }
    let same = have_same_feedback(left, right)?;
    Ok(same)
}

// Whether everything public that may change is the same.
pub(crate) fn have_same_rows<K: Keep>(left: &mut K, right: &mut K) -> Result<bool, KeepFault>
    ensures { Compares K.Keep left.old left.new right.old right.new result
        (λ t u same. (same ≡ true) ↔ HaveSameRows t u) PublicRowsFit }
{
    if !have_same_people(left, right)? {
        return Ok(false);
    }
    if !have_same_editions(left, right)? {
        return Ok(false);
    }
    if !have_same_items(left, right)? {
        return Ok(false);
    }
    let same = have_same_talk(left, right)?;
    Ok(same)
}
