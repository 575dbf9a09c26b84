//! The public record as a tree, grown list by list into the members of one object. The program writes
//! text: only tests make trees.
ghost use Rattle.std.specs.Prelude.{◌≡◌, ◌∷◌, ◌++◌, [], codes, OnOk};
ghost use Rattle.serde_json.specs.Data.{string};
ghost use Rattle.serde_json.specs.View.{members_view, view};
ghost use Rattle.pages_json.specs.Words.{put_all, whole};
ghost use Rattle.pages_record.specs.Promises.{GrowsPart, GrowsRecord, GrowsTree};
ghost use Rattle.pages_record.specs.Record.{back_by, bands_by, categories_by, clock_by};
ghost use Rattle.pages_record.specs.Record.{editions_by, feedback_by, front_by, items_by};
ghost use Rattle.pages_record.specs.Record.{members_by, middle_by, questions_by, record_by};
ghost use Rattle.pages_record.specs.Record.{settings_by};

use crate::editions::{AsEditions, numbers_to, rows_of};
use house_rows::{Keep, Settings};
use pages_json::{Field, Grows, grow_member_list, grow_members, grow_object_around, key};
use pages_text::{
    AsBands, AsCategories, AsFeedback, AsMembers, AsQuestions, ByEditions, PageFault,
};
use serde_json::{Map, Value};
use std::alloc::{AllocError, Global};

impl Grows<u32> for AsEditions<'_> {
    fn grow(&self, alloc: Global, number: &u32) -> Result<Value, AllocError> {
        let number = u64::from(*number);
        let rows = rows_of(self.editions.bands_of(number));
        grow_object_around(
            alloc,
            &[],
            "bands",
            &AsBands,
            rows,
            &[(key!("edition"), Field::Number(number))],
        )
    }
}

fn grow_bands<K: Keep>(
    alloc: Global,
    keep: &mut K,
    members: &mut Map<String, Value>,
) -> Result<(), PageFault>
    ensures { GrowsPart K.Keep keep.old keep.new result bands_by members.old members.new }
{
    grow_member_list(
        alloc,
        members,
        "bands",
        &AsBands,
        keep.editions()?.newest_bands().rows(),
    )?;
    Ok(())
}

fn grow_categories<K: Keep>(
    alloc: Global,
    keep: &mut K,
    members: &mut Map<String, Value>,
) -> Result<(), PageFault>
    ensures { GrowsPart K.Keep keep.old keep.new result categories_by members.old members.new }
{
    let categories = keep.categories()?;
    grow_member_list(alloc, members, "categories", &AsCategories, &categories)?;
    Ok(())
}

fn grow_clock<K: Keep>(
    alloc: Global,
    keep: &mut K,
    members: &mut Map<String, Value>,
) -> Result<(), PageFault>
    ensures { GrowsPart K.Keep keep.old keep.new result clock_by members.old members.new }
{
    let clock = keep.clock()?;
    grow_members(alloc, members, &[(key!("clock"), Field::Number(clock))])?;
    Ok(())
}

#[tactic(auto, using(pages_json::proofs::Trees::put_parts), unfolding(crate::specs::Record::front_by))]
fn grow_front<K: Keep>(
    alloc: Global,
    keep: &mut K,
    members: &mut Map<String, Value>,
) -> Result<(), PageFault>
    ensures { GrowsPart K.Keep keep.old keep.new result front_by members.old members.new }
{
    grow_bands(alloc, keep, members)?;
    grow_categories(alloc, keep, members)?;
    grow_clock(alloc, keep, members)?;
    Ok(())
}

fn grow_editions<K: Keep>(
    alloc: Global,
    keep: &mut K,
    members: &mut Map<String, Value>,
) -> Result<(), PageFault>
    ensures { GrowsPart K.Keep keep.old keep.new result editions_by members.old members.new }
{
    let form = AsEditions {
        editions: keep.editions()?,
    };
    let numbers = numbers_to(alloc, form.editions.newest())?;
    grow_member_list(alloc, members, "editions", &form, &numbers)?;
    Ok(())
}

fn grow_feedback<K: Keep>(
    alloc: Global,
    keep: &mut K,
    members: &mut Map<String, Value>,
) -> Result<(), PageFault>
    ensures { GrowsPart K.Keep keep.old keep.new result feedback_by members.old members.new }
{
    let feedback = keep.all_feedback()?;
    grow_member_list(alloc, members, "feedback", &AsFeedback, &feedback)?;
    Ok(())
}

fn grow_items<K: Keep>(
    alloc: Global,
    keep: &mut K,
    members: &mut Map<String, Value>,
) -> Result<(), PageFault>
    ensures { GrowsPart K.Keep keep.old keep.new result items_by members.old members.new }
{
    let items = keep.items()?;
    let form = ByEditions {
        editions: keep.editions()?,
    };
    grow_member_list(alloc, members, "items", &form, &items)?;
    Ok(())
}

fn grow_all_members<K: Keep>(
    alloc: Global,
    keep: &mut K,
    members: &mut Map<String, Value>,
) -> Result<(), PageFault>
    ensures { GrowsPart K.Keep keep.old keep.new result members_by members.old members.new }
{
    let rows = keep.members()?;
    grow_member_list(alloc, members, "members", &AsMembers, &rows)?;
    Ok(())
}

#[tactic(auto, using(pages_json::proofs::Trees::put_parts), unfolding(crate::specs::Record::middle_by))]
fn grow_middle<K: Keep>(
    alloc: Global,
    keep: &mut K,
    members: &mut Map<String, Value>,
) -> Result<(), PageFault>
    ensures { GrowsPart K.Keep keep.old keep.new result middle_by members.old members.new }
{
    grow_editions(alloc, keep, members)?;
    grow_feedback(alloc, keep, members)?;
    grow_items(alloc, keep, members)?;
    Ok(())
}

fn grow_questions<K: Keep>(
    alloc: Global,
    keep: &mut K,
    members: &mut Map<String, Value>,
) -> Result<(), PageFault>
    ensures { GrowsPart K.Keep keep.old keep.new result questions_by members.old members.new }
{
    let questions = keep.all_published()?;
    grow_member_list(alloc, members, "questions", &AsQuestions, &questions)?;
    Ok(())
}

// The rate and the zone of settings.
fn grow_settings_of(
    alloc: Global,
    members: &mut Map<String, Value>,
    settings: &Settings,
) -> Result<(), AllocError>
    ensures { OnOk result (members_view members.new.entries ≡ put_all
        ((codes "rate", whole settings.now.rate) ∷ (codes "zone", string settings.now.zone) ∷ [])
        (members_view members.old.entries)) }
{
    grow_members(
        alloc,
        members,
        &[
            (key!("rate"), Field::Number(settings.rate.value())),
            (key!("zone"), Field::Text(settings.zone.as_str())),
        ],
    )
}

fn grow_settings<K: Keep>(
    alloc: Global,
    keep: &mut K,
    members: &mut Map<String, Value>,
) -> Result<(), PageFault>
    ensures { GrowsPart K.Keep keep.old keep.new result settings_by members.old members.new }
{
    grow_settings_of(alloc, members, keep.settings()?)?;
    Ok(())
}

#[tactic(auto, using(pages_json::proofs::Trees::put_parts), unfolding(crate::specs::Record::back_by))]
fn grow_back<K: Keep>(
    alloc: Global,
    keep: &mut K,
    members: &mut Map<String, Value>,
) -> Result<(), PageFault>
    ensures { GrowsPart K.Keep keep.old keep.new result back_by members.old members.new }
{
    grow_all_members(alloc, keep, members)?;
    grow_questions(alloc, keep, members)?;
    grow_settings(alloc, keep, members)?;
    Ok(())
}

// All members of the record.
#[tactic(auto, using(pages_json::proofs::Trees::put_parts))]
fn grow_all<K: Keep>(
    alloc: Global,
    keep: &mut K,
    members: &mut Map<String, Value>,
) -> Result<(), PageFault>
    ensures { GrowsPart K.Keep keep.old keep.new result
        (λ t. front_by t ++ (middle_by t ++ back_by t)) members.old members.new }
{
    grow_front(alloc, keep, members)?;
    grow_middle(alloc, keep, members)?;
    grow_back(alloc, keep, members)?;
    Ok(())
}

// The record by the tables.
fn grow_record<K: Keep>(alloc: Global, keep: &mut K) -> Result<Value, PageFault>
    ensures { GrowsTree K.Keep keep.old keep.new result (λ t v. view v ≡ record_by t) }
{
    // Asked first, so that a keep that has failed answers so.
    keep.settings()?;
    let mut members = Map::new(alloc);
    grow_all(alloc, keep, &mut members)?;
    Ok(Value::Object(members))
}

/// Makes the tree of the public record, whose compact text is what `append_record` appends.
#[tactic(auto, using(crate::proofs::Public::record_same))]
pub fn record<K: Keep>(alloc: Global, keep: &mut K) -> Result<Value, PageFault>
    ensures { GrowsRecord K.Keep keep.old keep.new result }
{
    grow_record(alloc, keep)
}
