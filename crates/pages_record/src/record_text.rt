//! The public record, written list by list: no more than one list is held beside the text.
ghost use Rattle.std.specs.Prelude.{◌≡◌, ◌++◌, ◌∷◌, [], codes, OnOk};
ghost use Rattle.std.specs.Io.{StartsWith};
ghost use Rattle.serde_json.specs.Data.{string};
ghost use Rattle.pages_json.specs.Words.{members_text, text_of, whole};
ghost use Rattle.pages_record.specs.Promises.{PutsPart, PutsText, ShowsRecord};
ghost use Rattle.pages_record.specs.Record.{back_by, bands_by, categories_by, clock_by};
ghost use Rattle.pages_record.specs.Record.{editions_by, feedback_by, front_by, items_by};
ghost use Rattle.pages_record.specs.Record.{members_by, middle_by, questions_by, record_by};
ghost use Rattle.pages_record.specs.Record.{settings_by};

use crate::editions::{AsEditions, numbers_to};
use house_rows::{Keep, KeepFault, Settings};
use pages_json::{Field, end_object, finish, key, put_member_list, put_members};
use pages_text::{AsBands, AsCategories, AsFeedback, AsMembers, AsQuestions, ByEditions};
use std::alloc::{AllocError, Global};

fn put_bands<K: Keep>(alloc: Global, keep: &mut K, out: &mut Vec<u8>) -> Result<(), KeepFault>
    ensures { PutsPart K.Keep keep.old keep.new result bands_by out.old.items out.new.items }
{
    put_member_list(
        alloc,
        out,
        key!("bands"),
        &AsBands,
        keep.editions()?.newest_bands().rows(),
    )?;
    Ok(())
}

fn put_categories<K: Keep>(alloc: Global, keep: &mut K, out: &mut Vec<u8>) -> Result<(), KeepFault>
    ensures { PutsPart K.Keep keep.old keep.new result categories_by out.old.items out.new.items }
{
    let categories = keep.categories()?;
    put_member_list(alloc, out, key!("categories"), &AsCategories, &categories)?;
    Ok(())
}

fn put_clock<K: Keep>(alloc: Global, keep: &mut K, out: &mut Vec<u8>) -> Result<(), KeepFault>
    ensures { PutsPart K.Keep keep.old keep.new result clock_by out.old.items out.new.items }
{
    let clock = keep.clock()?;
    put_members(alloc, out, &[(key!("clock"), Field::Number(clock))])?;
    Ok(())
}

#[tactic(auto, using(pages_json::proofs::Texts::three_members, pages_json::proofs::Texts::front_then), unfolding(crate::specs::Record::front_by))]
fn put_front<K: Keep>(alloc: Global, keep: &mut K, out: &mut Vec<u8>) -> Result<(), KeepFault>
    ensures { PutsPart K.Keep keep.old keep.new result front_by out.old.items out.new.items }
{
    put_bands(alloc, keep, out)?;
    put_categories(alloc, keep, out)?;
    put_clock(alloc, keep, out)?;
    Ok(())
}

fn put_editions<K: Keep>(alloc: Global, keep: &mut K, out: &mut Vec<u8>) -> Result<(), KeepFault>
    ensures { PutsPart K.Keep keep.old keep.new result editions_by out.old.items out.new.items }
{
    let form = AsEditions {
        editions: keep.editions()?,
    };
    let numbers = numbers_to(alloc, form.editions.newest())?;
    put_member_list(alloc, out, key!("editions"), &form, &numbers)?;
    Ok(())
}

fn put_feedback<K: Keep>(alloc: Global, keep: &mut K, out: &mut Vec<u8>) -> Result<(), KeepFault>
    ensures { PutsPart K.Keep keep.old keep.new result feedback_by out.old.items out.new.items }
{
    let feedback = keep.all_feedback()?;
    put_member_list(alloc, out, key!("feedback"), &AsFeedback, &feedback)?;
    Ok(())
}

fn put_items<K: Keep>(alloc: Global, keep: &mut K, out: &mut Vec<u8>) -> Result<(), KeepFault>
    ensures { PutsPart K.Keep keep.old keep.new result items_by out.old.items out.new.items }
{
    let items = keep.items()?;
    let form = ByEditions {
        editions: keep.editions()?,
    };
    put_member_list(alloc, out, key!("items"), &form, &items)?;
    Ok(())
}

fn put_all_members<K: Keep>(alloc: Global, keep: &mut K, out: &mut Vec<u8>) -> Result<(), KeepFault>
    ensures { PutsPart K.Keep keep.old keep.new result members_by out.old.items out.new.items }
{
    let members = keep.members()?;
    put_member_list(alloc, out, key!("members"), &AsMembers, &members)?;
    Ok(())
}

fn put_questions<K: Keep>(alloc: Global, keep: &mut K, out: &mut Vec<u8>) -> Result<(), KeepFault>
    ensures { PutsPart K.Keep keep.old keep.new result questions_by out.old.items out.new.items }
{
    let questions = keep.all_published()?;
    put_member_list(alloc, out, key!("questions"), &AsQuestions, &questions)?;
    Ok(())
}

// The rate and the zone of settings.
fn put_settings_of(alloc: Global, out: &mut Vec<u8>, settings: &Settings) -> Result<(), AllocError>
    ensures text { OnOk result (out.new.items ≡ out.old.items ++ members_text
        ((codes "rate", whole settings.now.rate) ∷ (codes "zone", string settings.now.zone) ∷ [])) }
    ensures front { StartsWith out.new.items out.old.items }
{
    put_members(
        alloc,
        out,
        &[
            (key!("rate"), Field::Number(settings.rate.value())),
            (key!("zone"), Field::Text(settings.zone.as_str())),
        ],
    )
}

fn put_settings<K: Keep>(alloc: Global, keep: &mut K, out: &mut Vec<u8>) -> Result<(), KeepFault>
    ensures { PutsPart K.Keep keep.old keep.new result settings_by out.old.items out.new.items }
{
    put_settings_of(alloc, out, keep.settings()?)?;
    Ok(())
}

#[tactic(auto, using(pages_json::proofs::Texts::three_members, pages_json::proofs::Texts::front_then), unfolding(crate::specs::Record::middle_by))]
fn put_middle<K: Keep>(alloc: Global, keep: &mut K, out: &mut Vec<u8>) -> Result<(), KeepFault>
    ensures { PutsPart K.Keep keep.old keep.new result middle_by out.old.items out.new.items }
{
    put_editions(alloc, keep, out)?;
    put_feedback(alloc, keep, out)?;
    put_items(alloc, keep, out)?;
    Ok(())
}

#[tactic(auto, using(pages_json::proofs::Texts::three_members, pages_json::proofs::Texts::front_then), unfolding(crate::specs::Record::back_by))]
fn put_back<K: Keep>(alloc: Global, keep: &mut K, out: &mut Vec<u8>) -> Result<(), KeepFault>
    ensures { PutsPart K.Keep keep.old keep.new result back_by out.old.items out.new.items }
{
    put_all_members(alloc, keep, out)?;
    put_questions(alloc, keep, out)?;
    put_settings(alloc, keep, out)?;
    Ok(())
}

// All members of the record.
#[tactic(auto, using(pages_json::proofs::Texts::three_members, pages_json::proofs::Texts::front_then))]
fn put_all<K: Keep>(alloc: Global, keep: &mut K, out: &mut Vec<u8>) -> Result<(), KeepFault>
    ensures { PutsPart K.Keep keep.old keep.new result
        (λ t. front_by t ++ (middle_by t ++ back_by t)) out.old.items out.new.items }
{
    put_front(alloc, keep, out)?;
    put_middle(alloc, keep, out)?;
    put_back(alloc, keep, out)?;
    Ok(())
}

// The record by the tables.
#[tactic(auto, using(pages_json::proofs::Texts::front_then))]
fn put_record<K: Keep>(alloc: Global, keep: &mut K, out: &mut Vec<u8>) -> Result<(), KeepFault>
    ensures { PutsText K.Keep keep.old keep.new result (λ t. text_of (record_by t))
        out.old.items out.new.items }
{
    // Asked first, so that a keep that has failed answers so.
    keep.settings()?;
    let start = out.len();
    put_all(alloc, keep, out)?;
    end_object(out, start)?;
    Ok(())
}

/// Appends the public record to a buffer. After an `Err` the buffer has what it had.
#[tactic(auto, using(crate::proofs::Public::record_same))]
pub fn append_record<K: Keep>(
    alloc: Global,
    keep: &mut K,
    out: &mut Vec<u8>,
) -> Result<(), KeepFault>
    ensures { ShowsRecord K.Keep keep.old keep.new result out.old.items out.new.items }
{
    let before = out.len();
    let put = put_record(alloc, keep, out);
    finish(out, before, put)
}
