//! What a house is asked: a name, and the words of its line.
//!
//! Names are looked for by subject, since a match of all in one is slow to prove.
ghost use Rattle.house_rows.specs.Answers.{Reads};

use crate::fault::ScriptFault;
use crate::shown::{Listing, StandingRow, line};
use crate::words::Words;
use house_rows::{Category, Item, Keep, KeepFault, Member};
use std::alloc::Global;

/// The line that a keep answers to a question. Numbers that the question doesn't have are 0.
pub fn answer<K: Keep>(alloc: Global, keep: &mut K, question: &str) -> Result<String, ScriptFault>
    ensures read { Reads K.Keep keep.old keep.new }
{
    let words = &mut Words::new(alloc, question);
    match words.word()? {
        "member_named" => {
            let found = keep.member_named(words.text()?.as_str());
            line(alloc, member_number(found))
        }
        "category_named" => {
            let found = keep.category_named(words.text()?.as_str());
            line(alloc, category_number(found))
        }
        "item_of" => {
            let seller = words.number()?;
            line(alloc, keep.item_of(seller, words.text()?.as_str()))
        }
        name => on_people(alloc, keep, name, words.numbers()?),
    }
}

fn on_people<K: Keep>(
    alloc: Global,
    keep: &mut K,
    name: &str,
    numbers: [u64; 3],
) -> Result<String, ScriptFault>
    ensures read { Reads K.Keep keep.old keep.new }
{
    match name {
        "clock" => line(alloc, keep.clock()),
        "counts" => line(alloc, keep.counts()),
        "member" => line(alloc, keep.member(numbers[0])),
        "has_member" => line(alloc, keep.has_member(numbers[0])),
        "category" => line(alloc, keep.category(numbers[0])),
        "has_category" => line(alloc, keep.has_category(numbers[0])),
        "members" => line(alloc, keep.members()),
        "categories" => line(alloc, keep.categories()),
        _ => on_items(alloc, keep, name, numbers),
    }
}

fn on_items<K: Keep>(
    alloc: Global,
    keep: &mut K,
    name: &str,
    numbers: [u64; 3],
) -> Result<String, ScriptFault>
    ensures read { Reads K.Keep keep.old keep.new }
{
    let [first, second, _] = numbers;
    match name {
        "item" => line(alloc, listing(keep.item(first))),
        "items" => line(alloc, keep.items()),
        "items_in" => line(alloc, keep.items_in(first, second)),
        "state" => line(alloc, keep.terms(first)),
        "standing" => line(alloc, standing(keep, first)),
        "due" => line(alloc, keep.due(first)),
        "reserve" => line(alloc, keep.reserve(first)),
        "reserves" => line(alloc, keep.reserves_of(first, second)),
        "sales" => line(alloc, keep.sold_of(first)),
        _ => on_bids_and_watches(alloc, keep, name, numbers),
    }
}

fn on_bids_and_watches<K: Keep>(
    alloc: Global,
    keep: &mut K,
    name: &str,
    numbers: [u64; 3],
) -> Result<String, ScriptFault>
    ensures read { Reads K.Keep keep.old keep.new }
{
    let [first, second, _] = numbers;
    match name {
        "own" => line(alloc, keep.own_best(first, second)),
        "bids" => line(alloc, keep.bids_of(first, second)),
        "watched" => line(alloc, keep.watched(first, second)),
        "watches" => line(alloc, keep.watches_of(first)),
        "watch_count" => line(alloc, keep.watch_count(first)),
        _ => on_questions(alloc, keep, name, numbers),
    }
}

fn on_questions<K: Keep>(
    alloc: Global,
    keep: &mut K,
    name: &str,
    numbers: [u64; 3],
) -> Result<String, ScriptFault>
    ensures read { Reads K.Keep keep.old keep.new }
{
    let [first, second, third] = numbers;
    match name {
        "ask_count" => line(alloc, keep.ask_count(first, second)),
        "question" => line(alloc, keep.question(first, second, third)),
        "questions" => line(alloc, keep.questions_of(first, second)),
        "published" => line(alloc, keep.published(first, second)),
        "all_published" => line(alloc, keep.all_published()),
        "waiting" => line(alloc, keep.waiting_for(first)),
        "first_waiting" => line(alloc, keep.first_waiting(first)),
        _ => on_feedback(alloc, keep, name, numbers),
    }
}

fn on_feedback<K: Keep>(
    alloc: Global,
    keep: &mut K,
    name: &str,
    numbers: [u64; 3],
) -> Result<String, ScriptFault>
    ensures read { Reads K.Keep keep.old keep.new }
{
    let [first, second, _] = numbers;
    match name {
        "given" => line(alloc, keep.given(first, second)),
        "ratings" => line(alloc, keep.ratings(first)),
        "feedback" => line(alloc, keep.feedback_for(first, second)),
        "all_feedback" => line(alloc, keep.all_feedback()),
        _ => on_band_tables(alloc, keep, name, first),
    }
}

fn on_band_tables<K: Keep>(
    alloc: Global,
    keep: &mut K,
    name: &str,
    number: u64,
) -> Result<String, ScriptFault>
    ensures read { Reads K.Keep keep.old keep.new }
{
    match name {
        "newest" => line(alloc, newest(keep)),
        "edition" => line(alloc, edition_of(keep, number)),
        "bands" => line(alloc, bands(alloc, keep, number)),
        _ => Err(ScriptFault::Script),
    }
}

// The number of the newest edition.
fn newest<K: Keep>(keep: &K) -> Result<u32, KeepFault> {
    Ok(keep.editions()?.newest())
}

// The edition by which an item goes.
fn edition_of<K: Keep>(keep: &K, item: u64) -> Result<u32, KeepFault> {
    Ok(keep.editions()?.edition_of(item))
}

// The rows of the band table of an edition, if there is one.
fn bands<K: Keep>(
    alloc: Global,
    keep: &K,
    edition: u64,
) -> Result<Option<Vec<(u64, u64)>>, KeepFault> {
    match keep.editions()?.bands_of(edition) {
        Some(bands) => Ok(Some(bands.rows().to_vec(alloc)?)),
        None => Ok(None),
    }
}

// The number of a member.
fn member_number(found: Result<Option<Member>, KeepFault>) -> Result<Option<u32>, KeepFault> {
    match found? {
        Some(member) => Ok(Some(member.member)),
        None => Ok(None),
    }
}

// The number of a category.
fn category_number(found: Result<Option<Category>, KeepFault>) -> Result<Option<u32>, KeepFault> {
    match found? {
        Some(category) => Ok(Some(category.category)),
        None => Ok(None),
    }
}

// An item, to be shown with its texts.
fn listing(item: Result<Option<Item>, KeepFault>) -> Result<Option<Listing>, KeepFault> {
    match item? {
        Some(item) => Ok(Some(Listing(item))),
        None => Ok(None),
    }
}

// The standing of an item, and its floor by its own band table.
fn standing<K: Keep>(keep: &mut K, item: u64) -> Result<Option<StandingRow>, KeepFault>
    ensures read { Reads K.Keep keep.old keep.new }
{
    let Some(standing) = keep.standing(item)? else {
        return Ok(None);
    };
    let floor = standing.floor(keep.editions()?.bands_for(item));
    Ok(Some(StandingRow { standing, floor }))
}
