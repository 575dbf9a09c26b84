//! Entries that are on pages as they are.
ghost use Rattle.std.specs.Prelude.{◌≡◌, IsTrue, map};
ghost use Rattle.pages_json.specs.Fields.{are_keys, member_of};
ghost use Rattle.pages_json.specs.Words.{AreInOrder, object_of};
ghost use Rattle.pages_text.specs.Trees.{band_tree, category_tree, feedback_tree, member_tree};
ghost use Rattle.pages_text.specs.Trees.{own_bid_tree, own_reserve_tree, question_tree};
ghost use Rattle.pages_text.specs.Trees.{rating_value};

use house_rows::{Category, Feedback, Member, OwnBid, OwnReserve, Question, Rating, Text};
use pages_json::{Field, Shows, key, put_object};
use std::alloc::{AllocError, Global};

// The keys of a band, and what they have.
pub(crate) fn band_fields(band: &(u64, u64)) -> [(&'static str, Field<'_>); 2]
    ensures tree { object_of (map member_of result) ≡ band_tree band.now }
    ensures order { AreInOrder (map member_of result) }
    ensures keys { IsTrue (are_keys result) }
{
    [
        (key!("at"), Field::Number(band.0)),
        (key!("step"), Field::Number(band.1)),
    ]
}

/// Bands, each as (at, step).
#[derive(Clone, Copy)]
pub struct AsBands;

impl Shows<(u64, u64)> for AsBands {
    ghost use Rattle.pages_text.specs.Trees.{band_tree};

    ghost tree = { λ _ band. band_tree band };

    fn put(&self, alloc: Global, out: &mut Vec<u8>, band: &(u64, u64)) -> Result<(), AllocError> {
        put_object(alloc, out, &band_fields(band))
    }
}

// The keys of a category, and what they have.
pub(crate) fn category_fields(category: &Category) -> [(&'static str, Field<'_>); 2]
    ensures tree { object_of (map member_of result) ≡ category_tree category.now }
    ensures order { AreInOrder (map member_of result) }
    ensures keys { IsTrue (are_keys result) }
{
    [
        (
            key!("category"),
            Field::Number(u64::from(category.category)),
        ),
        (key!("name"), Field::Text(category.name.as_str())),
    ]
}

/// Categories.
#[derive(Clone, Copy)]
pub struct AsCategories;

impl Shows<Category> for AsCategories {
    ghost use Rattle.pages_text.specs.Trees.{category_tree};

    ghost tree = { λ _ k. category_tree k };

    fn put(&self, alloc: Global, out: &mut Vec<u8>, category: &Category) -> Result<(), AllocError> {
        put_object(alloc, out, &category_fields(category))
    }
}

// The keys of a member, as the record shows it, and what they have.
pub(crate) fn member_fields(member: &Member) -> [(&'static str, Field<'_>); 2]
    ensures tree { object_of (map member_of result) ≡ member_tree member.now }
    ensures order { AreInOrder (map member_of result) }
    ensures keys { IsTrue (are_keys result) }
{
    [
        (key!("member"), Field::Number(u64::from(member.member))),
        (key!("name"), Field::Text(member.name.as_str())),
    ]
}

/// Members, as the record shows them.
#[derive(Clone, Copy)]
pub struct AsMembers;

impl Shows<Member> for AsMembers {
    ghost use Rattle.pages_text.specs.Trees.{member_tree};

    ghost tree = { λ _ m. member_tree m };

    fn put(&self, alloc: Global, out: &mut Vec<u8>, member: &Member) -> Result<(), AllocError> {
        put_object(alloc, out, &member_fields(member))
    }
}

// The keys of what a member has bid on an item, and what they have.
pub(crate) fn own_bid_fields(bid: &OwnBid) -> [(&'static str, Field<'_>); 6]
    ensures tree { object_of (map member_of result) ≡ own_bid_tree bid.now }
    ensures order { AreInOrder (map member_of result) }
    ensures keys { IsTrue (are_keys result) }
{
    [
        (key!("item"), Field::Number(u64::from(bid.item))),
        (key!("leading"), Field::Flag(bid.leading)),
        (key!("maximum"), Field::Number(bid.maximum.value())),
        (key!("mine"), Field::Number(bid.mine)),
        (key!("price"), Field::Number(bid.price.value())),
        (key!("state"), Field::Text(bid.state.name())),
    ]
}

/// What a member has bid, an item each.
#[derive(Clone, Copy)]
pub struct AsOwnBids;

impl Shows<OwnBid> for AsOwnBids {
    ghost use Rattle.pages_text.specs.Trees.{own_bid_tree};

    ghost tree = { λ _ b. own_bid_tree b };

    fn put(&self, alloc: Global, out: &mut Vec<u8>, bid: &OwnBid) -> Result<(), AllocError> {
        put_object(alloc, out, &own_bid_fields(bid))
    }
}

// The keys of a member's reserve on an item, and what they have.
pub(crate) fn own_reserve_fields(reserve: &OwnReserve) -> [(&'static str, Field<'_>); 3]
    ensures tree { object_of (map member_of result) ≡ own_reserve_tree reserve.now }
    ensures order { AreInOrder (map member_of result) }
    ensures keys { IsTrue (are_keys result) }
{
    [
        (key!("item"), Field::Number(u64::from(reserve.item))),
        (key!("met"), Field::Flag(reserve.met)),
        (key!("reserve"), Field::Number(reserve.reserve.value())),
    ]
}

/// A member's reserves, an item each.
#[derive(Clone, Copy)]
pub struct AsOwnReserves;

impl Shows<OwnReserve> for AsOwnReserves {
    ghost use Rattle.pages_text.specs.Trees.{own_reserve_tree};

    ghost tree = { λ _ r. own_reserve_tree r };

    fn put(
        &self,
        alloc: Global,
        out: &mut Vec<u8>,
        reserve: &OwnReserve,
    ) -> Result<(), AllocError> {
        put_object(alloc, out, &own_reserve_fields(reserve))
    }
}

// The keys of a question, and what they have.
pub(crate) fn question_fields(question: &Question) -> [(&'static str, Field<'_>); 5]
    ensures tree { object_of (map member_of result) ≡ question_tree question.now }
    ensures order { AreInOrder (map member_of result) }
    ensures keys { IsTrue (are_keys result) }
{
    [
        (
            key!("answer"),
            Field::MaybeText(question.answer.as_ref().map(Text::as_str)),
        ),
        (key!("asker"), Field::Number(u64::from(question.asker))),
        (key!("item"), Field::Number(u64::from(question.item))),
        (key!("number"), Field::Number(u64::from(question.number))),
        (key!("text"), Field::Text(question.text.as_str())),
    ]
}

/// Questions.
#[derive(Clone, Copy)]
pub struct AsQuestions;

impl Shows<Question> for AsQuestions {
    ghost use Rattle.pages_text.specs.Trees.{question_tree};

    ghost tree = { λ _ q. question_tree q };

    fn put(&self, alloc: Global, out: &mut Vec<u8>, question: &Question) -> Result<(), AllocError> {
        put_object(alloc, out, &question_fields(question))
    }
}

// The number of a rating, from -1 to 1.
pub(crate) fn rating_value(rating: Rating) -> i64
    ensures { result ≡ rating_value rating }
{
    match rating {
        Rating::Minus => -1,
        Rating::Zero => 0,
        Rating::Plus => 1,
    }
}

// The keys of feedback, and what they have.
pub(crate) fn feedback_fields(feedback: &Feedback) -> [(&'static str, Field<'_>); 5]
    ensures tree { object_of (map member_of result) ≡ feedback_tree feedback.now }
    ensures order { AreInOrder (map member_of result) }
    ensures keys { IsTrue (are_keys result) }
{
    [
        (key!("from"), Field::Number(u64::from(feedback.from))),
        (key!("item"), Field::Number(u64::from(feedback.item))),
        (
            key!("rating"),
            Field::Integer(rating_value(feedback.rating)),
        ),
        (key!("text"), Field::Text(feedback.text.as_str())),
        (key!("to"), Field::Number(u64::from(feedback.to))),
    ]
}

/// Feedback.
#[derive(Clone, Copy)]
pub struct AsFeedback;

impl Shows<Feedback> for AsFeedback {
    ghost use Rattle.pages_text.specs.Trees.{feedback_tree};

    ghost tree = { λ _ f. feedback_tree f };

    fn put(&self, alloc: Global, out: &mut Vec<u8>, feedback: &Feedback) -> Result<(), AllocError> {
        put_object(alloc, out, &feedback_fields(feedback))
    }
}
