//! The tests of what is handed out.
ghost use Rattle.std.specs.Prelude.{◌≡◌, ◌↔◌, true, IfSome, IsTrue};
ghost use Rattle.house_rows.specs.Fits.{CategoryFits, FeedbackFits, IsWithin, MemberFits, QuestionFits, ItemFits, TermsFit};
ghost use Rattle.house_rows.specs.Text.{has_length, is_text, is_lot, is_lot_byte};
ghost use Rattle.store_rows.specs.Fitting.{BidFits, HouseRowFits};
ghost use Rattle.std.specs.List.{list_all};
ghost use Rattle.house_rows.specs.Limits.{most_cents};
ghost use Rattle.house_rows.specs.Verdict.{was_sold};
ghost use Rattle.store_rows.specs.ItemFitting.{AmountsFit, LeaderFits, NumbersFit, SaleFits};

use crate::house::HouseRow;
use cents::{Cents, LIMIT};
use house_rows::{
    Category, Feedback, Item, MOST_CATEGORIES, MOST_ITEMS, MOST_MEMBERS, MOST_QUESTIONS, MOST_RATE,
    Member, Question, State, Terms, Text,
};
use proxy::{Bid, MOST_BIDS};
use settle::LAST_MOMENT;

/// The version of the tables.
pub(crate) const VERSION: u32 = 2;

/// Whether a number is within a range.
pub(crate) fn is_within(least: u32, most: u32, number: u32) -> bool
    ensures { IsTrue result ↔ IsWithin least most number }
{
    least <= number && number <= most
}

/// Whether a text has so many bytes and no control characters.
pub(crate) fn is_text(least: usize, most: usize, text: &Text) -> bool
    ensures { result ≡ is_text least most text.now }
{
    has_length(least, most, text) && text.is_plain()
}

/// Whether it has so many bytes.
pub(crate) fn has_length(least: usize, most: usize, text: &Text) -> bool
    ensures { result ≡ has_length least most text.now }
{
    least <= text.len() && text.len() <= most
}

/// Whether the numbers of a question and its texts fit.
pub(crate) fn question_fits(question: &Question) -> bool
    ensures { IsTrue result ↔ QuestionFits question.now }
{
    is_within(1, MOST_ITEMS, question.item)
        && is_within(1, MOST_MEMBERS, question.asker)
        && is_within(1, MOST_QUESTIONS, question.number)
        && is_text(1, 500, &question.text)
        && answer_fits(question)
}

// Whether its answer fits, where it has one.
fn answer_fits(question: &Question) -> bool
    ensures { IsTrue result ↔ IfSome question.now.answer (λ text. is_text 1 500 text ≡ true) }
{
    match &question.answer {
        None => true,
        Some(answer) => is_text(1, 500, answer),
    }
}

/// Whether the numbers of a feedback and its text fit.
pub(crate) fn feedback_fits(feedback: &Feedback) -> bool
    ensures { IsTrue result ↔ FeedbackFits feedback.now }
{
    is_within(1, MOST_ITEMS, feedback.item)
        && is_within(1, MOST_MEMBERS, feedback.from)
        && is_within(1, MOST_MEMBERS, feedback.to)
        && is_text(0, 200, &feedback.text)
}

/// Whether a member's number and name fit.
pub(crate) fn member_fits(member: &Member) -> bool
    ensures { IsTrue result ↔ MemberFits member.now }
{
    is_within(1, MOST_MEMBERS, member.member) && is_text(1, 40, &member.name)
}

/// Whether a category's number and name fit.
pub(crate) fn category_fits(category: &Category) -> bool
    ensures { IsTrue result ↔ CategoryFits category.now }
{
    is_within(1, MOST_CATEGORIES, category.category) && is_text(1, 40, &category.name)
}

/// Whether the numbers of a bid fit.
pub(crate) fn bid_fits(bid: &Bid) -> bool
    ensures { IsTrue result ↔ BidFits bid.now }
{
    is_within(1, MOST_MEMBERS, bid.member)
        && is_within(1, MOST_BIDS, bid.no)
        && bid.maximum.value() <= LIMIT
}

/// Whether the row of the house is the only one, of this version, and its clock, rate and zone fit.
pub(crate) fn house_fits(house: &HouseRow) -> bool
    ensures { IsTrue result ↔ HouseRowFits house.now }
{
    house.id == 1
        && house.version == VERSION
        && house.clock <= LAST_MOMENT
        && house.rate <= MOST_RATE
        && house.zone.is_plain()
}

// Whether an amount is within a range of cents.
fn is_amount(least: u64, amount: Cents) -> bool
    ensures { IsTrue result ↔ IsWithin least most_cents amount }
{
    least <= amount.value() && amount.value() <= LIMIT
}

// Whether the numbers that an item names rows by are in their ranges, and that of its bids.
fn numbers_fit(terms: &Terms) -> bool
    ensures { IsTrue result ↔ NumbersFit terms.now }
{
    is_within(1, MOST_ITEMS, terms.item)
        && is_within(1, MOST_MEMBERS, terms.seller)
        && is_within(1, MOST_CATEGORIES, terms.category)
        && terms.count <= MOST_BIDS
}

// Whether its amounts are in their ranges. A buy-now price is at least the start.
fn amounts_fit(terms: &Terms) -> bool
    ensures { IsTrue result ↔ AmountsFit terms.now }
{
    let buy_now_fits = match terms.buy_now {
        None => true,
        Some(amount) => is_amount(terms.start.value(), amount),
    };
    is_amount(1, terms.start) && buy_now_fits && is_amount(0, terms.price)
}

// Whether a member leads who does not sell, or nobody.
fn leader_fits(terms: &Terms) -> bool
    ensures { IsTrue result ↔ LeaderFits terms.now }
{
    match terms.leader {
        None => true,
        Some(leader) => is_within(1, MOST_MEMBERS, leader) && leader != terms.seller,
    }
}

// Whether it has a buyer and a closing moment where it was sold.
fn sale_fits(terms: &Terms) -> bool
    ensures { IsTrue result ↔ SaleFits terms.now }
{
    match terms.state {
        State::Sold | State::Settled => terms.leader.is_some() && terms.closed.is_some(),
        State::Open | State::Unsold => true,
    }
}

/// Whether an item's numbers, amounts and moments fit.
pub(crate) fn terms_fit(terms: &Terms) -> bool
    ensures { IsTrue result ↔ TermsFit terms.now }
{
    let closing_fits = match terms.closed {
        None => true,
        Some(moment) => moment <= LAST_MOMENT,
    };
    numbers_fit(terms)
        && amounts_fit(terms)
        && terms.end <= LAST_MOMENT
        && closing_fits
        && leader_fits(terms)
        && sale_fits(terms)
}

/// Whether its texts fit too.
pub(crate) fn item_fits(item: &Item) -> bool
    ensures { IsTrue result ↔ ItemFits item.now }
{
    terms_fit(&item.terms)
        && is_lot(&item.lot)
        && is_text(1, 80, &item.title)
        && is_text(0, 2000, &item.text)
}

// Whether it is a seller's code for an item.
fn is_lot(text: &Text) -> bool
    ensures { result ≡ is_lot text.now }
{
    has_length(1, 20, text) && has_lot_bytes(text)
}

// Whether it has none but the bytes of a code.
fn has_lot_bytes(text: &Text) -> bool
    ensures { result ≡ list_all is_lot_byte text.now }
{
    text.as_str().as_bytes().iter().all(|b| is_lot_byte(*b))
}

// Whether a byte is an ASCII letter, a digit or `-`.
fn is_lot_byte(byte: u8) -> bool
    ensures { result ≡ is_lot_byte byte }
{
    byte.is_ascii_alphanumeric() || byte == b'-'
}
