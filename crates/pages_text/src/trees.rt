//! The tree of each page and of what is there. The program writes text: it makes no tree, and
//! only tests use what is here.
ghost use Rattle.std.specs.Prelude.{◌≡◌, ◌<◌, ◌^◌, IfOk};
ghost use Rattle.settle.specs.Statement.{statement_of};
ghost use Rattle.serde_json.specs.View.{view};
ghost use Rattle.pages_text.specs.Fits.{AreSales, PageFits};
ghost use Rattle.pages_text.specs.Trees.{page_tree, statement_from, statement_tree};

use crate::entries::{
    AsBands, AsCategories, AsFeedback, AsMembers, AsOwnBids, AsOwnReserves, AsQuestions,
    band_fields, category_fields, feedback_fields, member_fields, own_bid_fields,
    own_reserve_fields, question_fields,
};
use crate::item::{AsItems, ByEditions, floor_by, item_fields};
use crate::page::{house_fields, rated_fields};
use crate::refused::{AsRefusals, fields_with, floor_reported, plain_fields};
use crate::statement::{AsLines, back_fields, front_fields, line_fields};
use house_rows::{
    Category, Feedback, Item, ItemShown, Member, OwnBid, OwnReserve, Page, Question, Rate, Refusal,
};
use pages_json::{Grows, grow_list, grow_object, grow_object_around};
use serde_json::Value;
use settle::{Day, Line, Sold, Totals, Zone, lines};
use std::alloc::{AllocError, Global};

impl Grows<(u64, u64)> for AsBands {
    fn grow(&self, alloc: Global, band: &(u64, u64)) -> Result<Value, AllocError> {
        grow_object(alloc, &band_fields(band))
    }
}

impl Grows<Category> for AsCategories {
    fn grow(&self, alloc: Global, category: &Category) -> Result<Value, AllocError> {
        grow_object(alloc, &category_fields(category))
    }
}

impl Grows<Member> for AsMembers {
    fn grow(&self, alloc: Global, member: &Member) -> Result<Value, AllocError> {
        grow_object(alloc, &member_fields(member))
    }
}

impl Grows<OwnBid> for AsOwnBids {
    fn grow(&self, alloc: Global, bid: &OwnBid) -> Result<Value, AllocError> {
        grow_object(alloc, &own_bid_fields(bid))
    }
}

impl Grows<OwnReserve> for AsOwnReserves {
    fn grow(&self, alloc: Global, reserve: &OwnReserve) -> Result<Value, AllocError> {
        grow_object(alloc, &own_reserve_fields(reserve))
    }
}

impl Grows<Question> for AsQuestions {
    fn grow(&self, alloc: Global, question: &Question) -> Result<Value, AllocError> {
        grow_object(alloc, &question_fields(question))
    }
}

impl Grows<Feedback> for AsFeedback {
    fn grow(&self, alloc: Global, feedback: &Feedback) -> Result<Value, AllocError> {
        grow_object(alloc, &feedback_fields(feedback))
    }
}

impl Grows<ItemShown> for AsItems {
    fn grow(&self, alloc: Global, shown: &ItemShown) -> Result<Value, AllocError> {
        grow_object(alloc, &item_fields(&shown.item, shown.edition, shown.floor))
    }
}

impl Grows<Item> for ByEditions<'_> {
    fn grow(&self, alloc: Global, item: &Item) -> Result<Value, AllocError> {
        let edition = self.editions.edition_of(u64::from(item.terms.item));
        let floor = floor_by(self.editions, &item.terms);
        grow_object(alloc, &item_fields(item, edition, floor))
    }
}

impl Grows<Refusal> for AsRefusals {
    fn grow(&self, alloc: Global, refusal: &Refusal) -> Result<Value, AllocError> {
        match floor_reported(*refusal) {
            None => grow_object(alloc, &plain_fields(*refusal)),
            Some(floor) => grow_object(alloc, &fields_with(*refusal, floor)),
        }
    }
}

impl Grows<Line> for AsLines {
    fn grow(&self, alloc: Global, line: &Line) -> Result<Value, AllocError> {
        let day = format!(in alloc; "{}", line.day)?;
        grow_object(alloc, &line_fields(day.as_str(), line))
    }
}

// Makes a statement of these lines and totals.
fn grow_rows(alloc: Global, member: u64, rows: &[Line], totals: Totals) -> Result<Value, AllocError>
    ensures { IfOk result (λ v. view v ≡ statement_from member rows.now totals) }
{
    grow_object_around(
        alloc,
        &front_fields(totals),
        "lines",
        &AsLines,
        rows,
        &back_fields(member, totals),
    )
}

/// Makes the tree of the statement of a member for a period, made of its sales, likewise.
#[tactic(auto, using(crate::proofs::Periods::no_rows))]
pub(crate) fn grow_statement(
    alloc: Global,
    zone: &Zone,
    rate: Rate,
    member: u64,
    from: Day,
    to: Day,
    sales: &[Sold],
) -> Result<Value, AllocError>
    requires member { member < 2 ^ 32 }
    requires sales { AreSales sales.now }
    ensures { IfOk result (λ v. view v
        ≡ statement_tree (statement_of sales.now member from to zone.now rate)) }
{
    if to < from {
        return grow_rows(alloc, member, &[], Totals::of(&[]));
    }
    match lines(alloc, sales, member as u32, from, to, zone, rate.value()) {
        Ok(statement) => grow_rows(alloc, member, statement.rows(), statement.totals()),
        Err(_) => Err(AllocError),
    }
}

/// Makes the tree of a page; the days of a statement are those of the zone.
pub fn grow_page(alloc: Global, zone: &Zone, page: &Page) -> Result<Value, AllocError>
    requires { PageFits page.now }
    ensures { IfOk result (λ v. view v ≡ page_tree zone.now page.now) }
{
    match page {
        Page::Refused(refusal) => AsRefusals.grow(alloc, refusal),
        Page::House {
            counts,
            clock,
            rate,
            zone: its_zone,
        } => grow_object(
            alloc,
            &house_fields(counts, *clock, *rate, its_zone.as_str()),
        ),
        Page::Bands(bands) => grow_list(alloc, "bands", &AsBands, bands.as_slice()),
        Page::Categories(rows) => grow_list(alloc, "categories", &AsCategories, rows.as_slice()),
        Page::Items(items) => grow_list(alloc, "items", &AsItems, items.as_slice()),
        Page::OneItem(item) => AsItems.grow(alloc, item),
        Page::Questions(rows) => grow_list(alloc, "questions", &AsQuestions, rows.as_slice()),
        Page::OneMember { member, ratings } => grow_object(alloc, &rated_fields(member, ratings)),
        Page::Feedbacks(rows) => grow_list(alloc, "feedback", &AsFeedback, rows.as_slice()),
        Page::Bids(bids) => grow_list(alloc, "bids", &AsOwnBids, bids.as_slice()),
        Page::Reserves(rows) => grow_list(alloc, "reserves", &AsOwnReserves, rows.as_slice()),
        Page::Statement {
            member,
            from,
            to,
            rate,
            sales,
        } => grow_statement(alloc, zone, *rate, *member, *from, *to, sales.as_slice()),
    }
}
