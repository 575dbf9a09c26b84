//! How the rows of a house are printed. `-` stands for what there is none of.
use crate::fault::ScriptFault;
use cents::Cents;
use house_rows::{
    Category, Counts, Due, Feedback, Item, KeepFault, Member, OwnBest, OwnBid, OwnReserve,
    Question, Rating, Ratings, Terms, Text,
};
use proxy::Standing;
use settle::Sold;
use std::alloc::{AllocError, Global};
use std::fmt;
use std::fmt::Write;

/// What is printed in a line.
pub(crate) trait Shown {
    /// Adds it to a line.
    fn show(&self, line: &mut String) -> Result<(), AllocError>;
}

/// The line of what a keep answers.
pub(crate) fn line<T: Shown + Drop>(
    alloc: Global,
    answer: Result<T, KeepFault>,
) -> Result<String, ScriptFault> {
    let answer = answer?;
    let mut line = String::new(alloc);
    match answer.show(&mut line) {
        Ok(()) => Ok(line),
        Err(_) => Err(ScriptFault::Memory),
    }
}

impl<T: Shown> Shown for Option<T> {
    fn show(&self, line: &mut String) -> Result<(), AllocError> {
        match self {
            Some(row) => row.show(line),
            None => line.push('-'),
        }
    }
}

/// Rows are parted by `; `.
impl<T: Shown> Shown for Vec<T> {
    fn show(&self, line: &mut String) -> Result<(), AllocError> {
        for row in self {
            if !line.is_empty() {
                line.push_str("; ")?;
            }
            row.show(line)?;
        }
        if line.is_empty() {
            line.push('-')?;
        }
        Ok(())
    }
}

// What there may be none of.
#[derive(Drop)]
struct OrDash<T>(Option<T>);

impl<T: fmt::Display> fmt::Display for OrDash<T> {
    fn fmt<W: fmt::Write>(&self, f: &mut fmt::Formatter<W>) -> fmt::Result {
        match &self.0 {
            Some(value) => write!(f, "{value}"),
            None => write!(f, "-"),
        }
    }
}

// An amount in cents, which may be none.
fn amount(amount: Option<Cents>) -> OrDash<u64> {
    match amount {
        Some(amount) => OrDash(Some(amount.value())),
        None => OrDash(None),
    }
}

// A text, which may be empty.
fn text(text: &Text) -> OrDash<&str> {
    match text.as_str() {
        "" => OrDash(None),
        text => OrDash(Some(text)),
    }
}

impl Shown for u64 {
    fn show(&self, line: &mut String) -> Result<(), AllocError> {
        write!(line, "{self}")
    }
}

impl Shown for u32 {
    fn show(&self, line: &mut String) -> Result<(), AllocError> {
        write!(line, "{self}")
    }
}

/// A row of a band table.
impl Shown for (u64, u64) {
    fn show(&self, line: &mut String) -> Result<(), AllocError> {
        let (at, step) = *self;
        write!(line, "at {at} step {step}")
    }
}

impl Shown for bool {
    fn show(&self, line: &mut String) -> Result<(), AllocError> {
        write!(line, "{self}")
    }
}

impl Shown for Counts {
    fn show(&self, line: &mut String) -> Result<(), AllocError> {
        let (members, categories, items) = (self.members, self.categories, self.items);
        write!(
            line,
            "members {members}, categories {categories}, items {items}"
        )
    }
}

impl Shown for Member {
    fn show(&self, line: &mut String) -> Result<(), AllocError> {
        line.push_str(self.name.as_str())
    }
}

impl Shown for Category {
    fn show(&self, line: &mut String) -> Result<(), AllocError> {
        line.push_str(self.name.as_str())
    }
}

/// An item of a list, by its number.
impl Shown for Item {
    fn show(&self, line: &mut String) -> Result<(), AllocError> {
        self.terms.item.show(line)
    }
}

/// An item with its texts, but without its standing.
#[derive(Drop)]
pub(crate) struct Listing(pub(crate) Item);

impl Shown for Listing {
    fn show(&self, line: &mut String) -> Result<(), AllocError> {
        let item = &self.0;
        let terms = &item.terms;
        let buy_now = amount(terms.buy_now);
        let (lot, title, text) = (item.lot.as_str(), item.title.as_str(), text(&item.text));
        let (number, seller, category) = (terms.item, terms.seller, terms.category);
        let (start, end) = (terms.start.value(), terms.end);
        write!(
            line,
            "item {number}, seller {seller}, category {category}, {lot}, {title}, {text}, start \
            {start}, buy_now {buy_now}, end {end}"
        )
    }
}

/// The standing of an item, as everybody sees it.
impl Shown for Terms {
    fn show(&self, line: &mut String) -> Result<(), AllocError> {
        let (state, price, count) = (self.state.name(), self.price.value(), self.count);
        let (leader, closed) = (OrDash(self.leader), OrDash(self.closed));
        write!(
            line,
            "{state}, price {price}, leader {leader}, count {count}, closed {closed}"
        )?;
        match self.met {
            Some(met) => write!(line, ", met {met}"),
            None => Ok(()),
        }
    }
}

/// A standing, and its floor in cents.
#[derive(Drop)]
pub(crate) struct StandingRow {
    pub(crate) standing: Standing,
    pub(crate) floor: u64,
}

impl Shown for StandingRow {
    fn show(&self, line: &mut String) -> Result<(), AllocError> {
        let (standing, floor) = (&self.standing, self.floor);
        let (price, count) = (standing.price().value(), standing.count());
        let (top, second) = (amount(standing.top()), amount(standing.second()));
        let leader = OrDash(standing.leader());
        write!(
            line,
            "price {price}, leader {leader}, top {top}, second {second}, count {count}, floor {floor}"
        )
    }
}

impl Shown for Cents {
    fn show(&self, line: &mut String) -> Result<(), AllocError> {
        self.value().show(line)
    }
}

impl Shown for OwnReserve {
    fn show(&self, line: &mut String) -> Result<(), AllocError> {
        let (item, reserve, met) = (self.item, self.reserve.value(), self.met);
        write!(line, "item {item}, reserve {reserve}, met {met}")
    }
}

impl Shown for Due {
    fn show(&self, line: &mut String) -> Result<(), AllocError> {
        let (sold, unsold) = (self.sold, self.unsold);
        write!(line, "sold {sold}, unsold {unsold}")
    }
}

impl Shown for OwnBest {
    fn show(&self, line: &mut String) -> Result<(), AllocError> {
        let (maximum, mine) = (self.maximum.value(), self.mine);
        write!(line, "maximum {maximum}, mine {mine}")
    }
}

impl Shown for OwnBid {
    fn show(&self, line: &mut String) -> Result<(), AllocError> {
        let rank = if self.leading { "leading" } else { "behind" };
        let (item, maximum, mine) = (self.item, self.maximum.value(), self.mine);
        let (price, state) = (self.price.value(), self.state.name());
        write!(
            line,
            "item {item}, {rank}, maximum {maximum}, mine {mine}, price {price}, {state}"
        )
    }
}

impl Shown for Question {
    fn show(&self, line: &mut String) -> Result<(), AllocError> {
        let (item, asker, number) = (self.item, self.asker, self.number);
        let asked = self.text.as_str();
        let answer = match &self.answer {
            Some(answer) => text(answer),
            None => OrDash(None),
        };
        write!(
            line,
            "item {item}, asker {asker}, number {number}, {asked}, {answer}"
        )
    }
}

impl Shown for Ratings {
    fn show(&self, line: &mut String) -> Result<(), AllocError> {
        let (plus, zero, minus) = (self.plus, self.zero, self.minus);
        write!(line, "plus {plus}, zero {zero}, minus {minus}")
    }
}

impl Shown for Feedback {
    fn show(&self, line: &mut String) -> Result<(), AllocError> {
        let rating = match self.rating {
            Rating::Minus => "-1",
            Rating::Zero => "0",
            Rating::Plus => "1",
        };
        let (item, from, to, text) = (self.item, self.from, self.to, text(&self.text));
        write!(line, "item {item}, from {from} to {to}, {rating}, {text}")
    }
}

impl Shown for Sold {
    fn show(&self, line: &mut String) -> Result<(), AllocError> {
        let (item, seller, buyer) = (self.item, self.seller, self.buyer);
        let (closed, price) = (self.closed, self.price.value());
        write!(
            line,
            "item {item}, seller {seller}, buyer {buyer}, closed {closed}, price {price}"
        )
    }
}
