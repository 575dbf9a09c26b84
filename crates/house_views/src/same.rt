//! Whether two rows are the same, and two lists of them.
ghost use Rattle.std.specs.Prelude.{◌≡◌, ◌↔◌, true};

use house_rows::{Category, Edition, Feedback, Item, Member, Question, Terms, Text};

/// Values that can be compared as clauses see them.
pub trait Same {
    /// Whether it is the same as another.
    fn is_same(&self, other: &Self) -> bool
        ensures { (result ≡ true) ↔ (self.now ≡ other.now) };
}

impl Same for (u64, u64) {
    fn is_same(&self, other: &(u64, u64)) -> bool {
        self.0 == other.0 && self.1 == other.1
    }
}

impl Same for Text {
    fn is_same(&self, other: &Text) -> bool {
        self.as_str() == other.as_str()
    }
}

impl Same for Member {
    fn is_same(&self, other: &Member) -> bool {
        self.member == other.member && self.name.is_same(&other.name)
    }
}

impl Same for Category {
    fn is_same(&self, other: &Category) -> bool {
        self.category == other.category && self.name.is_same(&other.name)
    }
}

impl Same for Edition {
    fn is_same(&self, other: &Edition) -> bool {
        self.edition == other.edition
            && self.first == other.first
            && are_same(self.bands.rows(), other.bands.rows())
    }
}

// Whether two items are offered alike. The fields are parted, since the prover looks at an option on
// both sides.
fn are_offered_alike(left: &Terms, right: &Terms) -> bool
    ensures { (result ≡ true) ↔ ((left.now.item ≡ right.now.item)
        × (left.now.seller ≡ right.now.seller)
        × (left.now.category ≡ right.now.category)
        × (left.now.start ≡ right.now.start)
        × (left.now.buy_now ≡ right.now.buy_now)
        × (left.now.end ≡ right.now.end)) }
{
    left.item == right.item
        && left.seller == right.seller
        && left.category == right.category
        && left.start == right.start
        && left.buy_now == right.buy_now
        && left.end == right.end
}

// Whether they are open or closed alike.
fn are_closed_alike(left: &Terms, right: &Terms) -> bool
    ensures { (result ≡ true) ↔ ((left.now.state ≡ right.now.state)
        × (left.now.closed ≡ right.now.closed)
        × (left.now.price ≡ right.now.price)) }
{
    left.state == right.state && left.closed == right.closed && left.price == right.price
}

// Whether their bids are alike.
fn are_led_alike(left: &Terms, right: &Terms) -> bool
    ensures { (result ≡ true) ↔ ((left.now.leader ≡ right.now.leader)
        × (left.now.count ≡ right.now.count)
        × (left.now.met ≡ right.now.met)) }
{
    left.leader == right.leader && left.count == right.count && left.met == right.met
}

impl Same for Terms {
    fn is_same(&self, other: &Terms) -> bool {
        are_offered_alike(self, other)
            && are_closed_alike(self, other)
            && are_led_alike(self, other)
    }
}

impl Same for Item {
    fn is_same(&self, other: &Item) -> bool {
        self.terms.is_same(&other.terms)
            && self.lot.is_same(&other.lot)
            && self.title.is_same(&other.title)
            && self.text.is_same(&other.text)
    }
}

// Whether both are there and the same, or neither is there.
fn is_same_answer(left: &Option<Text>, right: &Option<Text>) -> bool
    ensures { (result ≡ true) ↔ (left.now ≡ right.now) }
{
    match (left, right) {
        (Some(left), Some(right)) => left.is_same(right),
        (None, None) => true,
        _ => false,
    }
}

impl Same for Question {
    fn is_same(&self, other: &Question) -> bool {
        self.item == other.item
            && self.asker == other.asker
            && self.number == other.number
            && self.text.is_same(&other.text)
            && is_same_answer(&self.answer, &other.answer)
    }
}

impl Same for Feedback {
    fn is_same(&self, other: &Feedback) -> bool {
        self.item == other.item
            && self.from == other.from
            && self.to == other.to
            && self.rating == other.rating
            && self.text.is_same(&other.text)
    }
}

/// Whether two lists have the same rows in the same order.
pub fn are_same<T: Same>(left: &[T], right: &[T]) -> bool
    ensures { (result ≡ true) ↔ (left.now ≡ right.now) }
{
    if left.len() != right.len() {
        return false;
    }
    for (place, row) in left.iter().enumerate() {
        if !row.is_same(&right[place]) {
            return false;
        }
    }
    true
}
