//! Feedback, by item and giver.
ghost use Rattle.std.specs.Prelude.{◌≡◌, ◌==◌, ◌&&◌, ◌<◌, ℕ, [], false, nat_le, filter, take};
ghost use Rattle.std.specs.Prelude.{slice_index_or, vec_len, IfOk, IfErr, OnOk, OnErr};
ghost use Rattle.std.specs.List.{list_any};
ghost use Rattle.house_rows.specs.History.{put_by};
ghost use Rattle.house_rows.specs.Limits.{most_shown};
ghost use Rattle.house_rows.specs.Pages.{ratings_of};
ghost use Rattle.house_rows.specs.Ratings.{feedback_key};
ghost use Rattle.house_rows.specs.declared.fault.KeepFault.TheVariants as fault;
ghost use Rattle.list_rows.specs.Makes.{Makes};
ghost use Rattle.list_talk.specs.Rated.{unrated, with_rating};

use crate::concerns::Concerns;
use crate::lists::{push_passing, push_shown};
use house_rows::{Feedback, KeepFault, MOST_SHOWN, Rating, Ratings, Text};
use list_rows::{RowKey, block, put, row, share_text};
use std::alloc::Global;
use std::marker::Model;

const UNRATED: Ratings = Ratings {
    plus: 0,
    zero: 0,
    minus: 0,
};

/// Feedback. Clauses see the list of it, by item and giver.
#[derive(Drop)]
pub struct FeedbackTable {
    // Block n has the feedback on item n.
    blocks: Vec<Vec<Feedback>>,
    // The items on which a member was rated.
    rated: Concerns,
    // How often member n was rated; the members after the last were never.
    counts: Vec<Ratings>,
}

impl Model for FeedbackTable {
    ghost use Rattle.std.specs.Prelude.{List};
    ghost use Rattle.house_rows.specs.declared.talk.Feedback.{Feedback};
    ghost use Rattle.list_rows.specs.Blocks.{rows_of};
    ghost use Rattle.list_talk.specs.Rated.{IsFeedbackTable};

    ghost Value = { List Feedback };

    ghost view = { λ t. rows_of t.blocks.items };

    ghost invariant = { λ t. IsFeedbackTable t.blocks.items t.rated t.counts.items };
}

impl FeedbackTable {
    /// The table of no feedback.
    pub fn new(alloc: Global) -> FeedbackTable
        ensures { result ≡ [] }
    {
        FeedbackTable {
            blocks: Vec::new(alloc),
            rated: Concerns::new(alloc),
            counts: Vec::new(alloc),
        }
    }

    /// Whether a member has given feedback on an item.
    pub fn is_given(&self, item: u64, giver: u64) -> bool
        ensures { result ≡ list_any (λ f. (f.item == item) && (f.from == giver)) self.now }
    {
        row(&self.blocks, RowKey::new(item, giver, 0)).is_some()
    }

    /// How often a member was rated with each rating.
    pub fn ratings(&self, member: u64) -> Ratings
        ensures { result ≡ ratings_of self.now member }
    {
        count_of(&self.counts, member)
    }

    /// The feedback to a member, from an item on; at most fifty.
    pub fn given_to(
        &self,
        alloc: Global,
        member: u64,
        from: u64,
    ) -> Result<Vec<Feedback>, KeepFault>
        ensures value { IfOk result (λ v. v.items
            ≡ take most_shown (filter (λ f. (f.to == member) && nat_le from f.item) self.now)) }
        ensures memory { IfErr result (λ e. e ≡ fault.Memory) }
    {
        let mut found = Vec::new(alloc);
        let concerns = self.rated.of(member, from);
        for concern in concerns {
            if found.len() >= MOST_SHOWN {
                return Ok(found);
            }
            let rows = block(&self.blocks, u64::from(concern.item));
            push_shown(&mut found, rows, |row| {
                u64::from(row.to) == member && from <= u64::from(row.item)
            })?;
        }
        Ok(found)
    }

    /// All feedback.
    pub fn all(&self, alloc: Global) -> Result<Vec<Feedback>, KeepFault>
        ensures value { IfOk result (λ v. v.items ≡ self.now) }
        ensures memory { IfErr result (λ e. e ≡ fault.Memory) }
    {
        let mut found = Vec::new(alloc);
        for block in &self.blocks {
            push_passing(&mut found, block, |_| true)?;
        }
        Ok(found)
    }

    /// A party of a sale rated the other.
    pub fn give(
        &mut self,
        alloc: Global,
        item: u32,
        from: u32,
        to: u32,
        rating: Rating,
        text: &Text,
    ) -> Result<(), KeepFault>
        ensures { Makes result self.old self.new
            (put_by feedback_key (record { item = item; from = from; to = to; rating = rating; text = text.now }) self.old)
            (list_any (λ f. (f.item == item) && (f.from == from)) self.old ≡ false) }
    {
        if self.is_given(u64::from(item), u64::from(from)) {
            return Err(KeepFault::Damaged);
        }
        let Ok(text) = share_text(text) else {
            return Err(KeepFault::Memory);
        };
        let row = Feedback {
            item,
            from,
            to,
            rating,
            text,
        };
        self.add(alloc, row)
    }

    // Feedback that was not yet given.
    fn add(&mut self, alloc: Global, row: Feedback) -> Result<(), KeepFault>
        requires free { list_any (λ f. (f.item == row.item) && (f.from == row.from)) self.old ≡ false }
        ensures ok { OnOk result (self.new ≡ put_by feedback_key row self.old) }
        ensures err { OnErr result (self.new ≡ self.old) }
        ensures memory { IfErr result (λ e. e ≡ fault.Memory) }
    {
        let to = row.to;
        reach(&mut self.counts, to as usize)?;
        let count = one_more(count_of(&self.counts, u64::from(to)), row.rating)?;
        self.rated.note(alloc, to, row.item)?;
        let Ok(()) = put(alloc, &mut self.blocks, row) else {
            return Err(KeepFault::Memory);
        };
        self.counts[to as usize] = count;
        Ok(())
    }
}

// How often a member was rated.
fn count_of(counts: &[Ratings], member: u64) -> Ratings
    ensures { result ≡ slice_index_or counts.now member unrated }
{
    match counts.get(member as usize) {
        Some(count) => *count,
        None => UNRATED,
    }
}

// One more rating. A count that no number can hold counts as out of memory.
fn one_more(count: Ratings, rating: Rating) -> Result<Ratings, KeepFault>
    ensures value { IfOk result (λ r. r ≡ with_rating rating count) }
    ensures memory { IfErr result (λ e. e ≡ fault.Memory) }
{
    let Ratings { plus, zero, minus } = count;
    let counted = match rating {
        Rating::Plus => plus
            .checked_add(1)
            .map(|plus| Ratings { plus, zero, minus }),
        Rating::Zero => zero
            .checked_add(1)
            .map(|zero| Ratings { plus, zero, minus }),
        Rating::Minus => minus
            .checked_add(1)
            .map(|minus| Ratings { plus, zero, minus }),
    };
    counted.ok_or(KeepFault::Memory)
}

// Adds members that were never rated, until there is one of that number.
fn reach(counts: &mut Vec<Ratings>, member: usize) -> Result<(), KeepFault>
    ensures same { (m : ℕ) → slice_index_or counts.new.items m unrated ≡ slice_index_or counts.old.items m unrated }
    ensures there { OnOk result (member < vec_len counts.new) }
    ensures memory { IfErr result (λ e. e ≡ fault.Memory) }
{
    while counts.len() <= member {
        let Ok(()) = counts.push(UNRATED) else {
            return Err(KeepFault::Memory);
        };
    }
    Ok(())
}
