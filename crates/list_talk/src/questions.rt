//! Questions and their answers, by item, asker and number.
ghost use Rattle.std.specs.Prelude.{◌≡◌, ◌==◌, ◌&&◌, ⊤, ℕ, Bool, true, [], Some, None, is_some};
ghost use Rattle.std.specs.Prelude.{nat_le, not, filter, find, map, take, IfOk, IfErr};
ghost use Rattle.std.specs.List.{AllByRecursion, list_any};
ghost use Rattle.std.specs.Option.{option_copied};
ghost use Rattle.house_rows.specs.Changed.{question_key, with_answer};
ghost use Rattle.house_rows.specs.History.{counted, put_by};
ghost use Rattle.house_rows.specs.Limits.{most_shown};
ghost use Rattle.house_rows.specs.Questions.{is_question};
ghost use Rattle.house_rows.specs.declared.fault.KeepFault.TheVariants as fault;
ghost use Rattle.list_rows.specs.Makes.{Makes};
ghost use Rattle.list_talk.specs.Sorted.{AreRisen, AreSorted};

use crate::concerns::Concerns;
use crate::lists::{push_passing, push_shown};
use house_rows::{KeepFault, MOST_SHOWN, Question, Text};
use list_rows::{Changes, RowKey, block, chosen, put, row, share_text, update};
use std::alloc::Global;
use std::marker::Model;

/// Questions. Clauses see the list of them, by item, asker and number.
#[derive(Drop)]
pub struct Questions {
    // Block n has the questions on item n.
    blocks: Vec<Vec<Question>>,
    // The items on which a member has asked.
    asked: Concerns,
}

impl Model for Questions {
    ghost use Rattle.std.specs.Prelude.{List};
    ghost use Rattle.house_rows.specs.declared.talk.Question.{Question};
    ghost use Rattle.list_rows.specs.Blocks.{rows_of};
    ghost use Rattle.list_talk.specs.Asking.{IsQuestionTable};

    ghost Value = { List Question };

    ghost view = { λ t. rows_of t.blocks.items };

    ghost invariant = { λ t. IsQuestionTable t.blocks.items t.asked };
}

// The answer to a question.
#[derive(Drop)]
struct Answer {
    text: Text,
}

impl Changes<Question> for Answer {
    ghost changed = { λ a q. record q { answer = Some a.text } };

    fn change(self, row: &mut Question) {
        let Answer { text } = self;
        row.answer = Some(text);
    }
}

impl Questions {
    /// The table of no questions.
    pub fn new(alloc: Global) -> Questions
        ensures { result ≡ [] }
    {
        Questions {
            blocks: Vec::new(alloc),
            asked: Concerns::new(alloc),
        }
    }

    /// The question of that item, asker and number.
    pub fn question(&self, item: u64, asker: u64, number: u64) -> Option<&Question>
        ensures { option_copied result ≡ find (is_question item asker number) self.now }
    {
        row(&self.blocks, RowKey::new(item, asker, number))
    }

    /// How many questions a member has asked on an item.
    pub fn count(&self, asker: u64, item: u64) -> u64
        ensures { result ≡ counted (λ q. (q.asker == asker) && (q.item == item)) self.now }
    {
        of_asker(block(&self.blocks, item), asker).len() as u64
    }

    /// The published questions on an item, from an asker on; at most fifty.
    pub fn published(&self, alloc: Global, item: u64, from: u64) -> Result<Vec<Question>, KeepFault>
        ensures value { IfOk result (λ v. v.items ≡ take most_shown (filter (λ q. (q.item == item) && nat_le from q.asker)
            (filter (λ q. is_some q.answer) self.now))) }
        ensures memory { IfErr result (λ e. e ≡ fault.Memory) }
    {
        let rows = from_asker(block(&self.blocks, item), from);
        chosen(alloc, rows, MOST_SHOWN, |row| row.answer.is_some())
    }

    /// All published questions.
    pub fn all_published(&self, alloc: Global) -> Result<Vec<Question>, KeepFault>
        ensures value { IfOk result (λ v. v.items ≡ filter (λ q. is_some q.answer) self.now) }
        ensures memory { IfErr result (λ e. e ≡ fault.Memory) }
    {
        let mut found = Vec::new(alloc);
        for block in &self.blocks {
            push_passing(&mut found, block, |row| row.answer.is_some())?;
        }
        Ok(found)
    }

    /// A member's own questions, from an item on; at most fifty.
    pub fn asked_by(
        &self,
        alloc: Global,
        member: u64,
        from: u64,
    ) -> Result<Vec<Question>, KeepFault>
        ensures value { IfOk result (λ v. v.items
            ≡ take most_shown (filter (λ q. (q.asker == member) && nat_le from q.item) self.now)) }
        ensures memory { IfErr result (λ e. e ≡ fault.Memory) }
    {
        let mut found = Vec::new(alloc);
        let concerns = self.asked.of(member, from);
        for concern in concerns {
            if found.len() >= MOST_SHOWN {
                return Ok(found);
            }
            let rows = of_asker(block(&self.blocks, u64::from(concern.item)), member);
            push_shown(&mut found, rows, |row| from <= u64::from(row.item))?;
        }
        Ok(found)
    }

    /// The questions that wait for an answer on the items that pass, where each question on an item
    /// that passes has it among the items.
    pub fn waiting_on<F: Fn(u64) -> bool + Drop>(
        &self,
        alloc: Global,
        items: &[u32],
        passes: F,
    ) -> Result<Vec<Question>, KeepFault>
        requires callable { F.IsAlwaysCallable passes }
        requires rising { AreRisen (λ (item : ℕ). item) items.now }
        ensures value { (test : ℕ → Bool) → ((item : ℕ) (answer : Bool) → F.post passes item answer → answer ≡ test item)
            → AllByRecursion (λ q. test q.item ≡ true → list_any (λ item. item == q.item) items.now ≡ true) self.now
            → IfOk result (λ v. v.items ≡ filter (λ q. not (is_some q.answer) && test q.item) self.now) }
        ensures memory { IfErr result (λ e. e ≡ fault.Memory) }
    {
        let mut found = Vec::new(alloc);
        for number in items {
            let item = u64::from(*number);
            if passes(item) {
                let rows = block(&self.blocks, item);
                push_passing(&mut found, rows, |row| row.answer.is_none())?;
            }
        }
        Ok(found)
    }

    /// The first fifty of them.
    pub fn first_waiting_on<F: Fn(u64) -> bool + Drop>(
        &self,
        alloc: Global,
        items: &[u32],
        passes: F,
    ) -> Result<Vec<Question>, KeepFault>
        requires callable { F.IsAlwaysCallable passes }
        requires rising { AreRisen (λ (item : ℕ). item) items.now }
        ensures value { (test : ℕ → Bool) → ((item : ℕ) (answer : Bool) → F.post passes item answer → answer ≡ test item)
            → AllByRecursion (λ q. test q.item ≡ true → list_any (λ item. item == q.item) items.now ≡ true) self.now
            → IfOk result (λ v. v.items ≡ take most_shown (filter (λ q. not (is_some q.answer) && test q.item) self.now)) }
        ensures memory { IfErr result (λ e. e ≡ fault.Memory) }
    {
        let mut found = Vec::new(alloc);
        for number in items {
            if found.len() >= MOST_SHOWN {
                return Ok(found);
            }
            let item = u64::from(*number);
            if passes(item) {
                let rows = block(&self.blocks, item);
                push_shown(&mut found, rows, |row| row.answer.is_none())?;
            }
        }
        Ok(found)
    }

    /// A question was asked.
    pub fn ask(
        &mut self,
        alloc: Global,
        item: u32,
        asker: u32,
        number: u32,
        text: &Text,
    ) -> Result<(), KeepFault>
        ensures { Makes result self.old self.new
            (put_by question_key (record { item = item; asker = asker; number = number; text = text.now; answer = None }) self.old)
            (find (is_question item asker number) self.old ≡ None) }
    {
        let asked = self.question(u64::from(item), u64::from(asker), u64::from(number));
        if asked.is_some() {
            return Err(KeepFault::Damaged);
        }
        let text = share_text(text)?;
        self.asked.note(alloc, asker, item)?;
        let row = Question {
            item,
            asker,
            number,
            text,
            answer: None,
        };
        put(alloc, &mut self.blocks, row)
    }

    /// A question was answered.
    pub fn answer(
        &mut self,
        item: u32,
        asker: u32,
        number: u32,
        text: &Text,
    ) -> Result<(), KeepFault>
        ensures { Makes result self.old self.new (map (with_answer item asker number text.now) self.old) ⊤ }
    {
        let text = share_text(text)?;
        let key = RowKey::new(u64::from(item), u64::from(asker), u64::from(number));
        update(&mut self.blocks, key, Answer { text });
        Ok(())
    }
}

// Of an item's questions, those from an asker on.
fn from_asker(rows: &[Question], asker: u64) -> &[Question]
    requires { AreSorted (λ q. q.asker) rows.now }
    ensures { result.now ≡ filter (λ q. nat_le asker q.asker) rows.now }
{
    &rows[rows.partition_point(|row| u64::from(row.asker) < asker)..]
}

// Of an item's questions, an asker's.
fn of_asker(rows: &[Question], asker: u64) -> &[Question]
    requires { AreSorted (λ q. q.asker) rows.now }
    ensures { result.now ≡ filter (λ q. q.asker == asker) rows.now }
{
    let rows = from_asker(rows, asker);
    &rows[..rows.partition_point(|row| u64::from(row.asker) <= asker)]
}
