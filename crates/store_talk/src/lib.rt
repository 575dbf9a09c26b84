//! Questions with their answers, and feedback, in SQLite.
//!
//! Promised: each look-up and list answers what the house's definitions find in the tables that the
//! database holds, and a question, an answer and feedback are made whole, each in one transaction that
//! commits before the call answers Ok, or not at all. Read `questions` first, then `new_question`.
//!
//! Not promised: when an error is `Memory` or `Store`, either of which may come in place of `Damaged`.
#![tactic(auto)]

mod answers;
mod ask_counts;
mod feedback;
mod feedback_list;
mod feedback_pages;
mod given;
mod listed;
mod new_feedback;
mod new_question;
mod question_lists;
mod question_pages;
mod questions;
mod rated;
mod waiting_questions;

pub use answers::answer;
pub use ask_counts::ask_count;
pub use feedback_list::all_feedback;
pub use feedback_pages::feedback_to;
pub use given::is_given;
pub use new_feedback::give_feedback;
pub use new_question::ask;
pub use question_lists::all_published;
pub use question_pages::{published_on, questions_of};
pub use questions::question_at;
pub use rated::ratings;
pub use waiting_questions::{first_waiting, waiting_for};
