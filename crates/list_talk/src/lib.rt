//! What members say to each other, in memory: questions with their answers, and feedback.
//!
//! Promised: a `Questions` is the plain list of questions and a `FeedbackTable` that of feedback, each
//! in the order of its keys. Read `questions` and `feedback`, and then `concerns`, which has each
//! member's items.
//!
//! A call goes over the items that it names or that its member is concerned with, and no further
//! once fifty rows are shown; `all` and `all_published` go over every row. No clause says so.
#![tactic(auto)]

mod concerns;
mod feedback;
mod lists;
mod questions;

pub use feedback::FeedbackTable;
pub use questions::Questions;
