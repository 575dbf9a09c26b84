//! What members say to each other: questions with their answers, and feedback.
use crate::rating::Rating;
use crate::text::Text;

/// A question on an item.
#[derive(Drop)]
pub struct Question {
    /// The number of the item.
    pub item: u32,
    /// The number of the member that asks.
    pub asker: u32,
    /// The number among this asker's questions on this item, from 1 to 20.
    pub number: u32,
    /// The question, of 1 to 500 bytes.
    pub text: Text,
    /// The seller's answer, of 1 to 500 bytes; none while the question waits.
    pub answer: Option<Text>,
}

/// What a party of a sale says of the other.
#[derive(Drop)]
pub struct Feedback {
    /// The number of the item.
    pub item: u32,
    /// The number of the member that rates.
    pub from: u32,
    /// The number of the member that is rated.
    pub to: u32,
    /// The rating.
    pub rating: Rating,
    /// The text, of at most 200 bytes.
    pub text: Text,
}
