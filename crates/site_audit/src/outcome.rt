//! What is found of a surplus.
use site::Reply;

/// Whether a surplus is hidden from another.
#[derive(Drop)]
pub enum Surplus {
    /// The bid in the place is covered: to the other it is the same whether it is raised or not.
    Same {
        /// The replies to the other, in turn, which are the same in both runs.
        replies: Vec<Reply>,
    },
    /// No covered bid is in the place.
    NotCovered,
}
