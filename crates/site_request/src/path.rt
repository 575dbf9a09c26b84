//! The paths of the house.
use crate::command_path::CommandPath;

/// A path of the house, by its methods: GET for a read, POST for a command, or both. A command has 0
/// in place of each number, which a target gives.
#[derive(Clone, Copy)]
pub(crate) enum Path {
    Get(Read),
    Post(CommandPath),
    Categories,
    Bands,
}

/// What a path with GET alone is for.
#[derive(Clone, Copy)]
pub(crate) enum Read {
    House,
    BandsOf,
    ItemsIn,
    Item,
    Questions,
    Member,
    FeedbackTo,
    MyBids,
    MyReserves,
    MyWatches,
    MyQuestions,
    MyWaiting,
    MyStatement,
}
