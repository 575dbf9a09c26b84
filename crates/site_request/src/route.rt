//! What a message asks for, as far as its method and its target say.
use crate::command_path::CommandPath;
use crate::segment::Segment;
use house_rows::Query;

/// What a message asks for, as far as its method and its target say, with the numbers that are in
/// the target.
#[derive(Drop)]
pub enum Route<'t> {
    /// A command, whose fields are in the body.
    Post(CommandPath),
    /// A read.
    Read(Query),
    /// The statement of the caller's sales and purchases in a period, whose days aren't judged yet.
    Statement {
        /// What is in the place of the first day: at least one byte, a date or not.
        from: Segment<'t>,
        /// What is in the place of the last day.
        to: Segment<'t>,
    },
}
