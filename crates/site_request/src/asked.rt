//! What a message asks, with what else its reply needs.
use crate::fault::RequestFault;
use house_rows::Message;

/// What a message asks, and the one thing beside it that its reply shows.
#[derive(Drop)]
pub struct Asked {
    /// Whether the connection ends after the reply.
    pub closes: bool,
    /// What is asked.
    pub message: Message<RequestFault>,
}

/// Memory was refused while a message was read.
#[derive(Clone, Copy)]
pub struct NoMemory {
    /// Whether the connection ends after the reply.
    pub closes: bool,
}
