//! HTTP/1.x messages out of a stream of bytes that comes in any pieces, and the bytes of responses.
//!
//! Promised: which messages a stream holds follows from its bytes alone, however they are cut; a
//! fault is reported only where it holds whatever may follow; and a response has one text. No call
//! but `Inbox::new` and those that write a `Response` takes memory. Read `specs/Frame.antt` first,
//! which says what is at the front of a stream, and then `look` and `inbox`.
#![tactic(auto)]

mod fault;
mod fields;
mod fixed;
mod frame;
mod front;
mod head;
mod inbox;
mod known;
mod laws;
mod lines;
mod look;
mod methods;
mod request;
mod response;

pub use fault::WireFault;
pub use fixed::{broken_frame, damaged_row, failed_store, no_memory};
pub use frame::whole;
pub use inbox::{Inbox, ROOM};
pub use laws::{
    a_message_stays, every_stream_has_a_cut, every_text_has_a_frame, streams_have_one_cut,
    texts_have_one_frame,
};
pub use look::Look;
pub use methods::Methods;
pub use request::Request;
pub use response::Response;
pub use status::Status;
