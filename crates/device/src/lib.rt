//! Where bytes come from and where they go.
//!
//! Promised: a call says how many bytes moved, in their order and none twice, and answers `Failure`
//! exactly where the device is failed as the call ends; a device that failed stays failed. A flush
//! that goes well hands on all that was taken. No call but a `MemorySink`'s takes memory. Read
//! `source` and `sink` first, the two traits, and then `std_writer`, which gathers what it is given.
#![tactic(auto)]

mod calls;
mod failure;
mod memory_sink;
mod memory_source;
mod reading;
mod room;
mod sink;
mod source;
mod std_writer;

pub use failure::Failure;
pub use memory_sink::MemorySink;
pub use memory_source::MemorySource;
pub use reading::Reading;
pub use sink::{Sink, give_all};
pub use source::Source;
pub use std_writer::Writing;
