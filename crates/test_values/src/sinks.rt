//! A sink in memory.
use crate::devices::Devices;
use crate::script::ValuesFault;
use crate::words::{first_word, number, optional};
use device::{MemorySink, Sink, give_all};
use std::alloc::Global;

/// The sink of a line: how many bytes it takes a call, and the call at which it fails.
pub(crate) fn sink(alloc: Global, line: &str) -> Result<MemorySink, ValuesFault> {
    let (piece, call) = first_word(line);
    let mut sink = MemorySink::new(alloc);
    if let Some(piece) = optional(piece)? {
        if piece == 0 {
            return Err(ValuesFault::Script);
        }
        sink = sink.in_pieces(piece);
    }
    if let Some(call) = optional(call)? {
        if call == 0 {
            return Err(ValuesFault::Script);
        }
        sink = sink.failing_at(call);
    }
    Ok(sink)
}

// The next bytes of the pattern after those that the sink has.
fn next(devices: &Devices, count: usize) -> &[u8] {
    let bytes = devices.pattern.as_slice();
    let rest = &bytes[devices.sink.bytes().len().min(bytes.len())..];
    &rest[..count.min(rest.len())]
}

/// What comes of giving the next bytes in a call.
pub(crate) fn give(
    alloc: Global,
    devices: &mut Devices,
    word: &str,
) -> Result<String, ValuesFault> {
    let bytes = Vec::from_slice(alloc, next(devices, number(word)?))?;
    let outcome = devices.sink.give(&bytes);
    Ok(format!(in alloc; "{outcome:?}")?)
}

/// What comes of giving the next bytes in as many calls as are needed.
pub(crate) fn all(alloc: Global, devices: &mut Devices, word: &str) -> Result<String, ValuesFault> {
    let bytes = Vec::from_slice(alloc, next(devices, number(word)?))?;
    let outcome = give_all(&mut devices.sink, &bytes);
    Ok(format!(in alloc; "{outcome:?}")?)
}

/// What comes of a flush.
pub(crate) fn flush(alloc: Global, sink: &mut MemorySink) -> Result<String, ValuesFault> {
    let outcome = sink.flush();
    Ok(format!(in alloc; "{outcome:?}")?)
}
