//! Responses, byte for byte.
use crate::frames::Frames;
use crate::script::MessageFault;
use crate::words::{first_word, number, spell};
use std::alloc::Global;
use wire::{
    Methods, Response, Status, WireFault, broken_frame, damaged_row, failed_store, no_memory,
};

/// The response of a line, which is also written after those before it.
pub(crate) fn response(
    alloc: Global,
    frames: &mut Frames,
    line: &str,
) -> Result<String, MessageFault> {
    let response = parse_response(line, &frames.text)?;
    response.write_into(&mut frames.written)?;
    Ok(spell(alloc, &response.to_bytes(alloc)?)?)
}

/// What comes before the body of the response of a line, and the length of all.
pub(crate) fn head(alloc: Global, body: &[u8], line: &str) -> Result<String, MessageFault> {
    let bytes = parse_response(line, body)?.to_bytes(alloc)?;
    let length = bytes.len();
    let head = spell(alloc, &bytes[..length.saturating_sub(body.len())])?;
    Ok(format!(in alloc; "{head}, {length} bytes")?)
}

// The response that a line spells, with a body.
fn parse_response<'b>(line: &str, body: &'b [u8]) -> Result<Response<'b>, MessageFault> {
    let (code, line) = first_word(line);
    let (ends, methods) = first_word(line);
    Ok(Response {
        status: status_of(code)?,
        allow: METHODS.into_iter().find(|some| some.text() == methods),
        closes: closes(ends)?,
        body,
    })
}

fn closes(word: &str) -> Result<bool, MessageFault> {
    match word {
        "closes" => Ok(true),
        "stays" => Ok(false),
        _ => Err(MessageFault::Script),
    }
}

const METHODS: [Methods; 3] = [Methods::Get, Methods::Post, Methods::GetAndPost];

const STATUSES: [Status; 11] = [
    Status::Success,
    Status::Created,
    Status::BadRequest,
    Status::Forbidden,
    Status::NotFound,
    Status::MethodNotAllowed,
    Status::Conflict,
    Status::ContentTooLarge,
    Status::InternalServerError,
    Status::NotImplemented,
    Status::ServiceUnavailable,
];

fn status_of(code: &str) -> Result<Status, MessageFault> {
    let code: u16 = number(code)?;
    let found = STATUSES.into_iter().find(|status| status.code() == code);
    found.ok_or(MessageFault::Script)
}

/// A response that takes no memory.
pub(crate) fn fixed_text(alloc: Global, line: &str) -> Result<String, MessageFault> {
    let (name, ends) = first_word(line);
    let closes = closes(ends)?;
    let bytes = match name {
        "memory" => no_memory(closes),
        "store" => failed_store(closes),
        "damaged" => damaged_row(closes),
        _ => return Err(MessageFault::Script),
    };
    Ok(spell(alloc, bytes)?)
}

const FAULTS: [WireFault; 7] = [
    WireFault::Head,
    WireFault::Host,
    WireFault::Transfer,
    WireFault::Length,
    WireFault::Size,
    WireFault::End,
    WireFault::Excess,
];

/// The fault of a number: itself, its status, its word, how it is shown, and its response.
pub(crate) fn fault(alloc: Global, word: &str) -> Result<String, MessageFault> {
    let wanted: u32 = number(word)?;
    let found = FAULTS.into_iter().find(|fault| fault.number() == wanted);
    let fault = found.ok_or(MessageFault::Script)?;
    let (status, word) = (fault.status().code(), fault.word());
    let response = spell(alloc, broken_frame(fault))?;
    Ok(format!(in alloc; "{fault:?}, {status}, {word}, {fault}, {response}")?)
}
