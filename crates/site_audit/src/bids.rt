//! A bid in a list of messages, and the list in which it is raised.
ghost use Rattle.std.specs.Prelude.{◌≡◌, ◌↔◌, ◌≤◌, List, true, IfOk, IfSome, IfErr, map, length};
ghost use Rattle.std.specs.List.{AllZip};
ghost use Rattle.house_laws.specs.Covered.{raised};
ghost use Rattle.site_request.specs.Asked.{IsAsked};
ghost use Rattle.site_request.specs.declared.asked.Asked.{Asked as TheAsked};
ghost use Rattle.site_audit.specs.Places.{Heard, IsHeard};
ghost use Rattle.site_audit.specs.SealedBids.{IsBidFound, IsBidRead, sealed_in};
ghost use Rattle.site_bids.specs.Spelt.{IsSent, bid_text};

use crate::fault::AuditFault;
use house_rows::{Command, Message};
use json::Scratch;
use settle::LAST_MOMENT;
use site_request::{RequestFault, Routes, read};
use std::alloc::{AllocError, Global};
use std::marker::Model;

/// A bid, as its message says it. Clauses see it as a `Sealed`.
#[derive(Clone, Copy)]
pub(crate) struct SealedBid {
    /// When, in whole seconds since 1970-01-01T00:00:00Z.
    pub(crate) moment: u64,
    /// Who bids.
    pub(crate) member: u64,
    /// On which item.
    pub(crate) item: u64,
    /// The sealed maximum, in cents.
    pub(crate) maximum: u64,
}

impl Model for SealedBid {
    ghost use Rattle.house_laws.specs.Covered.{Sealed};

    ghost Value = { Sealed };

    ghost view = { λ b. record { moment = b.moment; member = b.member; item = b.item; maximum = b.maximum } };

    ghost inverse = { λ b. record { moment = b.moment; member = b.member; item = b.item; maximum = b.maximum } };
}

// The bid of a message, if it is one.
fn bid_in(message: &Message<RequestFault>) -> Option<SealedBid>
    ensures { result ≡ sealed_in message.now }
{
    match message {
        Message::Write {
            moment,
            caller,
            command: Command::Bid { item, maximum },
        } => Some(SealedBid {
            moment: *moment,
            member: *caller,
            item: *item,
            maximum: *maximum,
        }),
        _ => None,
    }
}

// The bid that a text asks for, if it asks for one.
fn read_bid(alloc: Global, text: &[u8]) -> Result<Option<SealedBid>, AuditFault>
    ensures read { (asked : TheAsked) → IsAsked text.now asked → IsBidRead asked.message result }
    ensures err { IfErr result (λ fault. fault ≡ AuditFault.Memory) }
{
    let routes = match Routes::new(alloc) {
        Ok(routes) => routes,
        Err(_) => return Err(AuditFault::Memory),
    };
    let mut scratch = Scratch::new(alloc);
    match read(alloc, &routes, text, &mut scratch) {
        Ok(asked) => Ok(bid_in(&asked.message)),
        Err(_) => Err(AuditFault::Memory),
    }
}

/// The bid in a place of a list, which is counted from 1, if one is there.
pub(crate) fn bid_at(
    alloc: Global,
    messages: &[Vec<u8>],
    place: u64,
) -> Result<Option<SealedBid>, AuditFault>
    ensures found { (heards : List Heard) → AllZip IsHeard (map (λ m. m.items) messages.now) heards
        → IsBidFound place heards result }
    ensures there { IfOk result (λ bid. IfSome bid (λ _. (1 ≤ place) × (place ≤ length messages.now))) }
    ensures err { IfErr result (λ fault. fault ≡ AuditFault.Memory) }
{
    if place == 0 {
        return Ok(None);
    }
    match messages.get((place - 1) as usize) {
        Some(text) => read_bid(alloc, text),
        None => Ok(None),
    }
}

// Numbers of ten digits are below this.
const TEN_DIGITS: u64 = 10_000_000_000;

/// Whether the numbers of a bid can be sent.
pub(crate) fn can_send(bid: SealedBid) -> bool
    ensures { (result ≡ true) ↔ IsSent bid }
{
    1 <= bid.item
        && bid.item < TEN_DIGITS
        && bid.member < TEN_DIGITS
        && bid.moment <= LAST_MOMENT
        && 1 <= bid.maximum
        && bid.maximum < TEN_DIGITS
}

// The text of a bid.
fn spell_bid(alloc: Global, bid: SealedBid) -> Result<Vec<u8>, AllocError>
    ensures { IfOk result (λ text. text.items ≡ bid_text bid) }
{
    let body = format!(in alloc; "{{\"maximum\":{}}}", bid.maximum)?;
    let text = format!(in alloc;
        "POST /items/{}/bids HTTP/1.1\r\nhost: h\r\nx-member: {}\r\nx-moment: {}\r\ncontent-length: {}\r\n\r\n{}",
        bid.item,
        bid.member,
        bid.moment,
        body.as_bytes().len(),
        body
    )?;
    Ok(text.into_bytes())
}

// A list with another text in a place, which is counted from 1.
fn with_text(
    alloc: Global,
    messages: &[Vec<u8>],
    place: u64,
    text: Vec<u8>,
) -> Result<Vec<Vec<u8>>, AllocError>
    requires place { (1 ≤ place) × (place ≤ length messages.now) }
    ensures { IfOk result (λ list. map (λ m. m.items) list.items
        ≡ raised place text.items (map (λ m. m.items) messages.now)) }
{
    let mut list = messages.to_vec(alloc)?;
    list[(place - 1) as usize] = text;
    Ok(list)
}

/// A list in which the bid in a place, which is counted from 1, is another.
pub(crate) fn list_with(
    alloc: Global,
    messages: &[Vec<u8>],
    place: u64,
    bid: SealedBid,
) -> Result<Vec<Vec<u8>>, AuditFault>
    requires place { (1 ≤ place) × (place ≤ length messages.now) }
    ensures list { IfOk result (λ list. map (λ m. m.items) list.items
        ≡ raised place (bid_text bid) (map (λ m. m.items) messages.now)) }
    ensures err { IfErr result (λ fault. fault ≡ AuditFault.Memory) }
{
    let text = match spell_bid(alloc, bid) {
        Ok(text) => text,
        Err(_) => return Err(AuditFault::Memory),
    };
    match with_text(alloc, messages, place, text) {
        Ok(list) => Ok(list),
        Err(_) => Err(AuditFault::Memory),
    }
}
