//! What the reply to an order says.
ghost use Rattle.std.specs.Prelude.{◌≡◌, false, IfErr, IfOk};
ghost use Rattle.site_replies.specs.Texts.{fault_text};
ghost use Rattle.office.specs.Outcomes.{Tells};

use house_rows::KeepFault;
use site_replies::fault_text;

// The reply where the seller has an item with the code.
const THERE: &[u8] = b"HTTP/1.1 409 Conflict\r\ncontent-type: application/json\r\n\
    content-length: 33\r\n\r\n{\"error\":\"LotExists\",\"number\":13}";

/// What became of a row of a lot file.
#[derive(Clone, Copy)]
pub enum Outcome {
    /// Its item was listed.
    Listed,
    /// Its seller has an item with this code.
    There,
    /// It can't be read, or was refused for another cause.
    Refused,
}

/// What a reply says of the order that it is to. An error is one of memory or of the keep.
pub fn outcome_of(reply: &[u8]) -> Result<Outcome, KeepFault>
    ensures report { IfOk result (Tells reply.now) }
    ensures fault { IfErr result (λ fault. reply.now ≡ fault_text fault false) }
{
    if reply.starts_with(b"HTTP/1.1 201 ") {
        return Ok(Outcome::Listed);
    }
    if reply == THERE {
        return Ok(Outcome::There);
    }
    if reply == fault_text(KeepFault::Memory, false) {
        return Err(KeepFault::Memory);
    }
    if reply == fault_text(KeepFault::Store, false) {
        return Err(KeepFault::Store);
    }
    if reply == fault_text(KeepFault::Damaged, false) {
        return Err(KeepFault::Damaged);
    }
    Ok(Outcome::Refused)
}
