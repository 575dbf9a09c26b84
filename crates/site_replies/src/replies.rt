//! Writing replies.
ghost use Rattle.std.specs.Prelude.{◌≡◌, ◌++◌, IfErr, OnErr, OnOk};
ghost use Rattle.house_rows.specs.declared.fault.KeepFault.TheVariants.{Memory};
ghost use Rattle.site_replies.specs.Texts.{ReplyFits, reply_of, reply_text, page_status, result_status};

use crate::reply_ref::ReplyRef;
use house_rows::{CommandResult, KeepFault, Page};
use pages_json::append;
use pages_text::{AsCommandResult, AsRefusals, append_page};
use settle::Zone;
use std::alloc::Global;
use wire::{Response, Status};

/// Writes replies: the zone by which it counts days, and a kept buffer for the body, whose length
/// is written before it.
#[derive(Drop)]
pub struct ReplyWriter {
    alloc: Global,
    zone: Zone,
    body: Vec<u8>,
}

impl ReplyWriter {
    /// A writer that counts days in a zone.
    pub fn new(alloc: Global, zone: Zone) -> ReplyWriter
        ensures zone { result.zone ≡ zone }
    {
        ReplyWriter {
            alloc,
            zone,
            body: Vec::new(alloc),
        }
    }

    /// Appends the bytes of a reply; `closes` says whether the connection ends after it. The only
    /// fault is to be out of memory. After an `Err` the buffer has what it had.
    #[tactic(auto, unfolding(crate::specs::Texts::reply_text))]
    pub fn write(
        &mut self,
        closes: bool,
        reply: ReplyRef<'_>,
        out: &mut Vec<u8>,
    ) -> Result<(), KeepFault>
        requires { ReplyFits (reply_of reply) }
        ensures ok { OnOk result (out.new.items
            ≡ out.old.items ++ reply_text self.old.zone closes (reply_of reply.entry)) }
        ensures err { OnErr result (out.new.items ≡ out.old.items) }
        ensures memory { IfErr result (λ fault. fault ≡ Memory) }
        ensures zone { self.new.zone ≡ self.old.zone }
    {
        self.body.clear();
        let status = match reply {
            ReplyRef::Done(report) => {
                append(self.alloc, &mut self.body, &AsCommandResult, report)?;
                result_status(report)
            }
            ReplyRef::Denied(refusal) => {
                append(self.alloc, &mut self.body, &AsRefusals, &refusal)?;
                refusal.status()
            }
            ReplyRef::Shows(page) => {
                append_page(self.alloc, &mut self.body, &self.zone, page)?;
                page_status(page)
            }
            // Its body is at hand, so it isn't copied into the kept buffer.
            ReplyRef::Faulty(fault) => return Ok(fault.response(closes).write_into(out)?),
        };
        let response = Response {
            status,
            allow: None,
            closes,
            body: self.body.as_slice(),
        };
        Ok(response.write_into(out)?)
    }
}

/// The status of the result of an accepted command: `Created` where it made a row, and
/// `Success` where it only changed rows.
pub(crate) fn result_status(report: &CommandResult) -> Status
    ensures { result ≡ result_status report.now }
{
    match report {
        CommandResult::Closed { .. }
        | CommandResult::Settlement { .. }
        | CommandResult::Watched { .. } => Status::Success,
        _ => Status::Created,
    }
}

/// The status of a page: `Success`, or that of the refusal.
pub(crate) fn page_status(page: &Page) -> Status
    ensures { result ≡ page_status page.now }
{
    match page {
        Page::Refused(refusal) => refusal.status(),
        _ => Status::Success,
    }
}
