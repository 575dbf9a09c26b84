//! The page of a read, as text.
ghost use Rattle.std.specs.Prelude.{◌≡◌, IfOk, OnErr, OnOk};
ghost use Rattle.pages_text.specs.Fits.{PageFits};
ghost use Rattle.pages.specs.Promises.{ShowsPage};
ghost use Rattle.pages.specs.Showing.{BeginsWith, IsReported};

use crate::reading::read;
use house_rows::{Keep, KeepFault, Page, Query, Refusal};
use pages_text::append_page;
use settle::Zone;
use std::alloc::{AllocError, Global};

/// Appends the page of a read to a buffer, or says why it is refused. A statement goes by the
/// zone that is handed in. The buffer keeps what it had; after an `Err`, and where the read is refused,
/// it has nothing else.
pub fn show<K: Keep>(
    alloc: Global,
    keep: &mut K,
    zone: &Zone,
    caller: u64,
    query: &Query,
    out: &mut Vec<u8>,
) -> Result<Result<(), Refusal>, KeepFault>
    ensures { ShowsPage K.Keep keep.old keep.new result zone.now caller query.now
        out.old.items out.new.items }
{
    let page = read(alloc, keep, caller, query)?;
    match show_page(alloc, zone, &page, out) {
        Ok(report) => Ok(report),
        Err(_) => Err(KeepFault::Memory),
    }
}

// Appends a page to a buffer, or says why it is refused.
#[tactic(auto, using(crate::proofs::Fronts::begins))]
fn show_page(
    alloc: Global,
    zone: &Zone,
    page: &Page,
    out: &mut Vec<u8>,
) -> Result<Result<(), Refusal>, AllocError>
    requires { PageFits page.now }
    ensures shown { IfOk result (λ report.
        IsReported zone.now page.now report out.old.items out.new.items) }
    ensures err { OnErr result (out.new.items ≡ out.old.items) }
    ensures refused { IfOk result (λ report. OnErr report (out.new.items ≡ out.old.items)) }
    ensures front { IfOk result (λ report. OnOk report (BeginsWith out.old.items out.new.items)) }
{
    if let Page::Refused(refusal) = page {
        return Ok(Err(*refusal));
    }
    append_page(alloc, out, zone, page)?;
    Ok(Ok(()))
}
