//! The page of a read, as a tree. The program writes text: only tests make trees.
ghost use Rattle.std.specs.Prelude.{IfOk};
ghost use Rattle.pages_text.specs.Fits.{PageFits};
ghost use Rattle.pages.specs.Promises.{GrowsPage};
ghost use Rattle.pages.specs.Showing.{IsGrown};

use crate::reading::read;
use house_rows::{Keep, Page, Query, Refusal};
use pages_text::{PageFault, grow_page};
use serde_json::Value;
use settle::Zone;
use std::alloc::{AllocError, Global};

/// Makes the tree of the page of a read, or says why it is refused. A statement goes by the zone
/// that is handed in.
pub fn page<K: Keep>(
    alloc: Global,
    keep: &mut K,
    zone: &Zone,
    caller: u64,
    query: &Query,
) -> Result<Result<Value, Refusal>, PageFault>
    ensures { GrowsPage K.Keep keep.old keep.new result zone.now caller query.now }
{
    let page = read(alloc, keep, caller, query)?;
    Ok(page_tree(alloc, zone, &page)?)
}

// The tree of a page, or why it is refused.
fn page_tree(alloc: Global, zone: &Zone, page: &Page) -> Result<Result<Value, Refusal>, AllocError>
    requires { PageFits page.now }
    ensures { IfOk result (λ report. IsGrown zone.now page.now report) }
{
    if let Page::Refused(refusal) = page {
        return Ok(Err(*refusal));
    }
    Ok(Ok(grow_page(alloc, zone, page)?))
}
