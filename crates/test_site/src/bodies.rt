//! What is shown as text, where the tree of the other body has the same.
use crate::fault::SiteFault;
use house_rows::{Keep, Query};
use pages::{page, show};
use pages_json::{Grows, append};
use pages_record::{append_record, record};
use pages_text::AsRefusals;
use serde_json::Value;
use settle::Zone;
use std::alloc::Global;

// A text, where a tree has the same.
fn same(alloc: Global, text: Vec<u8>, tree: &Value) -> Result<Vec<u8>, SiteFault> {
    if tree.to_vec(alloc)? == text {
        Ok(text)
    } else {
        Err(SiteFault::Apart)
    }
}

// Appends what a read shows, or why it is refused.
fn append_page<K: Keep>(
    alloc: Global,
    keep: &mut K,
    zone: &Zone,
    caller: u64,
    query: &Query,
    text: &mut Vec<u8>,
) -> Result<(), SiteFault> {
    match show(alloc, keep, zone, caller, query, text)? {
        Ok(()) => Ok(()),
        Err(refusal) => Ok(append(alloc, text, &AsRefusals, &refusal)?),
    }
}

// The tree of what a read shows, or of why it is refused.
fn grow_page<K: Keep>(
    alloc: Global,
    keep: &mut K,
    zone: &Zone,
    caller: u64,
    query: &Query,
) -> Result<Value, SiteFault> {
    match page(alloc, keep, zone, caller, query)? {
        Ok(tree) => Ok(tree),
        Err(refusal) => Ok(AsRefusals.grow(alloc, &refusal)?),
    }
}

/// What a read shows, or why it is refused.
pub(crate) fn page_text<K: Keep>(
    alloc: Global,
    keep: &mut K,
    zone: &Zone,
    caller: u64,
    query: &Query,
) -> Result<Vec<u8>, SiteFault> {
    let mut text = Vec::new(alloc);
    append_page(alloc, keep, zone, caller, query, &mut text)?;
    let tree = grow_page(alloc, keep, zone, caller, query)?;
    same(alloc, text, &tree)
}

/// The public record.
pub(crate) fn record_text<K: Keep>(alloc: Global, keep: &mut K) -> Result<Vec<u8>, SiteFault> {
    let mut text = Vec::new(alloc);
    append_record(alloc, keep, &mut text)?;
    let tree = record(alloc, keep)?;
    same(alloc, text, &tree)
}
