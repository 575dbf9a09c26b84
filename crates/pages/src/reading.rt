//! The page of a read, by the tables of a keep.
ghost use Rattle.std.specs.Prelude.{◌≡◌, ◌<◌, ◌^◌, IsTrue};
ghost use Rattle.pages_laws.specs.ByTables.{is_own, may_read, page_by, shown_by};
ghost use Rattle.house_rows.specs.Taken.{IsUndamaged};
ghost use Rattle.pages.specs.Promises.{MakesPage, ReadsPage};
ghost use Rattle.pages.specs.Taken.{ReadRowsFit};

use crate::bidding::{bids, reserves, statement};
use crate::items::{item, items_in, watches};
use crate::people::{categories, feedback_to, member};
use crate::settings::{bands, bands_of, house};
use crate::talk::{published, questions, waiting};
use house_rows::{Keep, KeepFault, Page, Query, Refusal};
use std::alloc::Global;

/// What a read shows, or that it is refused.
#[tactic(auto, using(pages_laws::proofs::Same::page_same))]
pub fn read<K: Keep>(
    alloc: Global,
    keep: &mut K,
    caller: u64,
    query: &Query,
) -> Result<Page, KeepFault>
    ensures { ReadsPage K.Keep keep.old keep.new result caller query.now }
{
    read_tables(alloc, keep, caller, query)
}

// The same by the tables. A read that is refused takes no rows.
#[tactic(auto, unfolding(pages_laws::specs::ByTables::page_by))]
fn read_tables<K: Keep>(
    alloc: Global,
    keep: &mut K,
    caller: u64,
    query: &Query,
) -> Result<Page, KeepFault>
    ensures made { MakesPage K.Keep keep.old keep.new result page_by caller query.now }
    ensures damaged { K.is_honest keep.new → ReadRowsFit (K.content keep.old) caller query.now
        → IsUndamaged result }
{
    let members = keep.counts()?.members;
    if !may_read(members, caller, is_own(query)) {
        return Ok(Page::Refused(Refusal::NoCaller));
    }
    page_allowed(alloc, keep, caller, query)
}

// What whoever may read it is shown.
#[tactic(auto, unfolding(pages_laws::specs::ByTables::shown_by))]
fn page_allowed<K: Keep>(
    alloc: Global,
    keep: &mut K,
    caller: u64,
    query: &Query,
) -> Result<Page, KeepFault>
    requires { caller < 2 ^ 32 }
    ensures { MakesPage K.Keep keep.old keep.new result shown_by caller query.now }
{
    match *query {
        Query::House => house(alloc, keep),
        Query::Bands => bands(alloc, keep),
        Query::BandsOf { edition } => bands_of(alloc, keep, edition),
        Query::Categories => categories(keep),
        Query::ItemsIn { category, from } => items_in(alloc, keep, category, from),
        Query::Item { item: number } => item(keep, number),
        Query::Questions { item, from } => published(keep, item, from),
        Query::Member { member: number } => member(keep, number),
        Query::FeedbackTo { member, from } => feedback_to(keep, member, from),
        Query::MyBids { from } => bids(keep, caller, from),
        Query::MyReserves { from } => reserves(keep, caller, from),
        Query::MyWatches => watches(alloc, keep, caller),
        Query::MyQuestions { from } => questions(keep, caller, from),
        Query::MyWaiting => waiting(keep, caller),
        Query::MyStatement { from, to } => statement(keep, caller, from, to),
    }
}

// Whether it is a page of the caller's own.
fn is_own(query: &Query) -> bool
    ensures { result ≡ is_own query.now }
{
    matches!(
        query,
        Query::MyBids { .. }
            | Query::MyReserves { .. }
            | Query::MyWatches
            | Query::MyQuestions { .. }
            | Query::MyWaiting
            | Query::MyStatement { .. }
    )
}

// Whether a caller may read, by how many members there are: the house has no pages of its own.
fn may_read(members: u32, caller: u64, own: bool) -> bool
    ensures report { result ≡ may_read members caller own }
    ensures number { IsTrue result → caller < 2 ^ 32 }
{
    (!own || caller >= 1) && caller <= u64::from(members)
}
