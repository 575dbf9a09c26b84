//! Pages of questions.
ghost use Rattle.house_rows.specs.declared.query.Query.TheVariants as query;
ghost use Rattle.pages_laws.specs.ByTables.{shown_by};
ghost use Rattle.pages.specs.Promises.{MakesPage};

use house_rows::{Keep, KeepFault, Page, Refusal, Rows};

// The published questions on an item.
#[tactic(auto, unfolding(pages_laws::specs::ByTables::shown_by))]
pub(crate) fn published<K: Keep>(keep: &mut K, item: u64, from: u64) -> Result<Page, KeepFault>
    ensures { MakesPage K.Keep keep.old keep.new result shown_by 0 (query.Questions item from) }
{
    if keep.terms(item)?.is_none() {
        return Ok(Page::Refused(Refusal::Unknown));
    }
    Ok(Page::Questions(Rows::new(keep.published(item, from)?)))
}

// The caller's own questions.
#[tactic(auto, unfolding(pages_laws::specs::ByTables::shown_by))]
pub(crate) fn questions<K: Keep>(keep: &mut K, caller: u64, from: u64) -> Result<Page, KeepFault>
    ensures { MakesPage K.Keep keep.old keep.new result shown_by caller (query.MyQuestions from) }
{
    Ok(Page::Questions(Rows::new(keep.questions_of(caller, from)?)))
}

// The questions that wait for the caller's answer.
#[tactic(auto, unfolding(pages_laws::specs::ByTables::shown_by))]
pub(crate) fn waiting<K: Keep>(keep: &mut K, caller: u64) -> Result<Page, KeepFault>
    ensures { MakesPage K.Keep keep.old keep.new result shown_by caller query.MyWaiting }
{
    Ok(Page::Questions(Rows::new(keep.first_waiting(caller)?)))
}
