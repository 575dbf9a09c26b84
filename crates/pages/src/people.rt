//! Pages of categories, members and feedback.
ghost use Rattle.house_rows.specs.declared.query.Query.TheVariants as query;
ghost use Rattle.pages_laws.specs.ByTables.{shown_by};
ghost use Rattle.pages.specs.Promises.{MakesPage};

use house_rows::{Keep, KeepFault, Page, Refusal, Rows};

// All categories.
#[tactic(auto, unfolding(pages_laws::specs::ByTables::shown_by))]
pub(crate) fn categories<K: Keep>(keep: &mut K) -> Result<Page, KeepFault>
    ensures { MakesPage K.Keep keep.old keep.new result shown_by 0 query.Categories }
{
    Ok(Page::Categories(Rows::new(keep.categories()?)))
}

// One member.
#[tactic(auto, unfolding(pages_laws::specs::ByTables::shown_by))]
pub(crate) fn member<K: Keep>(keep: &mut K, member: u64) -> Result<Page, KeepFault>
    ensures { MakesPage K.Keep keep.old keep.new result shown_by 0 (query.Member member) }
{
    let Some(found) = keep.member(member)? else {
        return Ok(Page::Refused(Refusal::Unknown));
    };
    let ratings = keep.ratings(member)?;
    Ok(Page::OneMember {
        member: found,
        ratings,
    })
}

// The feedback to a member.
#[tactic(auto, unfolding(pages_laws::specs::ByTables::shown_by))]
pub(crate) fn feedback_to<K: Keep>(keep: &mut K, member: u64, from: u64) -> Result<Page, KeepFault>
    ensures { MakesPage K.Keep keep.old keep.new result shown_by 0 (query.FeedbackTo member from) }
{
    if !keep.has_member(member)? {
        return Ok(Page::Refused(Refusal::Unknown));
    }
    Ok(Page::Feedbacks(Rows::new(keep.feedback_for(member, from)?)))
}
