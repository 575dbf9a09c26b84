//! Pages of what the caller has bid, sold and bought.
ghost use Rattle.std.specs.Prelude.{◌<◌, ◌^◌};
ghost use Rattle.house_rows.specs.declared.query.Query.TheVariants as query;
ghost use Rattle.pages_laws.specs.ByTables.{shown_by};
ghost use Rattle.pages.specs.Promises.{MakesPage};

use house_rows::{Keep, KeepFault, Page, Rows};
use settle::Day;

// The items on which the caller has bid.
#[tactic(auto, unfolding(pages_laws::specs::ByTables::shown_by))]
pub(crate) fn bids<K: Keep>(keep: &mut K, caller: u64, from: u64) -> Result<Page, KeepFault>
    ensures { MakesPage K.Keep keep.old keep.new result shown_by caller (query.MyBids from) }
{
    Ok(Page::Bids(Rows::new(keep.bids_of(caller, from)?)))
}

// The caller's reserves on what it sells.
#[tactic(auto, unfolding(pages_laws::specs::ByTables::shown_by))]
pub(crate) fn reserves<K: Keep>(keep: &mut K, caller: u64, from: u64) -> Result<Page, KeepFault>
    ensures { MakesPage K.Keep keep.old keep.new result shown_by caller (query.MyReserves from) }
{
    Ok(Page::Reserves(Rows::new(keep.reserves_of(caller, from)?)))
}

// The statement of the caller, whose number is one of 32 bits.
#[tactic(auto, unfolding(pages_laws::specs::ByTables::shown_by))]
pub(crate) fn statement<K: Keep>(
    keep: &mut K,
    caller: u64,
    from: Day,
    to: Day,
) -> Result<Page, KeepFault>
    requires { caller < 2 ^ 32 }
    ensures { MakesPage K.Keep keep.old keep.new result shown_by caller
        (query.MyStatement from to) }
{
    let rate = keep.settings()?.rate;
    let sales = keep.sold_of(caller)?;
    Ok(Page::Statement {
        member: caller,
        from,
        to,
        rate,
        sales: Rows::new(sales),
    })
}
