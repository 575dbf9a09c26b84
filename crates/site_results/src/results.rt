//! What the caller is told of a change that was made.
ghost use Rattle.std.specs.Prelude.{◌≡◌, false};
ghost use Rattle.house_rows.specs.Answers.{Answers, OverHistory};
ghost use Rattle.house_rows.specs.Making.{ChangeRowsFit};
ghost use Rattle.site_results.specs.ByTables.{IsResultBy, IsResultOver};

use crate::bands::next_edition;
use crate::bidding::tell_bid;
use crate::close::tell_close;
use crate::listing::tell_listing;
use crate::people::{tell_category, tell_member};
use crate::settlement::tell_settlement;
use house_rows::{Change, CommandResult, Keep, KeepFault};

/// The result that an accepted command will have once its change is made: over any tables that of the
/// change. The keep has not failed; nothing is changed.
pub fn tell<K: Keep>(keep: &mut K, change: &Change<'_>) -> Result<CommandResult, KeepFault>
    requires going { K.is_failed keep.old ≡ false }
    ensures report { OverHistory K.Keep keep.old keep.new
        (λ settings h. IsResultOver settings h change.now result) }
    ensures answers { Answers K.Keep keep.old keep.new result
        (λ t r. IsResultBy t change.now r) (λ t. ChangeRowsFit t change.now) }
{
    match *change {
        Change::Register { .. } => tell_member(keep),
        Change::AddCategory { .. } => tell_category(keep),
        Change::List { .. } => tell_listing(keep),
        Change::Bid {
            item,
            ref standing,
            ..
        } => tell_bid(keep, item, standing),
        Change::Buy { item, price, .. } => Ok(CommandResult::Bought { item, price }),
        Change::Close { moment } => tell_close(keep, moment),
        Change::Settle { item, .. } => tell_settlement(keep, item),
        Change::Watch { item, .. } => Ok(CommandResult::Watched {
            item,
            watched: true,
        }),
        Change::Unwatch { item, .. } => Ok(CommandResult::Watched {
            item,
            watched: false,
        }),
        Change::Ask {
            item,
            asker,
            number,
            ..
        } => Ok(CommandResult::Question {
            asker,
            item,
            number,
        }),
        Change::Answer {
            item,
            asker,
            number,
            ..
        } => Ok(CommandResult::Question {
            asker,
            item,
            number,
        }),
        Change::Feedback {
            item,
            to,
            rating,
            ..
        } => Ok(CommandResult::Rated { item, rating, to }),
        Change::SetBands { .. } => next_edition(keep),
    }
}
