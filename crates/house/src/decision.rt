//! Deciding on a command.
ghost use Rattle.house.specs.Decides.{Decides};

use crate::answers::answer;
use crate::auction_end::close;
use crate::bands::set_bands;
use crate::bidding::bid;
use crate::listing::{Offer, list};
use crate::people::{add_category, register};
use crate::purchase::buy;
use crate::questions::ask;
use crate::ratings::feedback;
use crate::settlement::settle;
use crate::watch_removal::unwatch;
use crate::watchlist::watch;
use house_rows::{Change, Command, Keep, KeepFault, Refusal};

/// Decides on a command: the change that it makes, or why it is refused. Nothing is changed yet, and
/// the change fits the tables wherever the rows do that it takes. Where the rows
/// fit that deciding takes, a refusal is what the first rule that fails by the tables says, even if
/// no list of commands makes them.
///
/// `moment` is in whole seconds since 1970-01-01T00:00:00Z, and `caller` 0 is the house.
pub fn decide<'c, K: Keep>(
    keep: &mut K,
    moment: u64,
    caller: u64,
    command: &'c Command,
) -> Result<Result<Change<'c>, Refusal>, KeepFault>
    ensures { Decides K.Keep keep.old keep.new result moment caller command.now }
{
    match command {
        Command::Register { name } => register(keep, moment, caller, name),
        Command::AddCategory { name } => add_category(keep, moment, caller, name),
        Command::List {
            category,
            lot,
            title,
            text,
            start,
            buy_now,
            end,
            reserve,
        } => {
            let offer = Offer {
                category: *category,
                lot,
                title,
                text,
                start: *start,
                buy_now: *buy_now,
                end: *end,
                reserve: *reserve,
            };
            list(keep, moment, caller, &offer)
        }
        Command::Bid { item, maximum } => bid(keep, moment, caller, *item, *maximum),
        Command::Buy { item } => buy(keep, moment, caller, *item),
        Command::Close => close(keep, moment, caller),
        Command::Settle { item } => settle(keep, moment, caller, *item),
        Command::Watch { item } => watch(keep, moment, caller, *item),
        Command::Unwatch { item } => unwatch(keep, moment, caller, *item),
        Command::Ask { item, text } => ask(keep, moment, caller, *item, text),
        Command::Answer {
            item,
            asker,
            number,
            text,
        } => answer(keep, moment, caller, *item, *asker, *number, text),
        Command::Feedback { item, rating, text } => {
            feedback(keep, moment, caller, *item, *rating, text)
        }
        Command::SetBands { bands } => set_bands(keep, moment, caller, bands),
    }
}
