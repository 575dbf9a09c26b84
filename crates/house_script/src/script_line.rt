//! The commands that a house is given.
ghost use Rattle.std.specs.Prelude.{◌≡◌, true, IfOk};
ghost use Rattle.house_rows.specs.Asks.{ChangeFits};
ghost use Rattle.house_rows.specs.Changed.{changed};
ghost use Rattle.house_script.specs.Housed.{IsHoused};

use crate::fault::ScriptFault;
use crate::words::Words;
use house::decide;
use house_rows::{Change, Command, Keep, Refusal};
use std::alloc::Global;

/// A command, when it is given and by whom.
#[derive(Drop)]
pub struct ScriptLine {
    /// In whole seconds since 1970-01-01T00:00:00Z.
    pub moment: u64,
    /// A member's number, or 0 for the house.
    pub caller: u64,
    /// What is to be done.
    pub command: Command,
}

impl ScriptLine {
    /// The command that a line spells.
    pub fn of_line(alloc: Global, line: &str) -> Result<ScriptLine, ScriptFault> {
        let words = &mut Words::new(alloc, line);
        let (moment, caller) = (words.number()?, words.number()?);
        let command = command(words)?;
        match words.next() {
            None => Ok(ScriptLine {
                moment,
                caller,
                command,
            }),
            Some(_) => Err(ScriptFault::Script),
        }
    }

    /// Decides on it, and makes its change to the keep. Where it is refused nothing is changed.
    pub(crate) fn give<K: Keep>(
        &self,
        keep: &mut K,
    ) -> Result<Result<Change<'_>, Refusal>, ScriptFault>
        requires housed { IsHoused (K.is_honest keep.old) (K.is_failed keep.old) (K.content keep.old) }
        ensures honest { K.is_honest keep.new → K.is_honest keep.old }
        ensures stays { K.is_failed keep.old ≡ true → K.is_failed keep.new ≡ true }
        ensures housed { IsHoused (K.is_honest keep.new) (K.is_failed keep.new) (K.content keep.new) }
        ensures made { K.is_honest keep.new → IfOk result (λ report. IfOk report (λ change.
            ChangeFits (K.content keep.old) change × (K.content keep.new ≡ changed (K.content keep.old) change))) }
    {
        match decide(keep, self.moment, self.caller, &self.command) {
            Err(fault) => Err(fault.into()),
            Ok(Err(refusal)) => Ok(Err(refusal)),
            Ok(Ok(change)) => {
                keep.apply(&change)?;
                Ok(Ok(change))
            }
        }
    }
}

// The command that words spell.
fn command(words: &mut Words<'_>) -> Result<Command, ScriptFault> {
    let name = words.word()?;
    match name {
        "register" => Ok(Command::Register {
            name: words.text()?,
        }),
        "add_category" => Ok(Command::AddCategory {
            name: words.text()?,
        }),
        "list" => listing(words),
        "close" => Ok(Command::Close),
        "set_bands" => Ok(Command::SetBands {
            bands: words.pairs()?,
        }),
        _ => on_an_item(words, name),
    }
}

// All other commands name their item first.
fn on_an_item(words: &mut Words<'_>, name: &str) -> Result<Command, ScriptFault> {
    let item = words.number()?;
    match name {
        "bid" => Ok(Command::Bid {
            item,
            maximum: words.number()?,
        }),
        "buy" => Ok(Command::Buy { item }),
        "settle" => Ok(Command::Settle { item }),
        "watch" => Ok(Command::Watch { item }),
        "unwatch" => Ok(Command::Unwatch { item }),
        "ask" => Ok(Command::Ask {
            item,
            text: words.text()?,
        }),
        "answer" => Ok(Command::Answer {
            item,
            asker: words.number()?,
            number: words.number()?,
            text: words.text()?,
        }),
        "feedback" => Ok(Command::Feedback {
            item,
            rating: words.rating()?,
            text: words.text()?,
        }),
        _ => Err(ScriptFault::Script),
    }
}

fn listing(words: &mut Words<'_>) -> Result<Command, ScriptFault> {
    Ok(Command::List {
        category: words.number()?,
        lot: words.text()?,
        title: words.text()?,
        text: words.text()?,
        start: words.number()?,
        buy_now: words.number_or_none()?,
        end: words.number()?,
        reserve: words.number_if_any()?,
    })
}
