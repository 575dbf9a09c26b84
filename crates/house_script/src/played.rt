//! A house that commands are given to.
use crate::fault::ScriptFault;
use crate::filled_keep::{fill_at_once, settings};
use crate::makes::Makes;
use crate::question::answer;
use crate::script_line::ScriptLine;
use house_rows::{Keep, Refusal};
use std::alloc::Global;
use std::marker::Model;

/// A house whose keep has the tables of the commands that it accepted. Clauses see the keep.
#[derive(Drop)]
pub(crate) struct House<K: Keep + Drop> {
    keep: K,
    // What it accepted, where that is recorded.
    recorded: Option<Vec<ScriptLine>>,
}

impl<K: Keep + Drop> Model for House<K> {
    ghost use Rattle.house_script.specs.Housed.{IsHoused};

    ghost Value = { K };

    ghost view = { λ house. house.keep };

    ghost invariant = { λ house. IsHoused (K.is_honest house.keep) (K.is_failed house.keep) (K.content house.keep) };
}

impl<K: Keep + Drop> House<K> {
    /// A house without members.
    pub(crate) fn new<M: Makes<K>>(alloc: Global, makes: &M) -> Result<House<K>, ScriptFault> {
        let keep = makes.empty(alloc, settings(alloc)?)?;
        Ok(House {
            keep,
            recorded: None,
        })
    }

    /// Becomes a house without members.
    pub(crate) fn renew<M: Makes<K>>(
        &mut self,
        alloc: Global,
        makes: &M,
    ) -> Result<(), ScriptFault> {
        self.keep = makes.empty(alloc, settings(alloc)?)?;
        self.recorded = None;
        Ok(())
    }

    /// Becomes a house without members that records what it accepts.
    pub(crate) fn renew_recording<M: Makes<K>>(
        &mut self,
        alloc: Global,
        makes: &M,
    ) -> Result<(), ScriptFault> {
        self.renew(alloc, makes)?;
        self.recorded = Some(Vec::new(alloc));
        Ok(())
    }

    /// The line that it answers to a question.
    pub(crate) fn answer(&mut self, alloc: Global, question: &str) -> Result<String, ScriptFault> {
        answer(alloc, &mut self.keep, question)
    }

    /// Gives it a command, and says why it is refused, if it is.
    pub(crate) fn play_line(&mut self, line: ScriptLine) -> Result<Option<Refusal>, ScriptFault> {
        let refusal = self.give(&line);
        if matches!(refusal, Ok(None)) {
            self.record(line)?;
        }
        refusal
    }

    // Gives a command to the keep, once there is room to record it.
    fn give(&mut self, line: &ScriptLine) -> Result<Option<Refusal>, ScriptFault> {
        if let Some(recorded) = &mut self.recorded {
            recorded.try_reserve(1)?;
        }
        // The fault is matched, since a `?` on what holds a change isn't covered by the borrow check.
        match line.give(&mut self.keep) {
            Err(fault) => Err(fault),
            Ok(Err(refusal)) => Ok(Some(refusal)),
            Ok(Ok(_)) => Ok(None),
        }
    }

    // Keeps a command that was accepted.
    fn record(&mut self, line: ScriptLine) -> Result<(), ScriptFault> {
        let Some(recorded) = &mut self.recorded else {
            return Ok(());
        };
        let Ok(()) = recorded.push(line) else {
            return Err(ScriptFault::Memory);
        };
        Ok(())
    }

    /// Goes on with a new keep that is filled with the changes of what it has recorded.
    pub(crate) fn refill<M: Makes<K>>(
        &mut self,
        alloc: Global,
        makes: &M,
    ) -> Result<(), ScriptFault> {
        let recorded = self.recorded.as_ref().ok_or(ScriptFault::Script)?;
        self.keep = fill_at_once(alloc, makes, recorded)?;
        Ok(())
    }
}
