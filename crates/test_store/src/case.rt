//! A house is stopped at each call of either file, and what is left is looked at.
use crate::files::{OnFiles, Room};
use crate::sessions::{Answer, Session, Stop, answer_at_stop, view};
use crate::tally::{Found, Tally};
use house_script::ScriptFault;
use std::alloc::Global;
use std::mem;
use stop_files::{Image, Loss, Pair, Side};

// What log and database file may have lost when the machine comes back.
const LOSSES: [Loss; 4] = [Loss::Nothing, Loss::All, Loss::Even, Loss::Odd];

// A house that is opened, and nothing more.
const THERE: Session = Session {
    is_new: false,
    earlier: None,
    last: None,
};

impl OnFiles<'_> {
    // What the house shows after a session.
    fn view(&self, session: Session<'_>) -> Result<Vec<u8>, ScriptFault> {
        view(self.alloc, self, session)
    }

    // What is answered when a file stops.
    fn answer(&self, session: Session<'_>, stop: Stop<'_>) -> Result<Answer, ScriptFault> {
        answer_at_stop(self.alloc, self, session, stop)
    }
}

/// What is stopped: a command in a house where another was acknowledged before it, or, where there
/// is none, the making of a house.
#[derive(Drop)]
pub(crate) struct Case<'s> {
    room: Room,
    // What was synced before the session.
    base: Image,
    session: Session<'s>,
    // What the house shows; of no house that is nothing.
    before: Vec<u8>,
    after: Vec<u8>,
}

// What a house in files shows after a session.
fn view_in(
    alloc: Global,
    image: &Image,
    room: Room,
    session: Session<'_>,
) -> Result<Vec<u8>, ScriptFault> {
    let pair = &Pair::of(alloc, image)?;
    OnFiles { alloc, pair, room }.view(session)
}

impl<'s> Case<'s> {
    /// The making of a house, in two files that hold nothing.
    pub(crate) fn making(alloc: Global, room: Room) -> Result<Case<'s>, ScriptFault> {
        let base = Image::blank(alloc);
        let session = Session {
            is_new: true,
            ..THERE
        };
        let after = view_in(alloc, &base, room, session)?;
        Ok(Case {
            room,
            base,
            session,
            before: Vec::new(alloc),
            after,
        })
    }

    /// Goes on to the command that comes next, which has to be accepted and to change what the
    /// house shows.
    pub(crate) fn advance(&mut self, alloc: Global, command: &'s str) -> Result<(), ScriptFault> {
        let session = Session {
            is_new: false,
            earlier: self.session.last,
            last: Some(command),
        };
        let (base, after) = self.next(alloc, session)?;
        self.base = base;
        self.session = session;
        self.before = mem::replace(&mut self.after, after);
        Ok(())
    }

    // What was synced before the next session, and what the house shows after it.
    fn next(&self, alloc: Global, session: Session<'_>) -> Result<(Image, Vec<u8>), ScriptFault> {
        let base = self.next_base(alloc)?;
        let after = view_in(alloc, &base, self.room, session)?;
        if after == self.after {
            return Err(ScriptFault::Keep);
        }
        Ok((base, after))
    }

    // What was synced once all but the last command was given.
    fn next_base(&self, alloc: Global) -> Result<Image, ScriptFault> {
        let pair = &Pair::of(alloc, &self.base)?;
        let session = Session {
            last: None,
            ..self.session
        };
        let room = self.room;
        let _ = OnFiles { alloc, pair, room }.view(session)?;
        pair.left(alloc, Loss::All).map_err(|_| ScriptFault::Keep)
    }

    // Whether it can be done where it was found not to be.
    fn can_be_done(&self, place: &OnFiles<'_>) -> Result<bool, ScriptFault> {
        let session = Session {
            earlier: None,
            ..self.session
        };
        Ok(place.view(session)? == self.after)
    }

    // What is found in files that are opened again.
    fn find(
        &self,
        alloc: Global,
        answer: Answer,
        place: &OnFiles<'_>,
    ) -> Result<Found, ScriptFault> {
        if answer == Answer::Other {
            return Ok(Found::Answer);
        }
        // A house that can't be opened shows nothing.
        let there = match place.view(THERE) {
            Err(ScriptFault::Keep) => Vec::new(alloc),
            there => there?,
        };
        Ok(if there == self.after {
            Found::After
        } else if there != self.before || !self.can_be_done(place)? {
            Found::Other
        } else if answer == Answer::Done {
            Found::Lost
        } else {
            Found::Before
        })
    }

    // What is found where files have lost something.
    fn find_left(
        &self,
        alloc: Global,
        answer: Answer,
        stopped: &Pair,
        loss: Loss,
    ) -> Result<Found, ScriptFault> {
        let image = stopped.left(alloc, loss).map_err(|_| ScriptFault::Keep)?;
        let pair = &Pair::of(alloc, &image)?;
        let room = self.room;
        self.find(alloc, answer, &OnFiles { alloc, pair, room })
    }

    // Stops a file, and looks what is left: whether it did stop.
    fn stop(&self, alloc: Global, stop: Stop<'_>, tally: &mut Tally) -> Result<bool, ScriptFault> {
        let (pair, side, calls, room) = (stop.pair, stop.side, stop.calls, self.room);
        let answer = OnFiles { alloc, pair, room }.answer(self.session, stop)?;
        if !pair.has_stopped(side) {
            if answer != Answer::Done {
                tally.find(side, calls, Found::Answer);
            }
            return Ok(false);
        }
        tally.stop();
        for loss in LOSSES {
            tally.find(side, calls, self.find_left(alloc, answer, pair, loss)?);
        }
        Ok(true)
    }

    // Stops one file after each number of calls, until a run ends with no stop.
    fn stop_side(&self, alloc: Global, side: Side, tally: &mut Tally) -> Result<(), ScriptFault> {
        for calls in 0..u64::MAX {
            let pair = &Pair::of(alloc, &self.base)?;
            if !self.stop(alloc, Stop { pair, side, calls }, tally)? {
                return Ok(());
            }
        }
        Ok(())
    }

    /// Stops each file after each number of calls.
    pub(crate) fn stops(&self, alloc: Global) -> Result<Tally, ScriptFault> {
        let mut tally = Tally::new();
        self.stop_side(alloc, Side::Log, &mut tally)?;
        self.stop_side(alloc, Side::Database, &mut tally)?;
        Ok(tally)
    }
}
