//! How a change leaves the keep.
ghost use Rattle.std.specs.Prelude.{◌≡◌, ◌⊎◌, true, false, OnOk, OnErr};
ghost use Rattle.house_rows.specs.Asks.{ChangeFits};
ghost use Rattle.house_rows.specs.Changed.{changed};
ghost use Rattle.house_rows.specs.Keeping.{AreSound};
ghost use Rattle.house_rows.specs.Making.{ChangeFaults};
ghost use Rattle.house_rows.specs.Tables.{Tables};
ghost use Rattle.store.specs.Kept.{IsHonest, MayLeave, content, is_failed};

use crate::after::{add_rules, clock_after, counts_after, remove_rules};
use crate::change_rows::make_change;
use crate::keep::SqlKeep;
use crate::settled::reported_fault;
use house_rows::{Change, KeepFault};
use sqlite::Alter;

impl<S: Alter> SqlKeep<S> {
    // Makes a change, as `apply` of `Keep` does.
    pub(crate) fn change(&mut self, change: &Change<'_>) -> Result<(), KeepFault>
        requires fits { IsHonest S.Store self.old
            → AreSound (content S.Store self.old)
            → ChangeFits (content S.Store self.old) change.now }
        ensures ok { IsHonest S.Store self.new
            → OnOk result (content S.Store self.new ≡ changed
            (content S.Store self.old) change.now) }
        ensures err { IsHonest S.Store self.new
            → is_failed self.new ≡ false
            → OnErr result (content S.Store self.new ≡ content S.Store self.old) }
        ensures faults { ChangeFaults result (IsHonest S.Store self.new) (is_failed self.new)
            (content S.Store self.old) change.now }
        ensures honest { IsHonest S.Store self.new → IsHonest S.Store self.old }
        ensures stays { is_failed self.old ≡ true → is_failed self.new ≡ true }
        ensures kept { IsHonest S.Store self.new
            → OnOk result ((t : Tables) → MayLeave S.Store self.new t
            → t ≡ content S.Store self.new) }
        ensures crash { IsHonest S.Store self.new
            → OnErr result ((t : Tables) → MayLeave S.Store self.new t → MayLeave S.Store self.old t
            ⊎ ((is_failed self.old ≡ false) × (is_failed self.new ≡ true)
            × (t ≡ changed (content S.Store self.old) change.now))) }
    {
        if self.failed {
            return Err(KeepFault::Store);
        }
        let Some(clock) = clock_after(self.clock, change) else {
            return Err(KeepFault::Damaged);
        };
        let Some(counts) = counts_after(self.counts, change) else {
            return Err(KeepFault::Damaged);
        };
        // What may lack memory comes before the commit: taking it back doesn't.
        add_rules(self.alloc, &mut self.rules, counts, change)?;
        let seen = self.seen.take();
        match make_change(
            self.alloc,
            &mut self.conn,
            &self.rules,
            &seen,
            counts,
            change,
        ) {
            Ok(()) => {
                self.counts = counts;
                self.clock = clock;
                Ok(())
            }
            Err(fault) => {
                remove_rules(&mut self.rules, change);
                Err(reported_fault(&mut self.conn, &mut self.failed, fault))
            }
        }
    }
}
