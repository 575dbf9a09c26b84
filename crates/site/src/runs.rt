//! Runs: a list of messages, answered in turn.
ghost use Rattle.std.specs.Prelude.{◌≡◌, [], List, ℕ, IfOk, IsErr, map, length, true};
ghost use Rattle.std.specs.Cow.{cow_slice_items};
ghost use Rattle.std.specs.List.{AllByRecursion, AllZip};
ghost use Rattle.steps.specs.Table.{IsBandTable};
ghost use Rattle.house_laws.specs.Covered.{Sealed};
ghost use Rattle.house_rows.specs.declared.settings.Settings.{Settings as TheSettings};
ghost use Rattle.house_rows.specs.Tables.{tables_of};
ghost use Rattle.site.specs.Replies.{zone_of};
ghost use Rattle.site.specs.Histories.{OverMessages, Steps};
ghost use Rattle.site.specs.Lives.{LeavesALife, LivesOn};
ghost use Rattle.site.specs.Runs.{AreDown, InTurn, IsCoveredRun, IsGoing, IsHidden, Raises, Ran};
ghost use Rattle.site.specs.Runs.{StaysDown, Stopped, TellsFault, TwinRuns, at_places, replies_to};
ghost use Rattle.site_request.specs.Asked.{IsAsked};
ghost use Rattle.site_request.specs.declared.asked.Asked.{Asked as TheAsked};
ghost use Rattle.site_replies.specs.Texts.{IsServed};

use crate::engine::{Reply, Site};
use house_rows::Keep;

/// Why a run was not begun.
#[derive(Clone, Copy)]
pub enum RunFault {
    /// Memory was refused, before the first message was looked at.
    Memory,
}

impl<K: Keep + Drop> Site<K> {
    /// Answers each message in turn. Where a run of a new house neither ran out of memory nor met a
    /// failure, a member's replies are those of any run that is a twin of it for the member; and
    /// those in which the last leader's covered bid is raised are such runs for everybody else. Of
    /// a house that lives on they are those of any run that is a twin of it from alike histories on.
    /// Clause `life` gives the life of it that a crash leaves, and that its replies are those which
    /// `isolation_over_crashes` of `house_laws` speaks of.
    pub fn run(&mut self, messages: &[Vec<u8>]) -> Result<Vec<Reply>, RunFault>
        ensures steps { IfOk result (λ v. (asked : List TheAsked)
            × AllZip IsAsked (map (λ m. m.items) messages.now) asked
            × InTurn (Steps K.Keep (zone_of self.old))
            asked (map cow_slice_items v.items) self.old.keep self.new.keep) }
        ensures ran { OverMessages K.Keep self.old.keep self.new.keep
            (map (λ m. m.items) messages.now) (λ settings h asked. IfOk result (λ v.
            AllByRecursion IsGoing (map cow_slice_items v.items)
            → Ran K.content K.is_failed K.may_leave settings (zone_of self.old) h
            asked (map cow_slice_items v.items) self.old.keep self.new.keep)) }
        ensures stopped { OverMessages K.Keep self.old.keep self.new.keep
            (map (λ m. m.items) messages.now) (λ settings h asked. IfOk result (λ v.
            ¬ (AllByRecursion IsGoing (map cow_slice_items v.items))
            → Stopped K.content K.is_failed K.may_leave settings (zone_of self.old) h
            asked (map cow_slice_items v.items) self.old.keep self.new.keep)) }
        ensures isolation { K.is_honest self.new.keep
            → (settings : TheSettings) → K.content self.old.keep ≡ tables_of settings []
            → IfOk result (λ v. AllByRecursion IsServed (map cow_slice_items v.items)
            → (c : ℕ) (second : List (List ℕ)) (firsts seconds : List TheAsked)
            → AllZip IsAsked (map (λ m. m.items) messages.now) firsts
            → AllZip IsAsked second seconds
            → TwinRuns settings c firsts seconds
            → at_places c firsts (map cow_slice_items v.items)
            ≡ replies_to settings (zone_of self.old) c seconds) }
        // The same of a house that lives on, over any history; and the next run goes on from what
        // this one leaves.
        ensures isolation_from { OverMessages K.Keep self.old.keep self.new.keep
            (map (λ m. m.items) messages.now) (λ settings h asked. IfOk result (λ v.
            AllByRecursion IsServed (map cow_slice_items v.items)
            → LivesOn K.content settings (zone_of self.old) h
            asked (map cow_slice_items v.items) self.new.keep)) }
        // However it ends, a crash leaves the tables of a life: of what was served, and of what the
        // store failed in, which is in or out.
        ensures life { OverMessages K.Keep self.old.keep self.new.keep
            (map (λ m. m.items) messages.now) (λ settings h asked. IfOk result (λ v.
            LeavesALife K.content K.may_leave settings (zone_of self.old) h
            asked (map cow_slice_items v.items) self.old.keep self.new.keep)) }
        // However far the last leader raises a bid that covers what leading takes.
        ensures surplus { K.is_honest self.new.keep
            → (settings : TheSettings) → IsBandTable settings.bands
            → K.content self.old.keep ≡ tables_of settings []
            → IfOk result (λ v. AllByRecursion IsServed (map cow_slice_items v.items)
            → (c place y : ℕ) (b : Sealed) (asked : List TheAsked) (text : List ℕ) (other : TheAsked)
            → AllZip IsAsked (map (λ m. m.items) messages.now) asked
            → IsCoveredRun settings c place y b asked
            → IsAsked text other → Raises y b other
            → IsHidden settings (zone_of self.old) c place (map (λ m. m.items) messages.now) asked
            text other (map cow_slice_items v.items)) }
        // Over any keep, whatever it holds: once the store has failed, no command and no read has
        // another reply.
        ensures down { K.is_failed self.old.keep ≡ true → (asked : List TheAsked)
            → AllZip IsAsked (map (λ m. m.items) messages.now) asked
            → IfOk result (λ v. AreDown asked (map cow_slice_items v.items)) }
        ensures stays_down { (asked : List TheAsked)
            → AllZip IsAsked (map (λ m. m.items) messages.now) asked
            → IfOk result (λ v. StaysDown asked (map cow_slice_items v.items)) }
        ensures broken { IfOk result (λ v.
            AllZip TellsFault (map (λ m. m.items) messages.now) (map cow_slice_items v.items)) }
        ensures as_many { IfOk result (λ v. length v.items ≡ length messages.now) }
        ensures memory { IsErr result → self.new.keep ≡ self.old.keep }
        ensures zone { zone_of self.new ≡ zone_of self.old }
    {
        let mut replies = match Vec::with_capacity(self.alloc, messages.len()) {
            Ok(replies) => replies,
            Err(_) => return Err(RunFault::Memory),
        };
        for message in messages {
            let reply = self.reply(message);
            replies.push_reserved(reply);
        }
        Ok(replies)
    }
}
