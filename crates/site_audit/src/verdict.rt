//! Two lists of messages, compared as a caller sees them.
ghost use Rattle.std.specs.Prelude.{◌≡◌, ◌+◌, ◌<◌, ◌^◌, [], List, IsErrOf, map};
ghost use Rattle.std.specs.List.{AllZip};
ghost use Rattle.house_laws.specs.Alike.{AreAlike};
ghost use Rattle.house_rows.specs.Answers.{Reads};
ghost use Rattle.house_rows.specs.declared.settings.Settings.{Settings as TheSettings};
ghost use Rattle.house_rows.specs.History.{History};
ghost use Rattle.house_rows.specs.Tables.{tables_of};
ghost use Rattle.house_rows.specs.Verdict.{IsHistory};
ghost use Rattle.site.specs.Replies.{zone_of};
ghost use Rattle.site_audit.specs.Audits.{IsVerdict};
ghost use Rattle.site_audit.specs.AuditsFrom.{IsFoundFrom, StopsUnanswered};
ghost use Rattle.site_audit.specs.Places.{Heard, IsHeard, IsUsed, keep_of};

use crate::fault::AuditFault;
use crate::pair::may_begin;
use crate::place::take_place;
use house_rows::Keep;
use site::{Reply, Site};
use std::alloc::Global;

/// What an audit finds.
#[derive(Drop)]
pub enum Verdict {
    /// The two lists are twin runs for the caller.
    Equal {
        /// The replies to it, in turn, which are the same in both.
        replies: Vec<Reply>,
    },
    /// They are none.
    Apart {
        /// The first place at which they are none, counted from 1.
        step: u64,
    },
}

// The verdict at a place, which is counted from 0 here.
fn apart_at(place: usize) -> Verdict
    requires { place + 1 < 2 ^ 64 }
    ensures { result ≡ Verdict.Apart (place + 1) }
{
    Verdict::Apart {
        step: place as u64 + 1,
    }
}

/// Answers two lists of messages over two houses that live on, place by place, and says whether
/// they are twin runs for a caller from there on, with the replies to it, or the first place at
/// which they are none.
///
/// The houses may have any two histories that are alike for the caller: two of equal tables have one.
/// Where the lists are twin runs, the histories after them are alike again, so that it can be asked
/// of the next two lists. Where the texts of a place may not be there, or one list has ended, neither
/// house answers in it: both have what came before it. NotNew is never answered.
pub fn audit_from<K: Keep + Drop>(
    alloc: Global,
    left: &mut Site<K>,
    right: &mut Site<K>,
    left_messages: &[Vec<u8>],
    right_messages: &[Vec<u8>],
    caller: u64,
) -> Result<Verdict, AuditFault>
    ensures found { K.is_honest (keep_of left.new) → K.is_honest (keep_of right.new)
        → (settings : TheSettings) (h k : History)
        → IsHistory settings h → IsHistory settings k → AreAlike settings caller h k
        → K.content (keep_of left.old) ≡ tables_of settings h
        → K.content (keep_of right.old) ≡ tables_of settings k
        → (lefts rights : List Heard)
        → AllZip IsHeard (map (λ m. m.items) left_messages.now) lefts
        → AllZip IsHeard (map (λ m. m.items) right_messages.now) rights
        → IsFoundFrom K.content K.is_failed settings (zone_of left.old) caller h k lefts rights
        (keep_of left.new) (keep_of right.new) result }
    ensures unanswered { K.is_honest (keep_of left.new) → K.is_honest (keep_of right.new)
        → (settings : TheSettings) (h k : History)
        → IsHistory settings h → IsHistory settings k
        → K.content (keep_of left.old) ≡ tables_of settings h
        → K.content (keep_of right.old) ≡ tables_of settings k
        → (lefts rights : List Heard)
        → AllZip IsHeard (map (λ m. m.items) left_messages.now) lefts
        → AllZip IsHeard (map (λ m. m.items) right_messages.now) rights
        → StopsUnanswered K.content settings caller h k lefts rights (keep_of left.new)
        (keep_of right.new) result }

    // Whatever the houses are.
    ensures never { ¬ (IsErrOf result AuditFault.NotNew) }
    ensures left { IsUsed K.is_failed K.is_honest left.old left.new }
    ensures right { IsUsed K.is_failed K.is_honest right.old right.new }
{
    let mut replies = Vec::new(alloc);
    for (place, text) in left_messages.iter().enumerate() {
        let Some(other) = right_messages.get(place) else {
            return Ok(apart_at(place));
        };
        if !take_place(left, right, text, other, caller, &mut replies)? {
            return Ok(apart_at(place));
        }
    }
    if left_messages.len() < right_messages.len() {
        return Ok(apart_at(left_messages.len()));
    }
    Ok(Verdict::Equal { replies })
}

/// Answers two lists of messages over two new houses, place by place, and says whether they are
/// twin runs for a caller, with the replies to it, or the first place at which they are none.
///
/// Twin runs are of equal length; at each place the messages are equal, byte for byte, or neither is
/// the caller's; and after each place everything public agrees, and the questions that wait for the
/// caller. As at `audit_from`, neither house answers a text that may not be at its place. NotNew is
/// answered exactly where a house isn't new, or the two were set up differently, and then nothing is
/// changed.
pub fn audit<K: Keep + Drop>(
    alloc: Global,
    left: &mut Site<K>,
    right: &mut Site<K>,
    left_messages: &[Vec<u8>],
    right_messages: &[Vec<u8>],
    caller: u64,
) -> Result<Verdict, AuditFault>
    ensures verdict { K.is_honest (keep_of left.new) → K.is_honest (keep_of right.new)
        → (settings others : TheSettings) (h k : History)
        → IsHistory settings h → IsHistory others k
        → K.content (keep_of left.old) ≡ tables_of settings h
        → K.content (keep_of right.old) ≡ tables_of others k
        → (lefts rights : List Heard)
        → AllZip IsHeard (map (λ m. m.items) left_messages.now) lefts
        → AllZip IsHeard (map (λ m. m.items) right_messages.now) rights
        → IsVerdict K.content K.is_failed settings (zone_of left.old) caller lefts rights
        (keep_of left.old) (keep_of right.old) (keep_of left.new) (keep_of right.new) result }
    ensures unanswered { K.is_honest (keep_of left.new) → K.is_honest (keep_of right.new)
        → (settings others : TheSettings) (h k : History)
        → IsHistory settings h → IsHistory others k
        → K.content (keep_of left.old) ≡ tables_of settings h
        → K.content (keep_of right.old) ≡ tables_of others k
        → (lefts rights : List Heard)
        → AllZip IsHeard (map (λ m. m.items) left_messages.now) lefts
        → AllZip IsHeard (map (λ m. m.items) right_messages.now) rights
        → StopsUnanswered K.content settings caller [] [] lefts rights (keep_of left.new)
        (keep_of right.new) result }

    // Whatever the houses are.
    ensures unbegun { IsErrOf result AuditFault.NotNew
        → Reads K.Keep (keep_of left.old) (keep_of left.new)
        × Reads K.Keep (keep_of right.old) (keep_of right.new) }
    ensures left { IsUsed K.is_failed K.is_honest left.old left.new }
    ensures right { IsUsed K.is_failed K.is_honest right.old right.new }
{
    if !may_begin(left, right)? {
        return Err(AuditFault::NotNew);
    }
    audit_from(alloc, left, right, left_messages, right_messages, caller)
}
