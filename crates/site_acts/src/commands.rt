//! What a command does: the verdict, then the bytes of its reply, and the change last.
ghost use Rattle.std.specs.Prelude.{◌≡◌, ◌++◌, false, OnErr, OnOk};
ghost use Rattle.house_rows.specs.Answers.{Reads};
ghost use Rattle.house_rows.specs.declared.message.Message.TheVariants.{Write};
ghost use Rattle.house_rows.specs.declared.reply.Reply.TheVariants.{Done};
ghost use Rattle.house_rows.specs.Asks.{ChangeFits};
ghost use Rattle.house_rows.specs.Keeping.{AreSound, Faults};
ghost use Rattle.house_rows.specs.Making.{ChangeRowsFit};
ghost use Rattle.house_rows.specs.Taken.{IsUndamaged};
ghost use Rattle.site_acts.specs.Acted.{IsActed, TellsResult};
ghost use Rattle.site_acts.specs.Entered.{IfReported, IsApplied, TellsDone};
ghost use Rattle.site_replies.specs.Texts.{reply_text};

use house::decide;
use house_rows::{Change, Command, Keep, KeepFault};
use site_replies::{ReplyRef, ReplyWriter};
use site_results::tell;

/// Carries out a command, and appends the bytes of its reply. After an `Err` the buffer has what
/// it had.
pub(crate) fn execute<K: Keep>(
    keep: &mut K,
    writer: &mut ReplyWriter,
    closes: bool,
    moment: u64,
    caller: u64,
    command: &Command,
    out: &mut Vec<u8>,
) -> Result<(), KeepFault>
    ensures acted { IsActed K.content K.is_failed K.is_honest K.may_leave writer.old.zone closes
        (Write moment caller command.now) result out.old.items out.new.items keep.old keep.new }
    ensures zone { writer.new.zone ≡ writer.old.zone }
{
    match decide(keep, moment, caller, command) {
        Ok(Ok(change)) => enter(keep, writer, closes, &change, out),
        Ok(Err(refusal)) => writer.write(closes, ReplyRef::Denied(refusal), out),
        Err(fault) => Err(fault),
    }
}

// Appends the result of an accepted command, and makes its change last. The change is made, or not,
// as the keep alone would make it.
fn enter<K: Keep>(
    keep: &mut K,
    writer: &mut ReplyWriter,
    closes: bool,
    change: &Change<'_>,
    out: &mut Vec<u8>,
) -> Result<(), KeepFault>
    requires going { K.is_failed keep.old ≡ false }
    requires fits { K.is_honest keep.old → AreSound (K.content keep.old)
        → ChangeFits (K.content keep.old) change.now }
    ensures report { K.is_honest keep.new
        → IfReported (K.content keep.old) change.now (λ report. OnOk result (out.new.items
        ≡ out.old.items ++ reply_text writer.old.zone closes (Done report))) }
    ensures text { OnOk result
        (TellsDone writer.old.zone closes out.old.items out.new.items) }
    ensures told { K.is_honest keep.new
        → OnOk result (TellsResult writer.old.zone closes (K.content keep.old) change.now
        out.old.items out.new.items) }
    ensures err { OnErr result (out.new.items ≡ out.old.items) }
    ensures applied { IsApplied K.content K.is_failed K.is_honest K.may_leave change.now result
        keep.old keep.new }
    ensures zone { writer.new.zone ≡ writer.old.zone }
{
    let before = out.len();
    foretell(keep, writer, closes, change, out)?;
    match keep.apply(change) {
        Ok(()) => Ok(()),
        Err(fault) => {
            out.truncate(before);
            Err(fault)
        }
    }
}

// Appends the result of an accepted command, before its change is made.
fn foretell<K: Keep>(
    keep: &mut K,
    writer: &mut ReplyWriter,
    closes: bool,
    change: &Change<'_>,
    out: &mut Vec<u8>,
) -> Result<(), KeepFault>
    requires going { K.is_failed keep.old ≡ false }
    ensures report { K.is_honest keep.new
        → IfReported (K.content keep.old) change.now (λ report. OnOk result (out.new.items
        ≡ out.old.items ++ reply_text writer.old.zone closes (Done report))) }
    ensures text { OnOk result
        (TellsDone writer.old.zone closes out.old.items out.new.items) }
    ensures told { K.is_honest keep.new
        → OnOk result (TellsResult writer.old.zone closes (K.content keep.old) change.now
        out.old.items out.new.items) }
    ensures err { OnErr result (out.new.items ≡ out.old.items) }
    ensures faults { Faults result (K.is_honest keep.new) (K.is_failed keep.new)
        (K.content keep.old) }
    ensures damaged { K.is_honest keep.new
        → ChangeRowsFit (K.content keep.old) change.now → IsUndamaged result }
    ensures read { Reads K.Keep keep.old keep.new }
    ensures zone { writer.new.zone ≡ writer.old.zone }
{
    let report = tell(keep, change)?;
    writer.write(closes, ReplyRef::Done(&report), out)
}
