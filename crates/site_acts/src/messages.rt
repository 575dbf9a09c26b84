//! What one message does.
ghost use Rattle.std.specs.Prelude.{◌≡◌};
ghost use Rattle.site_acts.specs.Acted.{IsActed};

use crate::commands::execute;
use crate::reading::read;
use house_rows::{Keep, KeepFault, Message};
use site_replies::{ReplyRef, ReplyWriter};
use site_request::Asked;

/// Carries out what is asked, and appends the bytes of its reply. For a command that is the
/// verdict, then the bytes, and the change last; nothing grows after it. After an `Err` the buffer
/// has what it had.
pub fn act<K: Keep>(
    keep: &mut K,
    writer: &mut ReplyWriter,
    asked: &Asked,
    out: &mut Vec<u8>,
) -> Result<(), KeepFault>
    ensures acted { IsActed K.content K.is_failed K.is_honest K.may_leave writer.old.zone
        asked.now.closes asked.now.message result out.old.items out.new.items keep.old keep.new }
    ensures zone { writer.new.zone ≡ writer.old.zone }
{
    match &asked.message {
        Message::Write {
            moment,
            caller,
            command,
        } => execute(keep, writer, asked.closes, *moment, *caller, command, out),
        Message::Read { caller, query } => read(keep, writer, asked.closes, *caller, query, out),
        Message::Broken { fault, .. } => writer.write(asked.closes, ReplyRef::Faulty(*fault), out),
    }
}
