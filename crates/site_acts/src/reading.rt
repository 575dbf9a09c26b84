//! What a read is answered.
ghost use Rattle.std.specs.Prelude.{◌≡◌};
ghost use Rattle.house_rows.specs.declared.message.Message.TheVariants.{Read};
ghost use Rattle.site_acts.specs.Acted.{IsActed};

use house_rows::{Keep, KeepFault, Query};
use site_replies::{ReplyRef, ReplyWriter};

/// Appends the bytes of the page that a read is shown. After an `Err` the buffer has what it had.
pub(crate) fn read<K: Keep>(
    keep: &mut K,
    writer: &mut ReplyWriter,
    closes: bool,
    caller: u64,
    query: &Query,
    out: &mut Vec<u8>,
) -> Result<(), KeepFault>
    ensures acted { IsActed K.content K.is_failed K.is_honest K.may_leave writer.old.zone closes
        (Read caller query.now) result out.old.items out.new.items keep.old keep.new }
    ensures zone { writer.new.zone ≡ writer.old.zone }
{
    let page = pages::read(*out.allocator(), keep, caller, query)?;
    writer.write(closes, ReplyRef::Shows(&page), out)
}
