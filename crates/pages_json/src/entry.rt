//! How entries are shown, and lists of them.
ghost use Rattle.std.specs.Prelude.{◌≡◌, ◌++◌, ◌≤◌, OnErr, OnOk, length, take};
ghost use Rattle.std.specs.Io.{StartsWith};
ghost use Rattle.pages_json.specs.Words.{array_of, entries_text, text_of};

use crate::object::enclose;
use std::alloc::{AllocError, Global};

/// A way to show entries: what is on a page for each.
pub trait Shows<E> {
    ghost use Rattle.serde_json.specs.Data.{Data};

    /// The tree of an entry.
    ghost tree: { Self → E → Data };

    /// Appends its text. After an `Err` a part of it may be there.
    fn put(&self, alloc: Global, out: &mut Vec<u8>, entry: &E) -> Result<(), AllocError>
        ensures text { OnOk result
            (out.new.items ≡ out.old.items ++ text_of (tree self.now entry.now)) }
        ensures front { StartsWith out.new.items out.old.items };
}

// Appends the entries, each after its comma.
fn put_entries<E, F: Shows<E>>(
    alloc: Global,
    out: &mut Vec<u8>,
    form: &F,
    entries: &[E],
) -> Result<(), AllocError>
    ensures text { OnOk result
        (out.new.items ≡ out.old.items ++ entries_text (F.tree form.now) entries.now) }
    ensures front { StartsWith out.new.items out.old.items }
{
    for entry in entries {
        out.push(b',')?;
        form.put(alloc, out, entry)?;
    }
    Ok(())
}

/// Appends a list. After an `Err` a part of it may be there.
#[tactic(auto, using(crate::proofs::Texts::array_enclosed, crate::proofs::Texts::front_then))]
pub fn put_array<E, F: Shows<E>>(
    alloc: Global,
    out: &mut Vec<u8>,
    form: &F,
    entries: &[E],
) -> Result<(), AllocError>
    ensures text { OnOk result
        (out.new.items ≡ out.old.items ++ text_of (array_of (F.tree form.now) entries.now)) }
    ensures front { StartsWith out.new.items out.old.items }
{
    let start = out.len();
    put_entries(alloc, out, form, entries)?;
    enclose(out, start, b'[', b']')?;
    Ok(())
}

/// Appends the text of an entry to a buffer. After an `Err` the buffer has what it had.
pub fn append<E, F: Shows<E>>(
    alloc: Global,
    out: &mut Vec<u8>,
    form: &F,
    entry: &E,
) -> Result<(), AllocError>
    ensures ok { OnOk result
        (out.new.items ≡ out.old.items ++ text_of (F.tree form.now entry.now)) }
    ensures err { OnErr result (out.new.items ≡ out.old.items) }
{
    let before = out.len();
    let put = form.put(alloc, out, entry);
    finish(out, before, put)
}

/// Ends what was appended after a place: after an `Err` nothing stays of it.
pub fn finish<E>(out: &mut Vec<u8>, before: usize, put: Result<(), E>) -> Result<(), E>
    ensures same { result ≡ put }
    ensures ok { OnOk result (out.new.items ≡ out.old.items) }
    ensures err { OnErr result (out.new.items ≡ take before out.old.items) }
{
    if put.is_err() {
        out.truncate(before);
    }
    put
}
