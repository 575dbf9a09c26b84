//! How a call of the keep ends.
ghost use Rattle.std.specs.Prelude.{◌≡◌, ◌↔◌, true, false};
ghost use Rattle.sqlite.specs.State.{HasCleanDisk, IsUnchanged, Survives};
ghost use Rattle.sqlite.specs.Held.{state};
ghost use Rattle.house_rows.specs.declared.fault.KeepFault.TheVariants.{Store};

use house_rows::KeepFault;
use sqlite::{Alter, Connection};
use store_rows::is_still_open;

/// Which fault a call reports, where a statement on the tables failed. It is Store where the
/// connection serves no more, and the keep has then failed.
pub(crate) fn reported_fault<S: Alter>(
    conn: &mut Connection<S>,
    failed: &mut bool,
    fault: KeepFault,
) -> KeepFault
    requires { failed.old ≡ false }
    ensures fault { failed.new ≡ false → result ≡ fault }
    ensures store { (result ≡ Store) ↔ (failed.new ≡ true) }
    ensures same { HasCleanDisk (state S.Store conn.new)
        → failed.new ≡ false
        → IsUnchanged (state S.Store conn.old) (state S.Store conn.new) }
    ensures mode { conn.old.in_transaction ≡ false → conn.new.in_transaction ≡ false }
    ensures crash { Survives (state S.Store conn.old) (state S.Store conn.new) (λ _. ⊥) }
{
    if matches!(fault, KeepFault::Store) || !is_still_open(conn) {
        *failed = true;
        KeepFault::Store
    } else {
        fault
    }
}
