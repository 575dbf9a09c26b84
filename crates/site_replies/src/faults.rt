//! The replies that take no memory.
ghost use Rattle.std.specs.Prelude.{◌≡◌};
ghost use Rattle.site_replies.specs.Texts.{fault_text};

use house_rows::KeepFault;
use wire::{damaged_row, failed_store, no_memory};

/// The bytes of the reply to a message that met a fault of the keep, which are ready and take no
/// memory: 503 where memory was refused, else 500 (RFC 9110, 15.6.4 and 15.6.1).
#[tactic(auto, unfolding(crate::specs::Texts::fault_text))]
pub fn fault_text(fault: KeepFault, closes: bool) -> &'static [u8]
    ensures { result.now ≡ fault_text fault closes }
{
    match fault {
        KeepFault::Memory => no_memory(closes),
        KeepFault::Store => failed_store(closes),
        KeepFault::Damaged => damaged_row(closes),
    }
}
