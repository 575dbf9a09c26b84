//! Why a body gives no command.
use crate::field::Field;
use std::alloc::AllocError;

/// What is wrong with a body: the first that holds.
#[derive(Clone, Copy)]
pub enum Wrong {
    /// It is no object of JSON.
    NoObject,
    /// This field, the first in the order of the command's fields, is absent or of another kind.
    Field(Field),
}

/// Why no command was read.
#[derive(Clone, Copy)]
pub enum Unread {
    /// The body is wrong.
    Wrong(Wrong),
    /// Memory ran out.
    Memory,
}

impl From<AllocError> for Unread {
    ghost use Rattle.std.specs.Prelude.{◌≡◌};
    ghost use Rattle.site_request.specs.declared.unread.Unread.TheVariants.{Memory};

    ghost from_gives = { λ _ e. e ≡ Memory };

    fn from(_: AllocError) -> Unread {
        Unread::Memory
    }
}
