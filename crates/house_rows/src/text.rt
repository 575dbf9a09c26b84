//! A text of the house.
ghost use Rattle.std.specs.Prelude.{◌≡◌, length, string_bytes, IfOk};
ghost use Rattle.std.specs.Rc.{rc_str_bytes};
ghost use Rattle.house_rows.specs.Text.{is_plain};

use std::alloc::{AllocError, Global};
use std::marker::Model;
use std::rc::RcStr;

/// A text, whose clones share its bytes. Clauses see these, which are UTF-8.
#[derive(Drop)]
pub struct Text {
    inner: RcStr,
}

impl Model for Text {
    ghost use Rattle.std.specs.Prelude.{List, ℕ};
    ghost use Rattle.std.specs.Rc.{rc_str_bytes};

    ghost Value = { List ℕ };

    ghost view = { λ t. rc_str_bytes t.inner };
}

impl Text {
    /// The text of a string.
    pub fn from_string(inner: String) -> Result<Text, AllocError>
        ensures { IfOk result (λ t. t ≡ string_bytes inner) }
    {
        Ok(Text {
            inner: RcStr::from_string(inner)?,
        })
    }

    /// A copy of a text.
    pub fn copy_of(alloc: Global, text: &str) -> Result<Text, AllocError>
        ensures { IfOk result (λ t. t ≡ text.now) }
    {
        Ok(Text {
            inner: RcStr::from_str(alloc, text)?,
        })
    }

    /// The same text, with one more owner.
    pub fn try_clone(&self) -> Result<Text, AllocError>
        ensures { IfOk result (λ t. t ≡ self.now) }
    {
        Ok(Text {
            inner: self.inner.clone()?,
        })
    }

    /// Its bytes, with one more owner.
    pub fn to_shared(&self) -> Result<RcStr, AllocError>
        ensures { IfOk result (λ s. rc_str_bytes s ≡ self.now) }
    {
        self.inner.clone()
    }

    /// The text.
    pub fn as_str(&self) -> &str
        ensures { result.now ≡ self.now }
    {
        self.inner.as_str()
    }

    /// Its length in bytes.
    pub fn len(&self) -> usize
        ensures { result ≡ length self.now }
    {
        self.inner.len()
    }

    /// Whether it has none of the control characters, U+0000 to U+001F and U+007F.
    pub fn is_plain(&self) -> bool
        ensures { result ≡ is_plain self.now }
    {
        self.inner
            .as_str()
            .as_bytes()
            .iter()
            .all(|b| *b >= 32 && *b != 127)
    }
}
