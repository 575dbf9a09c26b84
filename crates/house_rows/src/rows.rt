//! The rows of a page.
ghost use Rattle.std.specs.Prelude.{◌≡◌};

use std::marker::Model;

/// The rows of a page, in order. Clauses see their list.
#[derive(Drop)]
pub struct Rows<T> {
    inner: Vec<T>,
}

impl<T> Model for Rows<T> {
    ghost use Rattle.std.specs.Prelude.{List};

    ghost Value = { List T };

    ghost view = { λ rows. rows.inner.items };
}

impl<T> Rows<T> {
    /// The rows of a vector.
    pub fn new(inner: Vec<T>) -> Rows<T>
        ensures { result ≡ inner.items }
    {
        Rows { inner }
    }

    /// The rows.
    pub fn as_slice(&self) -> &[T]
        ensures { result.now ≡ self.now }
    {
        self.inner.as_slice()
    }
}
