//! What a party of a sale thinks of the other.

/// A rating.
#[derive(Clone, Copy)]
pub enum Rating {
    /// -1.
    Minus,
    /// 0.
    Zero,
    /// 1.
    Plus,
}
