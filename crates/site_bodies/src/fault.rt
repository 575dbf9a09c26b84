//! Why a body isn't read.

/// Why a body isn't read.
#[derive(Clone, Copy)]
pub enum BodyFault {
    /// It is no object of JSON.
    NoObject,
    /// Memory ran out.
    Memory,
}
