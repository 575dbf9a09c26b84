//! A connection, and what became of it.
use site_serve::{ServeFault, Served};

/// A connection.
#[derive(Drop)]
pub struct Connection<R, W> {
    /// Where its messages come from.
    pub source: R,
    /// Where its replies go.
    pub sink: W,
}

/// A connection that was served.
#[derive(Drop)]
pub struct Ended<R, W> {
    /// What is left of it.
    pub connection: Connection<R, W>,
    /// The result of serving it.
    pub report: Result<Served, ServeFault>,
}
