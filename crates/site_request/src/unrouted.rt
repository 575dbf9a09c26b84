//! Why a message has no route.
use wire::Methods;

/// Why a method and a target have no route.
#[derive(Clone, Copy)]
pub enum RouteFault {
    /// The target fits no pattern, or has no number where its pattern has one.
    Path,
    /// The path has other methods, which are these.
    Method(Methods),
}
