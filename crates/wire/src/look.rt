//! A look at the bytes of a stream that are held.
ghost use Rattle.wire.specs.Look.{IsLook};

use crate::fault::WireFault;
use crate::front::{Missing, front};
use crate::request::Request;

/// What the bytes held are.
#[derive(Drop)]
pub enum Look<'b> {
    /// A whole message is at the front.
    Whole(Request<'b>),
    /// More bytes may make a message of them.
    More,
    /// Nothing is held, and the input has ended.
    Clean,
    /// Something is held, and no message is ever there.
    Fault(WireFault),
}

/// Looks at the bytes held. `ended` says that no more will come.
pub(crate) fn look_at<'b>(held: &'b [u8], ended: bool) -> Look<'b>
    ensures { IsLook held.now ended result }
{
    if held.is_empty() {
        return if ended { Look::Clean } else { Look::More };
    }
    match front(held) {
        Ok(request) => Look::Whole(request),
        Err(Missing::Fault(fault)) => Look::Fault(fault),
        Err(Missing::Head) => if ended {
            Look::Fault(WireFault::Head)
        } else {
            Look::More
        },
        Err(Missing::Body) => if ended {
            Look::Fault(WireFault::End)
        } else {
            Look::More
        },
    }
}
