//! A text as one message.
ghost use Rattle.wire.specs.Frame.{IsFrame};

use crate::fault::WireFault;
use crate::front::{Missing, front};
use crate::request::Request;

/// The one message that the text is, or the first fault of its frame. It takes no memory.
pub fn whole<'b>(text: &'b [u8]) -> Result<Request<'b>, WireFault>
    ensures { IsFrame text.now result }
{
    match front(text) {
        Ok(request) => {
            if request.length() == text.len() {
                Ok(request)
            } else {
                Err(WireFault::Excess)
            }
        }
        Err(Missing::Head) => Err(WireFault::Head),
        Err(Missing::Body) => Err(WireFault::End),
        Err(Missing::Fault(fault)) => Err(fault),
    }
}
