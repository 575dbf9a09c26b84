//! Why a message asks for nothing, and what it is answered.
ghost use Rattle.std.specs.Prelude.{◌≡◌};
ghost use Rattle.site_request.specs.Faults.{allow_of, body_of, field_body, frame_body, status_of};

use crate::field::Field;
use wire::{Methods, Response, Status, WireFault};

/// Why a message asks for nothing: the first that holds, in this order.
#[derive(Clone, Copy)]
pub enum RequestFault {
    /// It is no whole message. It ends the connection, and is nobody's.
    Frame(WireFault),
    /// There is no such path.
    Path,
    /// The path has other methods, which are these.
    Method(Methods),
    /// The field `x-member` doesn't occur exactly once as a number. The message is nobody's.
    Member,
    /// The field `x-moment` of a command doesn't occur exactly once as a moment.
    Moment,
    /// The body is no object of JSON.
    Json,
    /// This field of the body, the first, is absent or of another kind.
    Field(Field),
    /// A day of a statement is no date of 1970 to 2100.
    Date,
    /// The last day of a statement is before the first.
    Order,
}

impl RequestFault {
    /// The status of its response.
    pub fn status(self) -> Status
        ensures { result ≡ status_of self }
    {
        match self {
            RequestFault::Frame(fault) => fault.status(),
            RequestFault::Path => Status::NotFound,
            RequestFault::Method(_) => Status::MethodNotAllowed,
            _ => Status::BadRequest,
        }
    }

    /// The methods that its response allows.
    pub fn allow(self) -> Option<Methods>
        ensures { result ≡ allow_of self }
    {
        match self {
            RequestFault::Method(methods) => Some(methods),
            _ => None,
        }
    }

    /// The body of its response.
    pub fn body(self) -> &'static str
        ensures { result.now ≡ body_of self }
    {
        match self {
            RequestFault::Frame(fault) => frame_body(fault),
            RequestFault::Path => "{\"error\":\"path\"}",
            RequestFault::Method(_) => "{\"error\":\"method\"}",
            RequestFault::Member => "{\"error\":\"member\"}",
            RequestFault::Moment => "{\"error\":\"moment\"}",
            RequestFault::Json => "{\"error\":\"json\"}",
            RequestFault::Field(field) => field_body(field),
            RequestFault::Date => "{\"error\":\"date\"}",
            RequestFault::Order => "{\"error\":\"order\"}",
        }
    }

    /// Its response, after which the connection ends or not.
    pub fn response(self, closes: bool) -> Response<'static>
        ensures status { result.status ≡ status_of self }
        ensures allow { result.allow ≡ allow_of self }
        ensures closes { result.closes ≡ closes }
        ensures body { result.body.now ≡ body_of self }
    {
        Response {
            status: self.status(),
            allow: self.allow(),
            closes,
            body: self.body().as_bytes(),
        }
    }
}

// The body of the response to a broken frame.
fn frame_body(fault: WireFault) -> &'static str
    ensures { result.now ≡ frame_body fault }
{
    match fault {
        WireFault::Head => "{\"error\":\"head\"}",
        WireFault::Host => "{\"error\":\"host\"}",
        WireFault::Transfer => "{\"error\":\"transfer\"}",
        WireFault::Length => "{\"error\":\"length\"}",
        WireFault::Size => "{\"error\":\"size\"}",
        WireFault::End => "{\"error\":\"end\"}",
        WireFault::Excess => "{\"error\":\"excess\"}",
    }
}

// The body of the response to a field that is absent or of another kind.
fn field_body(field: Field) -> &'static str
    ensures { result.now ≡ field_body field }
{
    match field {
        Field::Name => "{\"error\":\"field\",\"field\":\"name\"}",
        Field::Category => "{\"error\":\"field\",\"field\":\"category\"}",
        Field::Lot => "{\"error\":\"field\",\"field\":\"lot\"}",
        Field::Title => "{\"error\":\"field\",\"field\":\"title\"}",
        Field::Text => "{\"error\":\"field\",\"field\":\"text\"}",
        Field::Start => "{\"error\":\"field\",\"field\":\"start\"}",
        Field::BuyNow => "{\"error\":\"field\",\"field\":\"buy_now\"}",
        Field::End => "{\"error\":\"field\",\"field\":\"end\"}",
        Field::Reserve => "{\"error\":\"field\",\"field\":\"reserve\"}",
        Field::Maximum => "{\"error\":\"field\",\"field\":\"maximum\"}",
        Field::Rating => "{\"error\":\"field\",\"field\":\"rating\"}",
        Field::Bands => "{\"error\":\"field\",\"field\":\"bands\"}",
    }
}
