//! Why bytes are no message.
ghost use Rattle.std.specs.Prelude.{◌≡◌};
ghost use Rattle.wire.specs.Fault.{number_of, status_of, word_of};

use status::Status;
use thiserror::Error;

/// Why bytes are no message of the profile: the first that holds, in this order. Each ends the
/// connection.
#[derive(Clone, Copy, Debug, Error)]
pub enum WireFault {
    /// There is no head of at most 8192 bytes and 64 fields, or the input ends inside one.
    #[error("no head of a request")]
    Head = 1,
    /// HTTP/1.1 without exactly one `host` (RFC 9112, 3.2).
    #[error("not exactly one host")]
    Host = 2,
    /// There is a `transfer-encoding` (RFC 9112, 6.1), which this server does not read.
    #[error("a transfer coding")]
    Transfer = 3,
    /// There is more than one `content-length`, or it isn't one or more digits (RFC 9112, 6.3).
    #[error("no length of a body")]
    Length = 4,
    /// The body is announced with more than 16384 bytes.
    #[error("a body of more than 16384 bytes")]
    Size = 5,
    /// The input ends inside the body.
    #[error("the input ends inside the body")]
    End = 6,
    /// Bytes come after the one message.
    #[error("bytes after the message")]
    Excess = 7,
}

impl WireFault {
    /// The number of the fault, from 1 to 7.
    pub fn number(self) -> u32
        ensures { result ≡ number_of self }
    {
        self as u32
    }

    /// The status of its response.
    pub fn status(self) -> Status
        ensures { result ≡ status_of self }
    {
        match self {
            WireFault::Transfer => Status::NotImplemented,
            WireFault::Size => Status::ContentTooLarge,
            _ => Status::BadRequest,
        }
    }

    /// The word that its response gives.
    pub fn word(self) -> &'static str
        ensures { result.now ≡ word_of self }
    {
        match self {
            WireFault::Head => "head",
            WireFault::Host => "host",
            WireFault::Transfer => "transfer",
            WireFault::Length => "length",
            WireFault::Size => "size",
            WireFault::End => "end",
            WireFault::Excess => "excess",
        }
    }
}
