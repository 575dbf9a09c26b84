//! The bytes of a response.
ghost use Rattle.std.specs.Prelude.{◌≡◌, ◌++◌, IfOk, OnErr, OnOk, take, vec_len};
ghost use Rattle.wire.specs.Response.{head_end, head_start, response_bytes};

use crate::methods::Methods;
use status::Status;
use std::alloc::{AllocError, Global};

// No head of a response is longer.
const MOST_HEAD: usize = 192;

/// A response of JSON.
#[derive(Clone, Copy)]
pub struct Response<'a> {
    pub status: Status,
    /// The methods of the path, which the status 405 asks for (RFC 9110, 15.5.6).
    pub allow: Option<Methods>,
    /// Whether the connection ends after the response.
    pub closes: bool,
    pub body: &'a [u8],
}

// A response up to the number of its content-length, in one piece, so that it is one copy.
fn head_start(status: Status) -> &'static [u8]
    ensures { result.now ≡ head_start status }
{
    match status {
        Status::Success => b"HTTP/1.1 200 OK\r\ncontent-type: application/json\r\ncontent-length: ",
        Status::Created =>
            b"HTTP/1.1 201 Created\r\ncontent-type: application/json\r\ncontent-length: ",
        Status::BadRequest =>
            b"HTTP/1.1 400 Bad Request\r\ncontent-type: application/json\r\ncontent-length: ",
        Status::Forbidden =>
            b"HTTP/1.1 403 Forbidden\r\ncontent-type: application/json\r\ncontent-length: ",
        Status::NotFound =>
            b"HTTP/1.1 404 Not Found\r\ncontent-type: application/json\r\ncontent-length: ",
        Status::MethodNotAllowed => {
            b"HTTP/1.1 405 Method Not Allowed\r\ncontent-type: application/json\r\ncontent-length: "
        }
        Status::Conflict =>
            b"HTTP/1.1 409 Conflict\r\ncontent-type: application/json\r\ncontent-length: ",
        Status::ContentTooLarge => {
            b"HTTP/1.1 413 Content Too Large\r\ncontent-type: application/json\r\ncontent-length: "
        }
        Status::InternalServerError => {
            b"HTTP/1.1 500 Internal Server Error\r\ncontent-type: application/json\r\ncontent-length: "
        }
        Status::NotImplemented => {
            b"HTTP/1.1 501 Not Implemented\r\ncontent-type: application/json\r\ncontent-length: "
        }
        Status::ServiceUnavailable => {
            b"HTTP/1.1 503 Service Unavailable\r\ncontent-type: application/json\r\ncontent-length: "
        }
    }
}

// What is between the number of the content-length and the body, in one piece.
#[tactic(auto, unfolding(crate::specs::Response::head_end, crate::specs::Response::allow_field, crate::specs::Response::closing_field))]
fn head_end(allow: Option<Methods>, closes: bool) -> &'static [u8]
    ensures { result.now ≡ head_end allow closes }
{
    match (allow, closes) {
        (None, false) => b"\r\n\r\n",
        (None, true) => b"\r\nconnection: close\r\n\r\n",
        (Some(Methods::Get), false) => b"\r\nallow: GET\r\n\r\n",
        (Some(Methods::Get), true) => b"\r\nallow: GET\r\nconnection: close\r\n\r\n",
        (Some(Methods::Post), false) => b"\r\nallow: POST\r\n\r\n",
        (Some(Methods::Post), true) => b"\r\nallow: POST\r\nconnection: close\r\n\r\n",
        (Some(Methods::GetAndPost), false) => b"\r\nallow: GET, POST\r\n\r\n",
        (Some(Methods::GetAndPost), true) => b"\r\nallow: GET, POST\r\nconnection: close\r\n\r\n",
    }
}

impl Response<'_> {
    /// Appends the bytes of the response, for which room is made first. After an `Err` the buffer
    /// has what it had.
    pub fn write_into(&self, out: &mut Vec<u8>) -> Result<(), AllocError>
        ensures ok { OnOk result (out.new.items
            ≡ out.old.items ++ response_bytes self.now.status self.now.allow self.now.closes self.now.body.now) }
        ensures err { OnErr result (out.new.items ≡ out.old.items) }
    {
        let before = out.len();
        let written = self.append_to(out);
        if written.is_err() {
            out.truncate(before);
        }
        written
    }

    // Appends the bytes of the response, or some of them.
    fn append_to(&self, out: &mut Vec<u8>) -> Result<(), AllocError>
        ensures ok { OnOk result (out.new.items
            ≡ out.old.items ++ response_bytes self.now.status self.now.allow self.now.closes self.now.body.now) }
        ensures err { OnErr result (take (vec_len out.old) out.new.items ≡ out.old.items) }
    {
        let mut digits = itoa::Buffer::new();
        out.reserve(self.body.len().saturating_add(MOST_HEAD))?;
        out.extend_from_slice(head_start(self.status))?;
        out.extend_from_slice(digits.format(self.body.len()).as_bytes())?;
        out.extend_from_slice(head_end(self.allow, self.closes))?;
        out.extend_from_slice(self.body)?;
        Ok(())
    }

    /// The bytes of the response, in a buffer of their own.
    pub fn to_bytes(&self, alloc: Global) -> Result<Vec<u8>, AllocError>
        ensures { IfOk result (λ bytes. bytes.items
            ≡ response_bytes self.now.status self.now.allow self.now.closes self.now.body.now) }
    {
        let mut bytes = Vec::new(alloc);
        self.write_into(&mut bytes)?;
        Ok(bytes)
    }
}
