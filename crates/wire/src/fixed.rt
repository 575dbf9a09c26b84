//! Responses that take no memory, as texts that are ready.
ghost use Rattle.std.specs.Prelude.{◌≡◌, None, codes, true};
ghost use Rattle.wire.specs.Response.{error_body, response_bytes};
ghost use Rattle.wire.specs.Fault.{status_of, word_of};
ghost use Rattle.status.specs.declared.Status.TheVariants.{InternalServerError, ServiceUnavailable};

use crate::fault::WireFault;

/// The response of a house that is out of memory. It takes none itself.
pub fn no_memory(closes: bool) -> &'static [u8]
    ensures { result.now ≡ response_bytes ServiceUnavailable None closes (error_body (codes "memory")) }
{
    if closes {
        b"HTTP/1.1 503 Service Unavailable\r\ncontent-type: application/json\r\n\
        content-length: 18\r\nconnection: close\r\n\r\n{\"error\":\"memory\"}"
    } else {
        b"HTTP/1.1 503 Service Unavailable\r\ncontent-type: application/json\r\ncontent-length: 18\r\n\r\n{\"error\":\"memory\"}"
    }
}

/// The response where the store failed.
pub fn failed_store(closes: bool) -> &'static [u8]
    ensures { result.now ≡ response_bytes InternalServerError None closes (error_body (codes "store")) }
{
    if closes {
        b"HTTP/1.1 500 Internal Server Error\r\ncontent-type: application/json\r\n\
        content-length: 17\r\nconnection: close\r\n\r\n{\"error\":\"store\"}"
    } else {
        b"HTTP/1.1 500 Internal Server Error\r\ncontent-type: application/json\r\ncontent-length: 17\r\n\r\n{\"error\":\"store\"}"
    }
}

/// The response where a row of the store doesn't fit its type.
pub fn damaged_row(closes: bool) -> &'static [u8]
    ensures { result.now ≡ response_bytes InternalServerError None closes (error_body (codes "damaged")) }
{
    if closes {
        b"HTTP/1.1 500 Internal Server Error\r\ncontent-type: application/json\r\n\
        content-length: 19\r\nconnection: close\r\n\r\n{\"error\":\"damaged\"}"
    } else {
        b"HTTP/1.1 500 Internal Server Error\r\ncontent-type: application/json\r\ncontent-length: 19\r\n\r\n{\"error\":\"damaged\"}"
    }
}

/// The response to a broken frame. It ends the connection.
pub fn broken_frame(fault: WireFault) -> &'static [u8]
    ensures { result.now ≡ response_bytes (status_of fault) None true (error_body (word_of fault)) }
{
    match fault {
        WireFault::Head => {
            b"HTTP/1.1 400 Bad Request\r\ncontent-type: application/json\r\ncontent-length: 16\r\n\
            connection: close\r\n\r\n{\"error\":\"head\"}"
        }
        WireFault::Host => {
            b"HTTP/1.1 400 Bad Request\r\ncontent-type: application/json\r\ncontent-length: 16\r\n\
            connection: close\r\n\r\n{\"error\":\"host\"}"
        }
        WireFault::Transfer => {
            b"HTTP/1.1 501 Not Implemented\r\ncontent-type: application/json\r\n\
            content-length: 20\r\nconnection: close\r\n\r\n{\"error\":\"transfer\"}"
        }
        WireFault::Length => {
            b"HTTP/1.1 400 Bad Request\r\ncontent-type: application/json\r\ncontent-length: 18\r\n\
            connection: close\r\n\r\n{\"error\":\"length\"}"
        }
        WireFault::Size => {
            b"HTTP/1.1 413 Content Too Large\r\ncontent-type: application/json\r\n\
            content-length: 16\r\nconnection: close\r\n\r\n{\"error\":\"size\"}"
        }
        WireFault::End => {
            b"HTTP/1.1 400 Bad Request\r\ncontent-type: application/json\r\ncontent-length: 15\r\n\
            connection: close\r\n\r\n{\"error\":\"end\"}"
        }
        WireFault::Excess => {
            b"HTTP/1.1 400 Bad Request\r\ncontent-type: application/json\r\ncontent-length: 18\r\n\
            connection: close\r\n\r\n{\"error\":\"excess\"}"
        }
    }
}
