//! The bytes of answers.
ghost use Rattle.std.specs.Prelude.{◌≡◌, ◌++◌, IfOk, OnOk};
ghost use Rattle.http_routes.specs.Answers.{phrase_of, status_line, head_text, bare_text, fault_status, bare_status, no_memory_text};

use http::StatusCode;
use http_messages::Fault;
use itoa::Buffer;
use std::alloc::{AllocError, Global};

/// Why a head asks for nothing, whatever its body is. Its answer has no body.
#[derive(Clone, Copy, PartialEq, Eq)]
pub enum Bare {
    /// No token, or that of no partner.
    Unauthorized,
    /// No path that is known.
    NotFound,
    /// Another method than that of the path.
    MethodNotAllowed,
}

/// The phrase of a status.
fn phrase(status: StatusCode) -> &'static str
    ensures { result.now ≡ phrase_of status }
{
    match status.canonical_reason() {
        Some(phrase) => phrase,
        None => "",
    }
}

fn push_status_line(out: &mut Vec<u8>, status: StatusCode) -> Result<(), AllocError>
    ensures { OnOk result (out.new.items ≡ out.old.items ++ status_line status) }
{
    out.extend_from_slice(b"HTTP/1.1 ")?;
    out.extend_from_slice(status.as_str().as_bytes())?;
    out.push(b' ')?;
    out.extend_from_slice(phrase(status).as_bytes())?;
    out.extend_from_slice(b"\r\n")
}

/// What stands before a body of JSON of so many bytes. The two make an answer.
pub fn answer_head(alloc: Global, status: StatusCode, size: usize) -> Result<Vec<u8>, AllocError>
    ensures { IfOk result (λ bytes. bytes.items ≡ head_text status size) }
{
    let mut out = Vec::with_capacity(alloc, 128)?;
    push_status_line(&mut out, status)?;
    out.extend_from_slice(b"Content-Type: application/json\r\nContent-Length: ")?;
    let mut digits = Buffer::new();
    out.extend_from_slice(digits.format(size).as_bytes())?;
    out.extend_from_slice(b"\r\n\r\n")?;
    Ok(out)
}

fn bad_request() -> &'static [u8]
    ensures { result.now ≡ bare_text 400 }
{
    b"HTTP/1.1 400 Bad Request\r\nContent-Length: 0\r\n\r\n"
}

fn unauthorized() -> &'static [u8]
    ensures { result.now ≡ bare_text 401 }
{
    b"HTTP/1.1 401 Unauthorized\r\nContent-Length: 0\r\n\r\n"
}

fn not_found() -> &'static [u8]
    ensures { result.now ≡ bare_text 404 }
{
    b"HTTP/1.1 404 Not Found\r\nContent-Length: 0\r\n\r\n"
}

fn method_not_allowed() -> &'static [u8]
    ensures { result.now ≡ bare_text 405 }
{
    b"HTTP/1.1 405 Method Not Allowed\r\nContent-Length: 0\r\n\r\n"
}

fn payload_too_large() -> &'static [u8]
    ensures { result.now ≡ bare_text 413 }
{
    b"HTTP/1.1 413 Payload Too Large\r\nContent-Length: 0\r\n\r\n"
}

fn head_too_large() -> &'static [u8]
    ensures { result.now ≡ bare_text 431 }
{
    b"HTTP/1.1 431 Request Header Fields Too Large\r\nContent-Length: 0\r\n\r\n"
}

fn not_implemented() -> &'static [u8]
    ensures { result.now ≡ bare_text 501 }
{
    b"HTTP/1.1 501 Not Implemented\r\nContent-Length: 0\r\n\r\n"
}

/// The answer where no request can come. It takes no memory.
pub fn fault_answer(fault: Fault) -> &'static [u8]
    ensures { result.now ≡ bare_text (fault_status fault) }
{
    match fault {
        Fault::BadHead => bad_request(),
        Fault::BadBodyLength => bad_request(),
        Fault::BodyTooLarge => payload_too_large(),
        Fault::HeadTooLarge => head_too_large(),
        Fault::CodedBody => not_implemented(),
    }
}

/// The answer to a head that asks for nothing. It takes no memory.
pub fn bare_answer(bare: Bare) -> &'static [u8]
    ensures { result.now ≡ bare_text (bare_status bare) }
{
    match bare {
        Bare::Unauthorized => unauthorized(),
        Bare::NotFound => not_found(),
        Bare::MethodNotAllowed => method_not_allowed(),
    }
}

/// The answer for want of memory. It takes none.
pub fn no_memory_answer() -> &'static [u8]
    ensures { result.now ≡ no_memory_text }
{
    b"HTTP/1.1 503 Service Unavailable\r\nContent-Type: application/json\r\nContent-Length: 41\r\n\r\n{\"refused\":{\"code\":18,\"name\":\"NoMemory\"}}"
}
