//! The bytes of answers.
ghost use Rattle.std.specs.Prelude.{◌≡◌, ◌++◌, IfOk};
ghost use Rattle.rp_messages.specs.Answers.{refusal_status, reply_status, answer_of_reply};
ghost use Rattle.rp_http.specs.Bytes.{text_in};

use http::StatusCode;
use http_routes::answer_head;
use rp_plain::messages::{Refusal, Reply};
use rp_replies::reply_bytes;
use rp_repo::release;
use std::alloc::{AllocError, Global};

/// The most bytes of a body that stands in one block with its head, so that one write sends both. A longer one isn't copied.
const JOINED: usize = 65_536;

/// The bytes of an answer.
#[derive(Drop)]
pub enum AnswerBytes {
    Fixed(&'static [u8]),
    /// A head and a body in one block.
    Joined(Vec<u8>),
    /// A head, and a body.
    Parted(Vec<u8>, Vec<u8>),
}

impl AnswerBytes {
    /// Lets go of the bytes.
    pub(crate) fn release(self) {
        match self {
            AnswerBytes::Fixed(_) => {}
            AnswerBytes::Joined(bytes) => release(bytes),
            AnswerBytes::Parted(head, body) => {
                release(head);
                release(body);
            }
        }
    }
}

fn refusal_status(refusal: Refusal) -> StatusCode
    ensures { result ≡ refusal_status refusal }
{
    match refusal {
        Refusal::BadRequest | Refusal::BadName | Refusal::UnknownPartner | Refusal::UnknownSchema =>
            StatusCode::BAD_REQUEST,
        Refusal::TooLarge => StatusCode::PAYLOAD_TOO_LARGE,
        Refusal::NoSuchItem | Refusal::NoSuchInstance => StatusCode::NOT_FOUND,
        Refusal::NoRight => StatusCode::FORBIDDEN,
        Refusal::NoMemory => StatusCode::SERVICE_UNAVAILABLE,
        _ => StatusCode::CONFLICT,
    }
}

fn reply_status(reply: &Reply) -> StatusCode
    ensures { result ≡ reply_status reply.now }
{
    match reply {
        Reply::Refused(refusal) => refusal_status(*refusal),
        _ => StatusCode::OK,
    }
}

/// The bytes of the answer that a reply is: its JSON, with a head before it.
pub fn answer_bytes(alloc: Global, reply: &Reply) -> Result<AnswerBytes, AllocError>
    ensures { IfOk result (λ bytes. text_in bytes ≡ answer_of_reply reply.now) }
{
    let body = reply_bytes(alloc, reply)?;
    let head = answer_head(alloc, reply_status(reply), body.len())?;
    join(head, body)
}

/// A head with its body, in one block where the body is small.
fn join(mut head: Vec<u8>, body: Vec<u8>) -> Result<AnswerBytes, AllocError>
    ensures { IfOk result (λ bytes. text_in bytes ≡ head.items ++ body.items) }
{
    if body.len() > JOINED {
        return Ok(AnswerBytes::Parted(head, body));
    }
    head.extend_from_slice(&body)?;
    Ok(AnswerBytes::Joined(head))
}
