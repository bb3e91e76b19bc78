//! The next request of a connection.
ghost use Rattle.std.specs.Prelude.{◌≡◌, ◌<◌, ◌≤◌, length, take, OnErr};
ghost use Rattle.httparse.specs.Grammar.{HasNoRequest, NeverHasRequest, MayBecomeRequest};
ghost use Rattle.httparse.specs.Outcome.{IfComplete, OnPartial};
ghost use Rattle.httparse.specs.Spans.{IsRequestWithin, IsRequestOf};
ghost use Rattle.http_messages.specs.Heads.{HasNoHead, NeverHasHead, MayBecomeHead};
ghost use Rattle.http_messages.specs.Mask.{IsHeadAt};
ghost use Rattle.http_messages.specs.Next.{IsNext, head_of};

use crate::fields::{find_token, stays};
use crate::framing::{Framing, find_framing};
use crate::mask::{copy_masked, target_in};
use crate::scratch::{HEAD_LIMIT, Scratch};
use httparse::spans::{HeaderSpan, RequestSpans, parse_request};
use httparse::{Error, Status};

/// What the head of a request says, beside the length of its body. Its texts lie in what was read.
#[derive(Clone, Copy)]
pub struct Head<'b> {
    pub method: &'b [u8],
    /// The path, as it stands in the request line.
    pub target: &'b [u8],
    /// What the first `Authorization` line has behind `Bearer `, if it is such a line.
    pub token: Option<&'b [u8]>,
    /// Whether the connection goes on after the reply.
    pub stays: bool,
}

/// A request.
#[derive(Clone, Copy)]
pub struct Message<'b> {
    pub head: Head<'b>,
    pub body: &'b [u8],
}

/// Why no request can come. The connection closes after the reply that says so.
#[derive(Clone, Copy, PartialEq, Eq)]
pub enum Fault {
    /// What stands there can't become a head.
    BadHead,
    /// The length of the body is no number of 1 to 18 digits, or two lengths differ.
    BadBodyLength,
    /// The body has over 16 MiB.
    BodyTooLarge,
    /// The head has no end within 16,384 bytes.
    HeadTooLarge,
    /// The body is coded otherwise than by its length.
    CodedBody,
}

/// What stands at the front of some bytes.
#[derive(Clone, Copy)]
pub enum Next<'b> {
    /// A request, and how many bytes it has.
    Complete(Message<'b>, usize),
    /// The head of a request whose body isn't there yet, and how many bytes the request has.
    Awaits(Head<'b>, usize),
    /// The beginning of a head.
    Partial,
    /// No request can come.
    Failed(Fault),
}

/// The most bytes of a body: 16 MiB.
const BODY_LIMIT: u64 = 16_777_216;

/// What stands at the front of the bytes of a connection.
pub fn next_message<'b>(buf: &'b [u8], scratch: &'b mut Scratch) -> Next<'b>
    ensures { IsNext buf.entry.now result }
{
    let cut = head_part(buf);
    match read_head(cut, scratch) {
        Ok(Status::Complete(head)) => with_head(buf, cut, scratch, head),
        Ok(Status::Partial) => {
            if buf.len() < HEAD_LIMIT {
                Next::Partial
            } else {
                Next::Failed(Fault::HeadTooLarge)
            }
        }
        Err(_) => Next::Failed(Fault::BadHead),
    }
}

/// Parses the head that the bytes begin with. What is found lies in the copy that is made of them.
fn read_head(cut: &[u8], scratch: &mut Scratch) -> Result<Status<RequestSpans>, Error>
    requires { length cut.now ≤ 16384 }
    ensures within { IfComplete result (IsRequestWithin (take (length cut.now) scratch.new.copy.items) scratch.new.spans.items) }
    ensures head { IfComplete result (IsHeadAt cut.now (take (length cut.now) scratch.new.copy.items) scratch.new.spans.items) }
    ensures none { OnPartial result (HasNoHead cut.now) }
    ensures may { OnPartial result (MayBecomeHead cut.now) }
    ensures never { OnErr result (NeverHasHead cut.now) }
{
    copy_masked(cut, &mut scratch.copy);
    parse(&scratch.copy[..cut.len()], &mut scratch.spans)
}

/// Parses a head. There is room for as many fields as it can have.
fn parse(text: &[u8], spans: &mut [HeaderSpan]) -> Result<Status<RequestSpans>, Error>
    requires short { length text.now ≤ 16384 }
    requires room { 5461 ≤ length spans.old }
    ensures within { IfComplete result (IsRequestWithin text.now spans.new) }
    ensures complete { IfComplete result (IsRequestOf text.now spans.new) }
    ensures none { OnPartial result (HasNoRequest text.now) }
    ensures may { OnPartial result (MayBecomeRequest text.now) }
    ensures never { OnErr result (NeverHasRequest text.now) }
{
    parse_request(text, spans)
}

/// The bytes that a head may have.
fn head_part(buf: &[u8]) -> &[u8]
    ensures cut { result.now ≡ head_of buf.now }
    ensures whole { length buf.now < 16384 → result.now ≡ buf.now }
{
    if buf.len() < HEAD_LIMIT {
        buf
    } else {
        &buf[..HEAD_LIMIT]
    }
}

/// What stands there where a head is whole, whose parts these spans cover.
fn with_head<'b>(buf: &'b [u8], cut: &'b [u8], scratch: &'b Scratch, head: RequestSpans) -> Next<'b>
    requires cut { cut.now ≡ head_of buf.now }
    requires within { IsRequestWithin (take (length cut.now) scratch.now.copy.items) scratch.now.spans.items head }
    requires head { IsHeadAt cut.now (take (length cut.now) scratch.now.copy.items) scratch.now.spans.items head }
    ensures { IsNext buf.entry.now result }
{
    let text = &scratch.copy[..cut.len()];
    let fields = &scratch.spans[..head.headers];
    match find_framing(text, fields) {
        Framing::Coded => Next::Failed(Fault::CodedBody),
        Framing::BadLength => Next::Failed(Fault::BadBodyLength),
        Framing::Sized(size) => {
            if size > BODY_LIMIT {
                return Next::Failed(Fault::BodyTooLarge);
            }
            let parts = Head {
                method: head.method.of(text),
                target: target_in(cut),
                token: find_token(text, fields),
                stays: stays(text, fields, head.version),
            };
            let end = head.len + size as usize;
            if buf.len() < end {
                return Next::Awaits(parts, end);
            }
            let body = &buf[head.len..end];
            Next::Complete(Message { head: parts, body }, end)
        }
    }
}
