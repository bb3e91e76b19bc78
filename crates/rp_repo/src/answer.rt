//! One line, one reply.
ghost use Rattle.std.specs.Prelude.{◌≡◌, ◌<◌, ℕ, List, length, IfOk, OnOk, OnErr, IsErrOf, MatchOption, Some, None};
ghost use Rattle.rp_io.specs.Lines.{Holds};
ghost use Rattle.rp_plain.specs.Turns.{effect};
ghost use Rattle.rp_core.specs.Held.{partner_at, turn, made};
ghost use Rattle.rp_requests.specs.Asks.{asked_of};
ghost use Rattle.rp_replies.specs.Replies.{line_of_reply};
ghost use Rattle.rp_repo.specs.Ready.{IsReady};
ghost use Rattle.rp_repo.specs.LineRuns.{caller_of, turn_for, meant_for, meant, Answers};

use crate::repository::{Caller, Repository};
use plain_data::Text;
use rp_core::Pending;
use rp_io::Room;
use rp_plain::messages::{Refusal, Reply, Request};
use rp_replies::reply_line;
use rp_requests::{RequestLine, Unread, request_of};
use std::alloc::{AllocError, Global};

/// The bytes of the block that is freed in place of a large one.
const SMALL: usize = 4096;

/// The reply line of a line, of which this was kept, unless memory is wanting.
///
/// The bytes of the reply are made before the change, so that nothing is changed where there are none. The memory of the
/// line is given back before the request is handled.
pub fn answer(
    alloc: Global,
    repository: &mut Repository<'_>,
    room: Room,
    kept: Vec<u8>,
) -> Result<Vec<u8>, AllocError>
    ensures made { IfOk result (λ bytes. (line : List ℕ) → Holds room kept.items line →
        Answers repository.old.content repository.new.content (meant repository.old.content line) bytes.items) }
    ensures refused { OnErr result (repository.new.content ≡ repository.old.content) }
{
    match room {
        Room::Kept => answer_kept(alloc, repository, kept),
        Room::TooLarge => refused(alloc, Refusal::TooLarge),
        Room::NoRoom => Err(AllocError),
    }
}

fn refused(alloc: Global, refusal: Refusal) -> Result<Vec<u8>, AllocError>
    ensures { IfOk result (λ bytes. bytes.items ≡ line_of_reply (Reply.Refused refusal)) }
{
    reply_line(alloc, &Reply::Refused(refusal))
}

/// Lets go of bytes. Their block is made small before it is freed: whoever frees a large one has the C library take later ones
/// of that size from its heap, which gives nothing back to the system.
pub fn release(mut bytes: Vec<u8>) {
    bytes.clear();
    bytes.shrink_to(SMALL);
}

/// The request of a line, which is let go of: the texts of the request are its own.
fn request_from(alloc: Global, line: Vec<u8>) -> Result<RequestLine, Unread>
    ensures ok { IfOk result (λ asked. asked_of line.items ≡ Some asked) }
    ensures bad { IsErrOf result Unread.BadRequest → asked_of line.items ≡ None }
{
    let asked = request_of(alloc, &line);
    release(line);
    asked
}

fn answer_kept(
    alloc: Global,
    repository: &mut Repository<'_>,
    line: Vec<u8>,
) -> Result<Vec<u8>, AllocError>
    ensures made { IfOk result (λ bytes.
        let old = repository.old.content in
        Answers old repository.new.content (meant_for old Refusal.BadRequest (turn_for old.partners (asked_of line.items))) bytes.items) }
    ensures refused { OnErr result (repository.new.content ≡ repository.old.content) }
{
    match request_from(alloc, line) {
        Ok(asked) => answer_asked(alloc, repository, asked),
        Err(Unread::BadRequest) => refused(alloc, Refusal::BadRequest),
        Err(Unread::NoMemory) => Err(AllocError),
    }
}

fn answer_asked(
    alloc: Global,
    repository: &mut Repository<'_>,
    asked: RequestLine,
) -> Result<Vec<u8>, AllocError>
    ensures made { IfOk result (λ bytes.
        let old = repository.old.content in
        Answers old repository.new.content (meant_for old Refusal.BadRequest (turn_for old.partners (Some asked))) bytes.items) }
    ensures refused { OnErr result (repository.new.content ≡ repository.old.content) }
{
    let RequestLine { caller, request } = asked;
    match partner_of(repository, caller) {
        Some(partner) => answer_turn(alloc, repository, partner, request),
        None => {
            // (A call, since a request that goes out of scope is opened here for each of its sorts.)
            drop(request);
            refused(alloc, Refusal::BadRequest)
        }
    }
}

/// The partner whom a line names. A line has to name one.
fn partner_of(repository: &Repository<'_>, name: Option<Text>) -> Option<Caller>
    ensures { let old = repository.now.content in
        MatchOption result (caller_of old.partners name ≡ None)
        (λ place. (place < length old.partners) × (caller_of old.partners name ≡ Some (partner_at old place))) }
{
    let name = name?;
    repository.caller(&name)
}

/// One turn of a partner.
fn answer_turn(
    alloc: Global,
    repository: &mut Repository<'_>,
    partner: Caller,
    request: Request,
) -> Result<Vec<u8>, AllocError>
    requires { partner < length repository.old.content.partners }
    ensures made { IfOk result (λ bytes.
        let old = repository.old.content in
        Answers old repository.new.content (effect old (turn old partner request)) bytes.items) }
    ensures refused { OnErr result (repository.new.content ≡ repository.old.content) }
{
    let pending = repository.prepare(alloc, partner, request);
    answer_prepared(alloc, repository, pending)
}

/// Makes the bytes of the reply, and then the change.
fn answer_prepared(
    alloc: Global,
    repository: &mut Repository<'_>,
    pending: Pending,
) -> Result<Vec<u8>, AllocError>
    requires { IsReady repository.old pending }
    ensures made { IfOk result (λ bytes. bytes.items ≡ line_of_reply pending.reply) }
    ensures changed { OnOk result (repository.new.content ≡ made pending.steps repository.old) }
    ensures refused { OnErr result (repository.new.content ≡ repository.old.content) }
{
    match reply_line(alloc, pending.reply()) {
        Ok(bytes) => {
            let _ = repository.commit(pending);
            Ok(bytes)
        }
        Err(error) => {
            // (A call, since what is pending and goes out of scope is opened here down to its texts.)
            drop(pending);
            Err(error)
        }
    }
}
