//! One turn of a connection: the first message of what came.
ghost use Rattle.std.specs.Prelude.{◌≡◌, ◌≤◌, ◌<◌, ℕ, List, length, Err, IfOk, OnOk, OnErr};
ghost use Rattle.rp_core.specs.Held.{made};
ghost use Rattle.rp_messages.specs.Answers.{answer_of_reply};
ghost use Rattle.rp_messages.specs.Meaning.{meant_by};
ghost use Rattle.rp_messages.specs.Routing.{Routed, Asks};
ghost use Rattle.rp_plain.specs.Plain.{Plain};
ghost use Rattle.rp_plain.specs.declared.messages.Refusal.TheVariants as refusals;
ghost use Rattle.rp_plain.specs.declared.messages.Reply.TheVariants as replies;
ghost use Rattle.rp_repo.specs.Ready.{IsReady};
ghost use Rattle.rp_http.specs.Bytes.{text_in};
ghost use Rattle.rp_http.specs.Inboxes.{IsLooked, Holds};
ghost use Rattle.rp_http.specs.Turns.{Answers, IsTurn, IsLess, Leaves, IsRouted, IsToldOr, dropped_text};

use crate::answers::{AnswerBytes, answer_bytes};
use crate::inbox::{Dropped, Inbox, Ready};
use http_messages::{Fault, Next, Scratch, next_message};
use http_routes::{Tokens, bare_answer, no_memory_answer};
use rp_core::Pending;
use rp_messages::{Asked, Unrouted, route, route_head};
use rp_plain::messages::{Refusal, Reply, Request};
use rp_repo::Repository;
use std::alloc::{AllocError, Global};

/// What a turn came to.
#[derive(Drop)]
pub enum Turn {
    /// A message was answered, and the connection goes on or doesn't.
    Answered(AnswerBytes, bool),
    /// No message can come.
    Refused(Fault),
    /// More bytes have to come.
    Wants,
}

/// Answers the first message that came, if it is there whole.
pub fn take_turn(
    alloc: Global,
    repository: &mut Repository<'_>,
    tokens: &Tokens,
    inbox: &mut Inbox,
    scratch: &mut Scratch,
) -> Turn
    requires { length tokens.now ≤ length repository.old.content.partners }
    ensures turn { (came : List ℕ) → Holds tokens.now came inbox.old → IsTurn tokens.now came inbox.new repository.old.content repository.new.content result }
    ensures run { Leaves tokens.now repository.old.content repository.new.content }
    ensures less { IsLess inbox.old inbox.new result }
{
    match inbox.ready() {
        Ready::Looks => look(alloc, repository, tokens, inbox, scratch),
        Ready::Waits => Turn::Wants,
        Ready::Skipped(stays, why) => {
            inbox.clear();
            Turn::Answered(AnswerBytes::Fixed(dropped_answer(why)), stays)
        }
    }
}

fn dropped_answer(why: Dropped) -> &'static [u8]
    ensures { result.now ≡ dropped_text why }
{
    match why {
        Dropped::ByHead(bare) => bare_answer(bare),
        Dropped::NoMemory => no_memory_answer(),
    }
}

/// Looks for a message in the bytes that are at hand.
fn look(
    alloc: Global,
    repository: &mut Repository<'_>,
    tokens: &Tokens,
    inbox: &mut Inbox,
    scratch: &mut Scratch,
) -> Turn
    requires few { length tokens.now ≤ length repository.old.content.partners }
    requires looked { IsLooked inbox.old }
    ensures turn { (came : List ℕ) → Holds tokens.now came inbox.old → IsTurn tokens.now came inbox.new repository.old.content repository.new.content result }
    ensures run { Leaves tokens.now repository.old.content repository.new.content }
    ensures less { IsLess inbox.old inbox.new result }
{
    match next_message(inbox.shown(), scratch) {
        Next::Complete(message, size) => {
            let stays = message.head.stays;
            let asked = route(alloc, &message, tokens);
            inbox.use_up(size);
            Turn::Answered(answer(alloc, repository, asked), stays)
        }
        Next::Awaits(head, size) => {
            let stays = head.stays;
            match route_head(&head, tokens) {
                Ok(_) => inbox.gather(alloc, size, stays),
                Err(bare) => inbox.skip(size, stays, Dropped::ByHead(bare)),
            }
            Turn::Wants
        }
        Next::Partial => Turn::Wants,
        Next::Failed(fault) => Turn::Refused(fault),
    }
}

/// Answers what a message asks for.
fn answer(
    alloc: Global,
    repository: &mut Repository<'_>,
    asked: Result<Asked, Unrouted>,
) -> AnswerBytes
    requires { IfOk asked (λ found. found.partner < length repository.old.content.partners) }
    ensures { (routed : Routed) → IsRouted routed asked → Answers repository.old.content repository.new.content (meant_by repository.old.content routed) (text_in result) }
{
    match asked {
        Ok(asked) => {
            let Asked { partner, request } = asked;
            answer_turn(alloc, repository, partner, request)
        }
        Err(why) => answer_unrouted(alloc, why),
    }
}

/// Answers a message that asks for nothing.
fn answer_unrouted(alloc: Global, why: Unrouted) -> AnswerBytes
    ensures { (r : Plain) (routed : Routed) → IsRouted routed (Err why) → Answers r r (meant_by r routed) (text_in result) }
{
    match why {
        Unrouted::Head(bare) => AnswerBytes::Fixed(bare_answer(bare)),
        Unrouted::BadRequest => refused(alloc),
        Unrouted::NoMemory => AnswerBytes::Fixed(no_memory_answer()),
    }
}

/// The answer to a body that is no request.
fn refused(alloc: Global) -> AnswerBytes
    ensures { IsToldOr (replies.Refused refusals.BadRequest) (text_in result) }
{
    match answer_bytes(alloc, &Reply::Refused(Refusal::BadRequest)) {
        Ok(bytes) => bytes,
        Err(AllocError) => AnswerBytes::Fixed(no_memory_answer()),
    }
}

/// One turn of a partner.
fn answer_turn(
    alloc: Global,
    repository: &mut Repository<'_>,
    partner: usize,
    request: Request,
) -> AnswerBytes
    requires { partner < length repository.old.content.partners }
    ensures { let old = repository.old.content in Answers old repository.new.content (meant_by old (Asks partner request)) (text_in result) }
{
    let caller = repository.caller_at(partner);
    let pending = repository.prepare(alloc, caller, request);
    match answer_prepared(alloc, repository, pending) {
        Ok(bytes) => bytes,
        Err(AllocError) => AnswerBytes::Fixed(no_memory_answer()),
    }
}

/// Makes the bytes of the reply, and then the change.
fn answer_prepared(
    alloc: Global,
    repository: &mut Repository<'_>,
    pending: Pending,
) -> Result<AnswerBytes, AllocError>
    requires { IsReady repository.old pending }
    ensures made { IfOk result (λ bytes. text_in bytes ≡ answer_of_reply pending.reply) }
    ensures changed { OnOk result (repository.new.content ≡ made pending.steps repository.old) }
    ensures refused { OnErr result (repository.new.content ≡ repository.old.content) }
{
    match answer_bytes(alloc, pending.reply()) {
        Ok(bytes) => {
            let _ = repository.commit(pending);
            Ok(bytes)
        }
        Err(error) => {
            // (A call, since what is pending and goes out of scope is opened here down to its texts.)
            drop(pending);
            Err(error)
        }
    }
}
