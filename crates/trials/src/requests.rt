//! Requests by calls of the library that `rp_server batch` and `serve` do not make: all of them by `run`, and then each by `handle`.
ghost use Rattle.std.specs.Prelude.{◌<◌, length, IfOk};
ghost use Rattle.std.specs.List.{AllByRecursion};

use crate::repositories::opened;
use crate::{WORDS, fault, print_bytes};
use plain_data::Failure;
use rp_repo::{Call, Reply, Repository, RequestLine, Unread, reply_bytes, request_of};
use std::alloc::{AllocError, Global};
use std::mem;
use std::rt::Files;

const NO_CALL: &str = "a line is not a request of a partner";

/// The call that a line asks for.
fn call_of(alloc: Global, repository: &Repository<'_>, line: &str) -> Result<Call, Failure<String>>
    ensures { IfOk result (λ call. call.caller < length repository.now.content.partners) }
{
    match request_of(alloc, line.as_bytes()) {
        Ok(asked) => call_of_partner(alloc, repository, asked),
        Err(Unread::BadRequest) => Err(fault(alloc, NO_CALL)),
        Err(Unread::NoMemory) => Err(Failure::NoMemory),
    }
}

fn call_of_partner(
    alloc: Global,
    repository: &Repository<'_>,
    asked: RequestLine,
) -> Result<Call, Failure<String>>
    ensures { IfOk result (λ call. call.caller < length repository.now.content.partners) }
{
    let RequestLine { caller, request } = asked;
    if let Some(name) = caller
        && let Some(caller) = repository.caller(&name)
    {
        return Ok(Call { caller, request });
    }
    // (A call: a request that goes out of scope is opened here for each of its sorts.)
    drop(request);
    Err(fault(alloc, NO_CALL))
}

fn calls_of(
    alloc: Global,
    repository: &Repository<'_>,
    lines: &[String],
) -> Result<Vec<Call>, Failure<String>>
    ensures { IfOk result (λ calls. AllByRecursion (λ call. call.caller < length repository.now.content.partners) calls.items) }
{
    let mut calls = Vec::new(alloc);
    for line in lines {
        calls.push(call_of(alloc, repository, line.as_str())?)?;
    }
    Ok(calls)
}

fn print_line<R: AllocGlobal + Print>(rt: &R, line: &[u8]) -> Result<(), Failure<String>> {
    print_bytes(rt, line)?;
    print_bytes(rt, b"\n")
}

fn print_reply<R: AllocGlobal + Print>(rt: &R, reply: &Reply) -> Result<(), Failure<String>> {
    let bytes = reply_bytes(rt.alloc(), reply)?;
    print_line(rt, &bytes)
}

fn print_replies<R: AllocGlobal + Print>(rt: &R, replies: &[Reply]) -> Result<(), Failure<String>> {
    for reply in replies {
        print_reply(rt, reply)?;
    }
    Ok(())
}

fn print_snapshot<R: AllocGlobal + Print>(
    rt: &R,
    repository: &Repository<'_>,
) -> Result<(), Failure<String>> {
    match repository.snapshot(rt.alloc()) {
        Ok(bytes) => print_line(rt, &bytes),
        Err(AllocError) => print_line(rt, b"out of memory"),
    }
}

/// Runs the requests, and prints their replies, or that memory is missing for the run.
fn run_all<R: AllocGlobal + Print>(
    rt: &R,
    repository: &mut Repository<'_>,
    lines: &[String],
) -> Result<(), Failure<String>> {
    let calls = calls_of(rt.alloc(), repository, lines)?;
    match repository.run(rt.alloc(), calls) {
        Ok(replies) => print_replies(rt, &replies),
        Err(AllocError) => print_line(rt, b"out of memory"),
    }
}

/// Handles each request by itself, and prints its reply.
fn handle_each<R: AllocGlobal + Print>(
    rt: &R,
    repository: &mut Repository<'_>,
    lines: &[String],
) -> Result<(), Failure<String>> {
    for line in lines {
        let Call { caller, request } = call_of(rt.alloc(), repository, line.as_str())?;
        let reply = repository.handle(rt.alloc(), caller, request);
        print_reply(rt, &reply)?;
    }
    Ok(())
}

/// Answers the requests of the command line, all in one run and then each once more. Prints the replies, and the snapshot
/// after the run and at the end.
pub(crate) fn answer<R: AllocGlobal + Files + Print>(
    rt: &R,
    words: &[String],
) -> Result<(), Failure<String>> {
    let [_, _, lines @ ..] = words else {
        return Err(fault(rt.alloc(), WORDS));
    };
    let (mut repository, _tokens) = opened(rt, &words[..2])?;
    let told = answer_twice(rt, &mut repository, lines);
    // The process ends with this, and all of its memory goes with it.
    mem::forget(repository);
    told
}

fn answer_twice<R: AllocGlobal + Print>(
    rt: &R,
    repository: &mut Repository<'_>,
    lines: &[String],
) -> Result<(), Failure<String>> {
    run_all(rt, repository, lines)?;
    print_snapshot(rt, repository)?;
    handle_each(rt, repository, lines)?;
    print_snapshot(rt, repository)
}
