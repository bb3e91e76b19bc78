//! One connection over streams in memory, by `serve_connection`, which `rp_server` does not call.

use crate::repositories::opened;
use crate::streams::{Calls, Pieces, Written};
use crate::{WORDS, bytes_of, fault, print_bytes};
use plain_data::Failure;
use rp_http::{ServeFault, serve_connection};
use rp_io::{FromReader, ToWriter};
use rp_trial::limits_of;
use std::alloc::Global;
use std::mem;
use std::rt::Files;

/// How a call on the streams of a connection fails: a read, a write, or a write that takes no byte.
#[derive(Clone, Copy, PartialEq, Eq)]
enum Failing {
    Read,
    Write,
    TakesNone,
}

/// What was written to a connection, the snapshot of the repository after it, and how it ended.
#[derive(Drop)]
struct Served {
    written: Vec<u8>,
    snapshot: Vec<u8>,
    ended: Result<(), ServeFault>,
}

fn failing_of(alloc: Global, word: &str) -> Result<Failing, Failure<String>> {
    match word {
        "read" => Ok(Failing::Read),
        "write" => Ok(Failing::Write),
        "none" => Ok(Failing::TakesNone),
        _ => Err(fault(alloc, "the fault is neither read, write nor none")),
    }
}

/// The streams of a connection whose input is these bytes. A read gives at most `size` bytes, a write takes at most `room`, and
/// the call with this number fails.
fn streams(
    alloc: Global,
    bytes: &[u8],
    failing: Failing,
    number: usize,
    size: usize,
    room: usize,
) -> (FromReader<Pieces<'_>>, ToWriter<Written>) {
    let (read, write) = match failing {
        Failing::Read => (number, 0),
        Failing::Write | Failing::TakesNone => (0, number),
    };
    let reader = Pieces {
        bytes,
        size,
        calls: Calls::until(read),
    };
    let writer = Written {
        bytes: Vec::new(alloc),
        size: room,
        calls: Calls::until(write),
        takes_none: failing == Failing::TakesNone,
    };
    (FromReader::new(reader), ToWriter::new(writer))
}

/// Serves the connection of the command line.
fn served_by<R: AllocGlobal + Files>(rt: &R, words: &[String]) -> Result<Served, Failure<String>> {
    let alloc = rt.alloc();
    let [_, input, word, numbers @ ..] = words else {
        return Err(fault(alloc, WORDS));
    };
    let failing = failing_of(alloc, word.as_str())?;
    let Some(numbers) = limits_of(alloc, numbers)? else {
        return Err(fault(
            alloc,
            "a number is not a whole one up to 18446744073709551615",
        ));
    };
    let [number, size, room] = numbers.as_slice() else {
        return Err(fault(alloc, WORDS));
    };
    let input = bytes_of(rt, input.as_str())?;
    let (mut reader, mut writer) = streams(alloc, &input, failing, *number, *size, *room);
    let (mut repository, tokens) = opened(rt, &words[..1])?;
    let ended = serve_connection(alloc, &mut repository, &tokens, &mut reader, &mut writer);
    let snapshot = repository.snapshot(alloc);
    // The process ends with the connection, and all of its memory goes with it.
    mem::forget(repository);
    Ok(Served {
        written: writer.into_inner().bytes,
        snapshot: snapshot?,
        ended,
    })
}

/// Serves the connection of the command line. Prints what was written to it and the snapshot of the repository after it, and
/// reports how it ended.
pub(crate) fn serve<R: AllocGlobal + Files + Print>(
    rt: &R,
    words: &[String],
) -> Result<(), Failure<String>> {
    let served = served_by(rt, words)?;
    print_bytes(rt, &served.written)?;
    print_bytes(rt, &served.snapshot)?;
    match served.ended {
        Ok(()) => Ok(()),
        Err(ServeFault::ReadFault) => Err(fault(rt.alloc(), "a read failed")),
        Err(ServeFault::WriteFault) => Err(fault(rt.alloc(), "a write failed")),
        Err(ServeFault::NoMemory) => Err(Failure::NoMemory),
    }
}
