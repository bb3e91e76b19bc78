//! Trials, for tests: of evaluation, which prints each condition of a schema's WHERE clauses with its value and its steps for the
//! instances of a file, and with `kept` remembers derived values from one evaluation to the next; of one connection, which is served
//! over streams in memory, of which one call may fail; and of requests, which are answered in one run and then each by itself.
//!
//!     trials rules SCHEMA FILE LIMIT..
//!     trials kept SCHEMA FILE LIMIT..
//!     trials connection SCHEMA INPUT FAULT NUMBER SIZE ROOM
//!     trials requests SCHEMA OTHER LINE..
#![tactic(auto)]

mod connection;
mod repositories;
mod requests;
mod streams;

use plain_data::Failure;
use rp_files::{FromFiles, file_bytes};
use rp_io::{ToWriter, write_all};
use rp_trial::{Keeping, limits_of, trial};
use std::alloc::{AllocError, Global};
use std::process::ExitCode;
use std::rt::{Env, Files};
use std::{env, io};

const WORDS: &str =
    "trials rules SCHEMA FILE LIMIT.., trials kept SCHEMA FILE LIMIT.., trials connection SCHEMA INPUT FAULT NUMBER SIZE ROOM, or trials requests SCHEMA OTHER LINE..";

fn main(rt: HostRuntime) -> ExitCode {
    let Err(failure) = run(&rt) else {
        return ExitCode::from(0);
    };
    let words = match &failure {
        Failure::Fault(words) => words.as_str(),
        Failure::NoMemory => "out of memory",
    };
    let _ = eprintln!(rt; "trials: {words}");
    ExitCode::from(2)
}

/// What is wrong, in these words, where there is memory for them.
fn fault(alloc: Global, words: &str) -> Failure<String> {
    match String::from_str(alloc, words) {
        Ok(words) => Failure::Fault(words),
        Err(AllocError) => Failure::NoMemory,
    }
}

fn bytes_of<R: AllocGlobal + Files>(rt: &R, path: &str) -> Result<Vec<u8>, Failure<String>> {
    match file_bytes(rt.alloc(), &FromFiles::new(rt), path) {
        Ok(bytes) => Ok(bytes),
        Err(Failure::Fault(_)) => Err(fault(rt.alloc(), "a file can't be read or is over 8 MiB")),
        Err(Failure::NoMemory) => Err(Failure::NoMemory),
    }
}

/// The lines of a trial of the files at these paths.
fn lines_of<R: AllocGlobal + Files>(
    rt: &R,
    schema: &str,
    file: &str,
    limits: &[usize],
    keeping: Keeping,
) -> Result<Vec<u8>, Failure<String>> {
    let schema = bytes_of(rt, schema)?;
    let file = bytes_of(rt, file)?;
    trial(rt.alloc(), &schema, &file, limits, keeping)
}

/// The lines of the trial of evaluation that words ask for.
fn lines_by<R: AllocGlobal + Files>(
    rt: &R,
    words: &[String],
    keeping: Keeping,
) -> Result<Vec<u8>, Failure<String>> {
    let alloc = rt.alloc();
    let [schema, file, limits @ ..] = words else {
        return Err(fault(alloc, WORDS));
    };
    match limits_of(alloc, limits)? {
        Some(limits) => lines_of(rt, schema.as_str(), file.as_str(), &limits, keeping),
        None => Err(fault(alloc, "a limit is no number up to 18446744073709551615")),
    }
}

fn print_bytes<R: AllocGlobal + Print>(rt: &R, bytes: &[u8]) -> Result<(), Failure<String>> {
    match write_all(&mut ToWriter::new(io::writer(rt)), bytes) {
        Ok(()) => Ok(()),
        Err(_) => Err(fault(rt.alloc(), "standard output can't be written")),
    }
}

/// Does what the command line asks for.
fn run<R: AllocGlobal + Files + Env + Print>(rt: &R) -> Result<(), Failure<String>> {
    let alloc = rt.alloc();
    let Ok(args) = env::args(rt) else {
        return Err(fault(alloc, "the command line isn't UTF-8"));
    };
    let words: Vec<String> = args.collect(alloc)?;
    let [_, what, words @ ..] = words.as_slice() else {
        return Err(fault(alloc, WORDS));
    };
    match what.as_str() {
        "rules" => print_bytes(rt, &lines_by(rt, words, Keeping::Nothing)?),
        "kept" => print_bytes(rt, &lines_by(rt, words, Keeping::Derived)?),
        "connection" => connection::serve(rt, words),
        "requests" => requests::answer(rt, words),
        _ => Err(fault(alloc, WORDS)),
    }
}
