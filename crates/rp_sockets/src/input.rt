//! The end of standard input.
use mio::unix::SourceFd;
use mio::{Interest, Registry, Token};
use std::io;
use std::io::{ErrorKind, Input, Read};

/// The descriptor of standard input.
const STANDARD_INPUT: i32 = 0;

/// How many bytes of it are dropped at once.
const DROPPED: usize = 4_096;

/// What is known of standard input.
#[derive(Clone, Copy, PartialEq, Eq)]
pub(crate) enum Watch {
    /// Its end isn't asked for.
    Off,
    /// The poll tells when there is something to read.
    Waits,
    /// It may be read.
    Ready,
    /// It has ended.
    Ended,
}

/// Has the poll tell of standard input under this token, if its end is asked for. A file can always be read, and the system watches
/// none.
pub(crate) fn watched(registry: &Registry, token: Token, wanted: bool) -> Watch {
    if !wanted {
        return Watch::Off;
    }
    match registry.register(&mut SourceFd(&STANDARD_INPUT), token, Interest::READABLE) {
        Ok(()) => Watch::Waits,
        Err(_) => Watch::Ready,
    }
}

/// Has the poll tell again.
fn watched_again(registry: &Registry, token: Token) -> Watch {
    match registry.reregister(&mut SourceFd(&STANDARD_INPUT), token, Interest::READABLE) {
        Ok(()) => Watch::Waits,
        Err(_) => Watch::Ready,
    }
}

/// Reads some of standard input, which is ready, and drops it.
pub(crate) fn read_on<R: Input>(rt: &R, registry: &Registry, token: Token) -> io::Result<Watch> {
    let mut dropped = [0; DROPPED];
    match rt.reader().read(&mut dropped) {
        Ok(0) => Ok(Watch::Ended),
        Ok(_) => Ok(watched_again(registry, token)),
        Err(error) => match error.kind() {
            ErrorKind::WouldBlock | ErrorKind::Interrupted => Ok(watched_again(registry, token)),
            _ => Err(error),
        },
    }
}
