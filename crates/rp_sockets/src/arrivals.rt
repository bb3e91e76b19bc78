//! What an accept that gave no connection means.
use std::io::{Error, ErrorKind};

/// What an accept that gave no connection means.
#[derive(Clone, Copy, PartialEq, Eq)]
pub(crate) enum Missed {
    /// None waits.
    NoneWaits,
    /// That one came to nothing. Others may wait.
    Lost,
    /// No descriptor or no memory was found for it.
    Full,
    /// No more can be accepted.
    Fault,
}

/// The system's numbers of wants of descriptors and of memory: ENOMEM, ENFILE, EMFILE and ENOBUFS.
const NO_ROOM: [i32; 4] = [12, 23, 24, 105];

/// Its numbers of errors of the network that a connection came by: ENONET, EPROTO, ENOPROTOOPT, EOPNOTSUPP, ENETDOWN,
/// ENETUNREACH, EHOSTDOWN and EHOSTUNREACH.
const OF_NETWORK: [i32; 8] = [64, 71, 92, 95, 100, 101, 112, 113];

/// What this error of an accept means.
pub(crate) fn meaning_of(error: &Error) -> Missed {
    match error.kind() {
        ErrorKind::WouldBlock => Missed::NoneWaits,
        ErrorKind::Interrupted | ErrorKind::ConnectionAborted => Missed::Lost,
        _ => match error.raw_os_error() {
            Some(number) if NO_ROOM.contains(&number) => Missed::Full,
            Some(number) if OF_NETWORK.contains(&number) => Missed::Lost,
            _ => Missed::Fault,
        },
    }
}
