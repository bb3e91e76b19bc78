//! Why a file isn't replaced.
use std::io::ErrorKind;
use std::{fmt, io};

/// The step at which a file couldn't be replaced, and why. But for [`Settle`](ReplaceFault::Settle) it
/// is as it was.
#[derive(Clone, Copy)]
pub enum ReplaceFault {
    /// What stands at its path is no regular file. A symbolic link is none.
    NoFile,
    /// What stands at its path can't be looked at.
    Look(io::Error),
    /// Its folder can't be opened, or can't be synced.
    Folder(io::Error),
    /// What an earlier run left beside it can't be removed.
    Remove(io::Error),
    /// No file can be made beside it.
    Make(io::Error),
    /// The new bytes can't be written.
    Write(io::Error),
    /// The new bytes can't be synced.
    Sync(io::Error),
    /// What stands beside it isn't what was made there: another program replaces it too.
    Taken,
    /// The new file can't be renamed.
    Rename(io::Error),
    /// It is replaced, but its folder can't be synced: after a crash it may be as it was.
    Settle(io::Error),
}

impl fmt::Display for ReplaceFault {
    fn fmt<W: fmt::Write>(&self, f: &mut fmt::Formatter<W>) -> fmt::Result {
        match self {
            ReplaceFault::NoFile => f.write_str("it is no regular file"),
            ReplaceFault::Taken => f.write_str("another program replaces it too"),
            ReplaceFault::Settle(error) => write!(
                f,
                "it is replaced, but its folder can't be synced: {}",
                Told(*error)
            ),
            ReplaceFault::Look(error)
            | ReplaceFault::Folder(error)
            | ReplaceFault::Remove(error)
            | ReplaceFault::Make(error)
            | ReplaceFault::Write(error)
            | ReplaceFault::Sync(error)
            | ReplaceFault::Rename(error) => Told(*error).fmt(f),
        }
    }
}

/// Why a step failed.
#[derive(Clone, Copy, Drop)]
struct Told(io::Error);

impl fmt::Display for Told {
    fn fmt<W: fmt::Write>(&self, f: &mut fmt::Formatter<W>) -> fmt::Result {
        match self.0.kind() {
            ErrorKind::NotFound => f.write_str("there is no such folder"),
            ErrorKind::NotADirectory => f.write_str("a part of its path is no folder"),
            ErrorKind::PermissionDenied => f.write_str("permission is denied"),
            _ => write!(f, "{}", self.0),
        }
    }
}
