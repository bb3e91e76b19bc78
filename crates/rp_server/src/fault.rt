//! Why the program ends with status 2, and the line that it then writes on standard error.
use crate::page::Unwritten;
use crate::snapshot::Lacking;
use plain_data::{Failure, Text};
use rp_command::CommandLineFault;
use rp_config::Shown;
use rp_files::LoadFault;
use rp_program::{Fault as CommandFault, ServeFault, StartFault, TokenFault};
use rp_repo::NewFault;
use std::alloc::{AllocError, AllocFailed};
use std::io::ErrorKind;
use std::{fmt, io};

/// Why the program ends with status 2.
pub enum Fault {
    /// The command line asks for nothing.
    CommandLine(CommandLineFault),
    /// The command line has a word that isn't UTF-8.
    Words,
    /// Memory is wanting, of which nothing else tells.
    NoMemory,
    /// The command ended so, and what is told beside it: of a bad snapshot the kind of a file's fault, of one that isn't saved the
    /// path, of all else the words behind a colon.
    Command(CommandFault, Option<String>),
}

// (written out, so that it is one call wherever a fault may be dropped)
impl Drop for Fault {
    fn drop(self) {
        match self {
            Fault::CommandLine(fault) => drop(fault),
            Fault::Command(fault, beside) => {
                drop(fault);
                drop(beside);
            }
            Fault::Words | Fault::NoMemory => {}
        }
    }
}

impl fmt::Display for Fault {
    fn fmt<W: fmt::Write>(&self, f: &mut fmt::Formatter<W>) -> fmt::Result {
        match self {
            Fault::CommandLine(fault) => fault.fmt(f),
            Fault::Words => f.write_str("the command line isn't UTF-8"),
            Fault::NoMemory => f.write_str("out of memory"),
            Fault::Command(fault, beside) => write_of_command(f, fault, &Beside(beside)),
        }
    }
}

/// What is told beside a fault, if anything is.
#[derive(Clone, Copy, Drop)]
struct Beside<'a>(&'a Option<String>);

impl<'a> Beside<'a> {
    fn as_str(&self) -> &'a str {
        match self.0 {
            Some(words) => words.as_str(),
            None => "",
        }
    }
}

impl fmt::Display for Beside<'_> {
    fn fmt<W: fmt::Write>(&self, f: &mut fmt::Formatter<W>) -> fmt::Result {
        match self.0 {
            Some(words) => write!(f, ": {words}"),
            None => Ok(()),
        }
    }
}

/// Writes why a command ended.
fn write_of_command<W: fmt::Write>(
    f: &mut fmt::Formatter<W>,
    fault: &CommandFault,
    beside: &Beside<'_>,
) -> fmt::Result {
    match fault {
        CommandFault::Start(Failure::Fault(fault)) => write_of_start(f, fault, beside),
        CommandFault::Start(Failure::NoMemory) => f.write_str("out of memory"),
        CommandFault::Read => f.write_str("standard input can't be read"),
        CommandFault::Write => f.write_str("standard output can't be written"),
        CommandFault::Refused(path, words) => {
            write!(f, "{} is refused: {}", shown(path), words.as_str())
        }
        CommandFault::Page(path, error) => {
            write!(f, "{} can't be written: {}", shown(path), Unwritten(*error))
        }
        CommandFault::Listen(address, error) => {
            write!(f, "{address} can't be listened on: {}", Unheard(*error))
        }
        CommandFault::Serve(fault) => write_of_serving(f, fault),
        CommandFault::Unsaved(why) => {
            write!(f, "{} can't be saved: {why}", Shown(beside.as_str()))
        }
    }
}

/// Writes why there is nothing to work on.
fn write_of_start<W: fmt::Write>(
    f: &mut fmt::Formatter<W>,
    fault: &StartFault,
    beside: &Beside<'_>,
) -> fmt::Result {
    match fault {
        StartFault::Load(fault) => write_of_file(f, fault, beside),
        StartFault::New(fault) => write!(f, "{}{beside}", why_none(*fault)),
        StartFault::Snapshot(path, lack) => {
            let kind = beside.as_str();
            write!(f, "{}: {}", shown(path), Lacking { lack, kind })
        }
        StartFault::Tokens(fault) => write!(f, "{}{beside}", why_unknown(*fault)),
    }
}

/// Writes what is wrong with a file.
fn write_of_file<W: fmt::Write>(
    f: &mut fmt::Formatter<W>,
    fault: &LoadFault,
    beside: &Beside<'_>,
) -> fmt::Result {
    match fault {
        LoadFault::Unreadable(path) => write!(f, "{} can't be read{beside}", shown(path)),
        LoadFault::TooLarge(path) => write!(f, "{} is over 8 MiB", shown(path)),
        LoadFault::Config(path) => write!(
            f,
            "{} is no configuration{beside} (rp_server batch --help shows one)",
            shown(path)
        ),
        LoadFault::Schema(path, words) => {
            write!(
                f,
                "{} is no schema: {}{beside}",
                shown(path),
                words.as_str()
            )
        }
    }
}

/// Writes why serving ended before its end.
fn write_of_serving<W: fmt::Write>(f: &mut fmt::Formatter<W>, fault: &ServeFault) -> fmt::Result {
    match fault {
        ServeFault::Accept(error) => write!(f, "connections can't be accepted: {error}"),
        ServeFault::Wait(error) => write!(f, "connections can't be waited for: {error}"),
        ServeFault::Input => f.write_str("standard input can't be read"),
    }
}

/// Why an address can't be listened on.
#[derive(Clone, Copy, Drop)]
struct Unheard(io::Error);

impl fmt::Display for Unheard {
    fn fmt<W: fmt::Write>(&self, f: &mut fmt::Formatter<W>) -> fmt::Result {
        match self.0.kind() {
            ErrorKind::AddrInUse => f.write_str("it is in use"),
            ErrorKind::AddrNotAvailable => f.write_str("it is none of this machine's"),
            ErrorKind::PermissionDenied => f.write_str("permission is denied"),
            _ => write!(f, "{}", self.0),
        }
    }
}

fn shown(path: &Text) -> Shown<'_> {
    Shown(path.as_str())
}

/// What is wrong with the partners' tokens.
fn why_unknown(fault: TokenFault) -> &'static str {
    match fault {
        TokenFault::BadToken => "a token isn't 1 to 128 of A-Z a-z 0-9 _ . -",
        TokenFault::TwoTokens => "two partners have one token",
    }
}

/// Why there is no repository.
fn why_none(fault: NewFault) -> &'static str {
    match fault {
        NewFault::TwoSchemas => "two schemas have one name",
        NewFault::TwoPartners => "two partners have one name",
        NewFault::BadName => "a partner's name isn't 1 to 64 of A-Z a-z 0-9 _ . -",
        NewFault::TooMany => "more than 100 schemas or more than 1,000 partners",
        NewFault::NoMemory => "out of memory",
    }
}

impl From<CommandLineFault> for Fault {
    fn from(fault: CommandLineFault) -> Fault {
        Fault::CommandLine(fault)
    }
}

impl From<CommandFault> for Fault {
    fn from(fault: CommandFault) -> Fault {
        Fault::Command(fault, None)
    }
}

impl From<Failure<LoadFault>> for Fault {
    fn from(failure: Failure<LoadFault>) -> Fault {
        Fault::from(CommandFault::from(failure))
    }
}

impl From<AllocError> for Fault {
    fn from(_error: AllocError) -> Fault {
        Fault::NoMemory
    }
}

impl<T: Drop> From<AllocFailed<T>> for Fault {
    fn from(_error: AllocFailed<T>) -> Fault {
        Fault::NoMemory
    }
}
