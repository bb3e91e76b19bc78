//! What is wrong with a command line, and the line that tells it.
use std::alloc::{AllocError, AllocFailed};
use std::fmt;

/// Why a command line asks for nothing.
#[derive(Drop)]
pub enum CommandLineFault {
    /// It is wrong; why, in one line.
    Wrong(String),
    /// It names no command with its file.
    Incomplete,
    /// The page would be written over a file that is to be read.
    PageOverInput,
    /// A snapshot would be saved over the configuration.
    SaveOverConfig,
    /// Where connections are to come is no address.
    NoAddress,
    /// How many connections are to come is no number.
    NoNumber,
    /// Memory is wanting.
    NoMemory,
}

impl fmt::Display for CommandLineFault {
    fn fmt<W: fmt::Write>(&self, f: &mut fmt::Formatter<W>) -> fmt::Result {
        match self {
            CommandLineFault::Wrong(why) => write_usage(f, why.as_str()),
            CommandLineFault::Incomplete => {
                write_usage(
                    f,
                    "batch wants --config FILE, serve --config FILE and --listen ADDRESS, check FILE, validate --schema FILE and 1 to 50 files",
                )
            }
            CommandLineFault::PageOverInput => {
                write_usage(f, "--html names a file that is to be read")
            }
            CommandLineFault::SaveOverConfig => write_usage(f, "--save names the configuration"),
            CommandLineFault::NoAddress => {
                write_usage(f, "--listen wants an IP address with a port")
            }
            CommandLineFault::NoNumber => {
                write_usage(f, "--connections wants a number from 1 to 4294967295")
            }
            CommandLineFault::NoMemory => f.write_str("out of memory"),
        }
    }
}

/// Writes what is wrong with the command line.
fn write_usage<W: fmt::Write>(f: &mut fmt::Formatter<W>, why: &str) -> fmt::Result {
    write!(f, "{why} (rp_server --help tells what to type)")
}

impl From<AllocError> for CommandLineFault {
    fn from(_error: AllocError) -> CommandLineFault {
        CommandLineFault::NoMemory
    }
}

impl<T: Drop> From<AllocFailed<T>> for CommandLineFault {
    fn from(_error: AllocFailed<T>) -> CommandLineFault {
        CommandLineFault::NoMemory
    }
}
