//! A socket that doesn't wait, as a reader and as a writer. What comes by it isn't known.
use mio::net::TcpStream;
use rp_io::{DeviceFault, Sink, Source};
use std::io;
use std::io::{Error, ErrorKind, Read, Write};

/// Why a socket's last read or write gave nothing.
#[derive(Clone, Copy, PartialEq, Eq)]
pub(crate) enum Trouble {
    /// It would have waited.
    Blocks,
    /// A signal came; it may be tried again at once.
    Interrupted,
    /// The connection is broken, or nothing was tried.
    Broken,
}

impl Trouble {
    fn of(error: &Error) -> Trouble {
        match error.kind() {
            ErrorKind::WouldBlock => Trouble::Blocks,
            ErrorKind::Interrupted => Trouble::Interrupted,
            _ => Trouble::Broken,
        }
    }

    /// That of a write which took nothing.
    fn of_write(failed: io::Result<usize>) -> Trouble {
        match failed {
            Ok(_) => Trouble::Broken,
            Err(error) => Trouble::of(&error),
        }
    }
}

/// A socket as a reader, with a count of its reads and one of its failures.
#[derive(Drop)]
pub(crate) struct SocketReader<'s> {
    stream: &'s TcpStream,
    /// How many reads were made, and how many bytes they had room for in all.
    reads: u64,
    room: u64,
    failures: u64,
    /// Why the last read failed.
    trouble: Trouble,
}

impl<'s> SocketReader<'s> {
    pub(crate) fn new(stream: &'s TcpStream) -> SocketReader<'s> {
        SocketReader {
            stream,
            reads: 0,
            room: 0,
            failures: 0,
            trouble: Trouble::Broken,
        }
    }

    pub(crate) fn trouble(&self) -> Trouble {
        self.trouble
    }
}

impl Source for SocketReader<'_> {
    ghost use Rattle.std.specs.Prelude.{None};

    ghost remaining = { λ _. None };

    ghost read_failures = { λ d. d.failures };

    ghost reads_made = { λ d. record { count = d.reads; room = d.room } };

    fn read(&mut self, buf: &mut [u8]) -> Result<usize, DeviceFault> {
        self.reads = self.reads.wrapping_add(1);
        self.room = self.room.wrapping_add(buf.len() as u64);
        let mut stream = self.stream;
        match stream.read(buf) {
            Ok(count) => Ok(count),
            Err(error) => {
                self.failures = self.failures.wrapping_add(1);
                self.trouble = Trouble::of(&error);
                Err(DeviceFault)
            }
        }
    }
}

/// A socket as a writer, with a count of its failures.
#[derive(Drop)]
pub(crate) struct SocketWriter<'s> {
    stream: &'s TcpStream,
    failures: u64,
    /// Why the last write failed.
    trouble: Trouble,
}

impl<'s> SocketWriter<'s> {
    pub(crate) fn new(stream: &'s TcpStream) -> SocketWriter<'s> {
        SocketWriter {
            stream,
            failures: 0,
            trouble: Trouble::Broken,
        }
    }

    pub(crate) fn trouble(&self) -> Trouble {
        self.trouble
    }
}

impl Sink for SocketWriter<'_> {
    ghost use Rattle.std.specs.Prelude.{None};

    ghost contents = { λ _. None };

    ghost write_failures = { λ d. d.failures };

    fn write(&mut self, buf: &[u8]) -> Result<usize, DeviceFault> {
        let mut stream = self.stream;
        match stream.write(buf) {
            Ok(count) if count > 0 || buf.is_empty() => Ok(count),
            failed => {
                self.failures = self.failures.wrapping_add(1);
                self.trouble = Trouble::of_write(failed);
                Err(DeviceFault)
            }
        }
    }
}
