//! Streams in memory that move so many bytes at a time, and of which one call may fail.

use std::io::{Error, ErrorKind, Read, Result, Write};

/// Counts the calls on a stream. The call with the number `failing` fails, none if that is 0.
#[derive(Drop)]
pub(crate) struct Calls {
    made: usize,
    failing: usize,
}

impl Calls {
    /// No call was made yet.
    pub(crate) fn until(failing: usize) -> Calls {
        Calls { made: 0, failing }
    }

    /// Counts one more call. Answers whether it fails.
    fn fails(&mut self) -> bool {
        self.made = self.made.wrapping_add(1);
        self.made == self.failing
    }
}

/// Bytes in memory. A read gives at most `size` of them.
#[derive(Drop)]
pub(crate) struct Pieces<'b> {
    pub(crate) bytes: &'b [u8],
    pub(crate) size: usize,
    pub(crate) calls: Calls,
}

impl Read for Pieces<'_> {
    fn read(&mut self, buf: &mut [u8]) -> Result<usize> {
        if self.calls.fails() {
            return Err(Error::from(ErrorKind::ConnectionReset));
        }
        let count = self.size.min(buf.len()).min(self.bytes.len());
        let (piece, rest) = self.bytes.split_at(count);
        buf[..count].copy_from_slice(piece);
        self.bytes = rest;
        Ok(count)
    }
}

/// What was written. A write takes at most `size` bytes, and the one that fails is an error or takes no byte.
#[derive(Drop)]
pub(crate) struct Written {
    pub(crate) bytes: Vec<u8>,
    pub(crate) size: usize,
    pub(crate) calls: Calls,
    pub(crate) takes_none: bool,
}

impl Write for Written {
    fn write(&mut self, buf: &[u8]) -> Result<usize> {
        if self.calls.fails() {
            return if self.takes_none {
                Ok(0)
            } else {
                Err(Error::from(ErrorKind::BrokenPipe))
            };
        }
        let count = self.size.min(buf.len());
        if self.bytes.extend_from_slice(&buf[..count]).is_err() {
            return Err(Error::from(ErrorKind::BrokenPipe));
        }
        Ok(count)
    }

    fn flush(&mut self) -> Result<()> {
        Ok(())
    }
}
