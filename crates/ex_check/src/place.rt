//! Lines and columns.

ghost use Rattle.std.specs.Prelude.{◌≡◌, ◌+◌, ◌<◌, ◌^◌, take, length};
ghost use Rattle.std.specs.List.{count_by};
ghost use Rattle.ex_check.specs.Check as spec;

use memchr::memrchr;

/// A byte of a text, with its line and column. Both count from 1, columns in bytes.
#[derive(Clone, Copy)]
pub(crate) struct Position {
    pub at: usize,
    pub line: u64,
    pub column: u64,
}

impl Position {
    /// The first byte of any text.
    pub(crate) fn first() -> Position
        ensures { result ≡ record { at = 0; line = 1; column = 1 } }
    {
        Position {
            at: 0,
            line: 1,
            column: 1,
        }
    }

    /// The position of this byte, counted from the first.
    fn of(text: &[u8], at: usize) -> Position
        ensures { result ≡ spec.position text.now at }
    {
        let before = front(text, at);
        Position {
            at,
            line: feeds_in(before) + 1,
            column: column_behind(before, 1),
        }
    }

    /// The position of another byte. Where that stands behind this one, only what lies between is looked at.
    pub(crate) fn move_to(self, text: &[u8], at: usize) -> Position
        requires { self ≡ spec.position text.now self.at }
        ensures { result ≡ spec.position text.now at }
    {
        match text.get(self.at..at) {
            Some(between) => Position {
                at,
                line: self.line + feeds_in(between),
                column: column_behind(between, self.column),
            },
            None => Position::of(text, at),
        }
    }
}

/// How many lines end in these bytes.
fn feeds_in(bytes: &[u8]) -> u64
    ensures { result ≡ count_by spec.is_line_feed bytes.now }
{
    bytes.iter().filter(|byte| **byte == b'\n').count() as u64
}

/// The column behind these bytes, of which the first stands in this one.
fn column_behind(bytes: &[u8], column: u64) -> u64
    requires { column + length bytes.now < 2 ^ 64 }
    ensures { result ≡ spec.column_behind bytes.now column }
{
    match memrchr(b'\n', bytes) {
        Some(feed) => (bytes.len() - feed) as u64,
        None => column + bytes.len() as u64,
    }
}

/// The bytes before this one; all where there are no more.
fn front(text: &[u8], at: usize) -> &[u8]
    ensures { result.now ≡ take at text.now }
{
    match text.split_at_checked(at) {
        Some((before, _)) => before,
        None => text,
    }
}
