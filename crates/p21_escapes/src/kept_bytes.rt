//! The bytes of a string that are no line ends.

ghost use Rattle.std.specs.Prelude.{◌≡◌, ◌<◌, ◌≤◌, ◌+◌, ◌++◌, ◌^◌, ◌==◌, length, drop, slice_index, true};
ghost use Rattle.std.specs.List.{list_all, prefix_len};
ghost use Rattle.p21_escapes.specs.Decoding as spec;
ghost use Rattle.p21_escapes.specs.Encoding.{is_itself};
ghost use Rattle.p21_escapes.specs.LineEnds.{kept, BeginsKept, four};

use std::marker::Model;

fn is_line_end(b: u8) -> bool
    ensures { result ≡ spec.is_line_end b }
{
    b == b'\n' || b == b'\r'
}

/// What follows so many bytes that are no line ends.
fn after(mut bytes: &[u8], n: usize) -> &[u8]
    ensures value { kept result.now ≡ drop n (kept bytes.entry.now) }
    ensures begins { BeginsKept result.now }
    ensures within { length result.now ≤ length bytes.entry.now }
{
    let mut left = n;
    'bytes: while let [b, rest @ ..] = bytes {
        if !is_line_end(*b) {
            if left == 0 {
                return bytes;
            }
            left -= 1;
        }
        bytes = rest;
    }
    bytes
}

/// The byte behind so many, and 0 behind the last.
fn byte(bytes: &[u8], at: usize) -> u8
    ensures { result ≡ slice_index (kept bytes.now) at }
{
    match after(bytes, at) {
        [b, ..] => *b,
        [] => 0,
    }
}

/// How many bytes in front are no line ends and stand for themselves.
fn run_len(bytes: &[u8]) -> usize
    ensures value { result ≡ prefix_len is_itself bytes.now }
    ensures within { result ≤ length bytes.now }
{
    bytes
        .iter()
        .take_while(|b| (b' '..=b'~').contains(*b) && **b != b'\'' && **b != b'\\')
        .count()
}

/// The bytes of a string, where line ends don't count.
#[derive(Drop)]
pub struct Kept<'a> {
    bytes: &'a [u8],
}

impl<'a> Model for Kept<'a> {
    ghost use Rattle.std.specs.Prelude.{List, ℕ};
    ghost use Rattle.p21_escapes.specs.LineEnds.{kept};

    ghost Value = { List ℕ };

    ghost view = { λ z. kept z.bytes.now };
}

impl<'a> Kept<'a> {
    pub fn new(bytes: &'a [u8]) -> Kept<'a>
        ensures { result ≡ kept bytes.now }
    {
        Kept { bytes }
    }

    pub fn is_empty(&self) -> bool
        ensures { result ≡ (length self.now == 0) }
    {
        after(self.bytes, 0).is_empty()
    }

    /// The byte behind so many, and 0 behind the last.
    pub fn byte(&self, at: usize) -> u8
        ensures { result ≡ slice_index self.now at }
    {
        byte(self.bytes, at)
    }

    /// The first four bytes, and 0 for each that isn't there.
    pub fn four(&self) -> [u8; 4]
        ensures { result ≡ four self.now }
    {
        [self.byte(0), self.byte(1), self.byte(2), self.byte(3)]
    }

    /// What follows so many bytes.
    pub fn after(&self, n: usize) -> Kept<'a>
        ensures value { result ≡ drop n self.now }
        ensures bounded { length result < 2 ^ 63 }
    {
        Kept {
            bytes: after(self.bytes, n),
        }
    }

    /// A run of bytes that stand for themselves, and what follows it.
    pub fn run(&self) -> (&'a [u8], Kept<'a>)
        ensures value { self.now ≡ result.0.now ++ result.1 }
        ensures bare { list_all spec.is_bare result.0.now ≡ true }
        ensures shorter { length result.0.now + length result.1 ≡ length self.now }
    {
        let (run, rest) = self.bytes.split_at(run_len(self.bytes));
        (run, Kept { bytes: rest })
    }
}
