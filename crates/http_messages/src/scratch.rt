//! Room that heads are read with.
ghost use Rattle.std.specs.Prelude.{◌≤◌, length};

use httparse::spans::{EMPTY_HEADER_SPAN, HeaderSpan};
use std::alloc::{AllocError, Global};

/// As many fields as a head can have: each takes three bytes at least.
const FIELDS: usize = 5_461;

/// The most bytes of a head, the empty lines in front of it counted.
pub(crate) const HEAD_LIMIT: usize = 16_384;

/// Room that heads are read with. One serves any number of connections, one after the other.
#[derive(Drop)]
pub struct Scratch {
    /// Where the names and the values of the fields lie.
    pub(crate) spans: Vec<HeaderSpan>,
    /// The head again, where its target isn't plain.
    pub(crate) copy: Vec<u8>,
    ghost room: { (5461 ≤ length spans.items) × (16384 ≤ length copy.items) },
}

impl Scratch {
    /// Takes all the memory that is ever wanted to read heads.
    pub fn new(alloc: Global) -> Result<Scratch, AllocError> {
        let spans = vec![in alloc; EMPTY_HEADER_SPAN; FIELDS]?;
        let copy = vec![in alloc; 0u8; HEAD_LIMIT]?;
        Ok(Scratch { spans, copy })
    }
}
