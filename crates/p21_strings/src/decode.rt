//! What the bytes of a string spell.

ghost use Rattle.plain_data.specs.Gives.{Gives};
ghost use Rattle.p21_escapes.specs.Decoding as spec;

use p21_escapes::{Kept, StringFault, push_spelled};
use plain_data::{Failure, Text};
use std::alloc::Global;

/// The characters that the bytes between the apostrophes of a string spell. A lone apostrophe,
/// which can't stand there, is a bad escape.
///
/// # Errors
///
/// The fault of the leftmost faulty escape or byte, where an escape's form is tested before its
/// codes; or want of memory.
#[tactic(auto, unfolding(p21_escapes::specs::Decoding::decoded, p21_escapes::specs::LineEnds::kept))]
pub fn decode_string(alloc: Global, bytes: &[u8]) -> Result<Text, Failure<StringFault>>
    ensures { Gives (λ text. text) result (spec.decoded bytes.now) }
{
    // No escape is shorter than what it spells.
    let mut out = String::with_capacity(alloc, bytes.len())?;
    push_spelled(&mut out, Kept::new(bytes))?;
    Ok(Text::new(out))
}
