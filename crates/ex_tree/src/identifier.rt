//! Identifiers (7.4).

ghost use Rattle.std.specs.Prelude.{◌≡◌, ◌≤◌, length, map, true, IfOk};
ghost use Rattle.std.specs.Char.{to_ascii_uppercase};
ghost use Rattle.std.specs.List.{list_all};
ghost use Rattle.ex_tree.specs.Identifiers.{is_identifier, is_identifier_byte, as_identifier, bytes_in};

use std::alloc::{AllocError, Global};
use std::marker::Model;

/// The most bytes that stand in an identifier itself: so many make it no larger than the `Vec` of a block does.
const SHORT: usize = 30;

/// Where an identifier's bytes are kept: the first ones of a field, or a block.
enum Spelling {
    Short(u8, [u8; SHORT]),
    Long(Vec<u8>),
}

impl Drop for Spelling {
    fn drop(self) {
        match self {
            Spelling::Short(_, _) => {}
            Spelling::Long(bytes) => drop(bytes),
        }
    }
}

/// An identifier in upper case: a letter, then letters, digits and underscores.
#[derive(Drop)]
pub struct Identifier {
    spelling: Spelling,
}

impl Model for Identifier {
    ghost use Rattle.std.specs.Prelude.{List, ℕ, true, ◌≡◌};
    ghost use Rattle.ex_tree.specs.Identifiers.{bytes_in, is_identifier};

    ghost Value = { List ℕ };

    ghost view = { λ i. bytes_in i.spelling };

    ghost invariant = { λ i. is_identifier (bytes_in i.spelling) ≡ true };
}

// Each byte of an identifier stands at its own place, and a point at every other. A table is read faster than a choice
// among bytes.
static IDENTIFIER_BYTES: [u8; 256] = *b"\
    ................................\
    ................0123456789......\
    .ABCDEFGHIJKLMNOPQRSTUVWXYZ...._\
    ................................\
    ................................\
    ................................\
    ................................\
    ................................";

fn is_identifier_byte(byte: u8) -> bool
    ensures { result ≡ is_identifier_byte byte }
{
    IDENTIFIER_BYTES[usize::from(byte)] != b'.'
}

fn are_identifier_bytes(bytes: &[u8]) -> bool
    ensures { result ≡ list_all is_identifier_byte bytes.now }
{
    bytes.iter().all(|byte| is_identifier_byte(*byte))
}

#[tactic(auto, unfolding(crate::specs::Identifiers::is_identifier))]
fn is_identifier(bytes: &[u8]) -> bool
    ensures { result ≡ is_identifier bytes.now }
{
    match bytes {
        [] => false,
        [first, rest @ ..] => first.is_ascii_uppercase() && are_identifier_bytes(rest),
    }
}

/// The bytes of a spelling.
fn bytes_in(spelling: &Spelling) -> &[u8]
    ensures { result.now ≡ bytes_in spelling.now }
{
    match spelling {
        Spelling::Short(len, bytes) => match bytes.get(..*len as usize) {
            Some(front) => front,
            None => bytes,
        },
        Spelling::Long(bytes) => bytes,
    }
}

/// A few bytes in upper case.
fn short_in_upper_case(bytes: &[u8]) -> Spelling
    requires { length bytes.now ≤ 30 }
    ensures { bytes_in result ≡ map to_ascii_uppercase bytes.now }
{
    let mut field = [0; SHORT];
    field[..bytes.len()].copy_from_slice(bytes);
    // Of all places, whose number is known when this is compiled: the zeros behind the bytes stay what they are.
    field.make_ascii_uppercase();
    Spelling::Short(bytes.len() as u8, field)
}

/// Bytes in upper case.
fn in_upper_case(alloc: Global, bytes: &[u8]) -> Result<Spelling, AllocError>
    ensures { IfOk result (λ spelling. bytes_in spelling ≡ map to_ascii_uppercase bytes.now) }
{
    if bytes.len() <= SHORT {
        return Ok(short_in_upper_case(bytes));
    }
    let mut kept = Vec::with_capacity(alloc, bytes.len())?;
    kept.extend_from_slice(bytes)?;
    kept.make_ascii_uppercase();
    Ok(Spelling::Long(kept))
}

/// The same bytes once more.
fn copy_of(alloc: Global, spelling: &Spelling) -> Result<Spelling, AllocError>
    ensures { IfOk result (λ copy. bytes_in copy ≡ bytes_in spelling.now) }
{
    match spelling {
        Spelling::Short(len, bytes) => Ok(Spelling::Short(*len, *bytes)),
        Spelling::Long(bytes) => {
            let mut kept = Vec::with_capacity(alloc, bytes.len())?;
            kept.extend_from_slice(bytes)?;
            Ok(Spelling::Long(kept))
        },
    }
}

impl Identifier {
    /// The identifier that these bytes spell in upper case, if they spell one.
    pub fn in_upper_case(alloc: Global, bytes: &[u8]) -> Result<Option<Identifier>, AllocError>
        ensures { IfOk result (λ found. found ≡ as_identifier (map to_ascii_uppercase bytes.now)) }
    {
        let spelling = in_upper_case(alloc, bytes)?;
        if is_identifier(bytes_in(&spelling)) {
            Ok(Some(Identifier { spelling }))
        } else {
            Ok(None)
        }
    }

    #[tactic(auto, using(crate::proofs::Ascii::is_text))]
    pub fn as_str(&self) -> &str
        ensures { result.now ≡ self.now }
    {
        // It is ASCII by the invariant.
        unsafe { str::from_utf8_unchecked(bytes_in(&self.spelling)) }
    }

    pub fn as_bytes(&self) -> &[u8]
        ensures { result.now ≡ self.now }
    {
        bytes_in(&self.spelling)
    }

    pub fn copy(&self, alloc: Global) -> Result<Identifier, AllocError>
        ensures { IfOk result (λ i. i ≡ self.now) }
    {
        let spelling = copy_of(alloc, &self.spelling)?;
        Ok(Identifier { spelling })
    }

    /// Tells callers' contracts what each identifier is.
    pub fn proved(&self)
        ensures { is_identifier self.now ≡ true }
    {
        let _ = &self.spelling;
    }
}
