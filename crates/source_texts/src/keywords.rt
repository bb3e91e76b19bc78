//! The keywords by which an exchange file has an instance.
use crate::inside::Inside;
use std::alloc::AllocError;

/// How much of an instance was seen.
#[derive(Clone, Copy)]
enum Part {
    /// Blanks.
    Front,
    /// Its one keyword.
    Keyword,
    /// Its parts: within so many parentheses of one, and whether one stands before.
    Parts(usize, bool),
    End,
}

/// What a byte is of an instance.
#[derive(Clone, Copy, PartialEq, Eq)]
enum Letter {
    No,
    /// One of a keyword.
    Yes,
    /// One of a keyword, behind a part that has ended.
    First,
}

impl Part {
    fn with(self, byte: u8) -> (Part, Letter) {
        match self {
            Part::Front if is_letter(byte) => (Part::Keyword, Letter::Yes),
            Part::Front if byte == b'(' => (Part::Parts(0, false), Letter::No),
            Part::Front => (Part::Front, Letter::No),
            Part::Keyword if is_letter(byte) => (Part::Keyword, Letter::Yes),
            Part::Keyword | Part::End => (Part::End, Letter::No),
            Part::Parts(depth, behind) => within(depth, behind, byte),
        }
    }
}

/// The same in the parts of an instance.
fn within(depth: usize, behind: bool, byte: u8) -> (Part, Letter) {
    match byte {
        b'(' => (Part::Parts(depth.saturating_add(1), behind), Letter::No),
        b')' if depth == 0 => (Part::End, Letter::No),
        b')' => (Part::Parts(depth.saturating_sub(1), true), Letter::No),
        _ if depth > 0 || !is_letter(byte) => (Part::Parts(depth, behind), Letter::No),
        _ if behind => (Part::Parts(0, false), Letter::First),
        _ => (Part::Parts(0, false), Letter::Yes),
    }
}

fn is_letter(byte: u8) -> bool {
    byte.is_ascii_alphanumeric() || byte == b'_'
}

/// Puts the keywords of the instance that begins these bytes behind a text: in upper case, those of several parts with `+`
/// between.
pub fn push_keywords(out: &mut String, bytes: &[u8]) -> Result<(), AllocError> {
    let mut inside = Inside::Nothing;
    let mut part = Part::Front;
    for byte in bytes {
        if inside.is_open() {
            let (next, letter) = part.with(*byte);
            part = next;
            push_letter(out, letter, *byte)?;
        }
        if let Part::End = part {
            return Ok(());
        }
        inside = inside.behind(*byte);
    }
    Ok(())
}

fn push_letter(out: &mut String, letter: Letter, byte: u8) -> Result<(), AllocError> {
    if letter == Letter::No {
        return Ok(());
    }
    if letter == Letter::First {
        out.push('+')?;
    }
    out.push(char::from(byte.to_ascii_uppercase()))
}
