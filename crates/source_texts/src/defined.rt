//! Where the instances of an exchange file are defined.
use crate::inside::Inside;
use std::alloc::{AllocError, Global};

/// Where an instance is defined.
#[derive(Clone, Copy)]
pub struct Definition {
    /// The line of its name, from 1.
    pub line: u64,
    /// The byte behind its `=`.
    pub behind: usize,
}

/// The last name of an instance that was seen, with its line.
#[derive(Clone, Copy)]
enum Name {
    Nothing,
    /// Digits may follow.
    Begun(u64, u64),
    Ended(u64, u64),
}

impl Name {
    /// The last name once this byte is seen, which stands in this line outside of strings and comments.
    fn with(self, byte: u8, line: u64) -> Name {
        match byte {
            b'#' => Name::Begun(0, line),
            b'=' => Name::Nothing,
            b'0'..=b'9' => self.with_digit(byte),
            _ => self.ended(),
        }
    }

    fn with_digit(self, byte: u8) -> Name {
        match self {
            Name::Begun(name, line) => {
                let digit = u64::from(byte.saturating_sub(b'0'));
                Name::Begun(name.saturating_mul(10).saturating_add(digit), line)
            }
            Name::Nothing | Name::Ended(_, _) => self,
        }
    }

    fn ended(self) -> Name {
        match self {
            Name::Begun(name, line) => Name::Ended(name, line),
            Name::Nothing | Name::Ended(_, _) => self,
        }
    }
}

/// What was seen of a file.
#[derive(Clone, Copy)]
struct Scan {
    inside: Inside,
    /// The line of the byte that comes, from 1.
    line: u64,
    name: Name,
}

impl Scan {
    fn first() -> Scan {
        Scan {
            inside: Inside::Nothing,
            line: 1,
            name: Name::Nothing,
        }
    }

    fn with(self, byte: u8) -> Scan {
        let line = match byte {
            b'\n' => self.line.saturating_add(1),
            _ => self.line,
        };
        let name = if self.inside.is_open() {
            self.name.with(byte, self.line)
        } else {
            self.name
        };
        Scan {
            inside: self.inside.behind(byte),
            line,
            name,
        }
    }

    /// The name that this byte defines, with its line: a `=` stands behind no other.
    fn defined_by(self, byte: u8) -> Option<(u64, u64)> {
        if byte != b'=' || !self.inside.is_open() {
            return None;
        }
        match self.name {
            Name::Begun(name, line) | Name::Ended(name, line) => Some((name, line)),
            Name::Nothing => None,
        }
    }
}

/// Where the instances of these names, which ascend, are defined in a file, in one pass over its bytes. What isn't defined there
/// stands at line 0.
pub fn definitions(
    alloc: Global,
    text: &[u8],
    names: &[u64],
) -> Result<Vec<Definition>, AllocError> {
    let mut found = Vec::with_capacity(alloc, names.len())?;
    for _ in names {
        found.push(Definition { line: 0, behind: 0 })?;
    }
    let mut scan = Scan::first();
    for (at, byte) in text.iter().enumerate() {
        if let Some((name, line)) = scan.defined_by(*byte) {
            let behind = at.saturating_add(1);
            place(&mut found, names, name, Definition { line, behind });
        }
        scan = scan.with(*byte);
    }
    Ok(found)
}

/// Keeps where the instance of this name is defined, if it is one of those that are asked for.
fn place(found: &mut Vec<Definition>, names: &[u64], name: u64, definition: Definition) {
    if let Ok(number) = names.binary_search(&name) {
        if let Some(slot) = found.get_mut(number) {
            *slot = definition;
        }
    }
}
