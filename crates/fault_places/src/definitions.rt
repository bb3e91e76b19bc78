//! Where a file defines its instances.
use p21_lexemes::{TokenKind, Tokens};
use std::alloc::{AllocError, Global};

/// Where an instance is defined.
#[derive(Clone, Copy)]
pub(crate) struct Definition {
    /// The first byte of its name.
    pub at: usize,
    /// The byte behind its `=`.
    pub behind: usize,
}

/// The instances that a file defines.
pub(crate) struct Definitions {
    /// Where the one of a name is defined first.
    pub first: Option<Definition>,
    /// Where it is defined the second time.
    pub second: Option<Definition>,
    /// The names of all, in ascending order.
    names: Vec<u64>,
}

impl Drop for Definitions {
    fn drop(self) {
        let Definitions {
            first: _,
            second: _,
            names,
        } = self;
        drop(names);
    }
}

/// The number of an instance's name as it is spelled.
pub(crate) fn name_of(token: &[u8]) -> u64 {
    let mut number = 0u64;
    for byte in token {
        if byte.is_ascii_digit() {
            let digit = u64::from(byte.saturating_sub(b'0'));
            number = number.saturating_mul(10).saturating_add(digit);
        }
    }
    number
}

impl Definitions {
    /// Those of a file, of which the one of this name is looked for.
    pub(crate) fn of(alloc: Global, text: &[u8], name: u64) -> Result<Definitions, AllocError> {
        let mut found = Definitions {
            first: None,
            second: None,
            names: Vec::new(alloc),
        };
        let mut tokens = Tokens::of_file(text);
        let mut last = (0u64, 0usize);
        'tokens: while let Some(token) = tokens.take() {
            match token.kind {
                TokenKind::Name => last = (name_of(token.text), token.at),
                TokenKind::Equals => {
                    let (number, at) = last;
                    let behind = token.at.saturating_add(1);
                    found.put(number, name, Definition { at, behind })?;
                },
                _ => {}
            }
        }
        found.names.sort_unstable();
        Ok(found)
    }

    /// Puts the definition of a number behind the others, where this name is looked for.
    fn put(&mut self, number: u64, name: u64, definition: Definition) -> Result<(), AllocError> {
        if number == name {
            if self.first.is_none() {
                self.first = Some(definition);
            } else if self.second.is_none() {
                self.second = Some(definition);
            }
        }
        self.names.push(number)?;
        Ok(())
    }

    /// Whether an instance has this name.
    pub(crate) fn has(&self, name: u64) -> bool {
        self.names.binary_search(&name).is_ok()
    }
}
