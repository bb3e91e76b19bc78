//! The tokens of one instance.
use crate::definitions::Definition;
use p21_lexemes::{Token, TokenKind, Tokens};
use std::alloc::{AllocError, Global};

/// The tokens of an instance behind its `=`, and where they begin in the file.
pub(crate) struct Spelled<'t> {
    begin: usize,
    /// Its bytes.
    pub text: &'t [u8],
    tokens: Vec<Token<'t>>,
}

impl Drop for Spelled<'_> {
    fn drop(self) {
        let Spelled {
            begin: _,
            text: _,
            tokens,
        } = self;
        drop(tokens);
    }
}

/// A token of an instance, and where it stands: in which value of which part, counted from 0.
#[derive(Clone, Copy)]
pub(crate) struct Spot<'t> {
    /// Its place among the tokens.
    pub place: usize,
    pub text: &'t [u8],
    pub part: usize,
    pub value: usize,
    /// Within how many lists: none for the keyword of a part, one for a value of it.
    pub depth: usize,
}

impl<'t> Spelled<'t> {
    /// Those of the instance that is defined there.
    pub(crate) fn of(
        alloc: Global,
        text: &'t [u8],
        definition: Definition,
    ) -> Result<Spelled<'t>, AllocError> {
        let begin = definition.behind;
        let text = text.get(begin..).unwrap_or(&[]);
        let mut spelled = Spelled {
            begin,
            text,
            tokens: Vec::new(alloc),
        };
        let mut tokens = Tokens::new(text);
        'tokens: while let Some(token) = tokens.take() {
            if token.kind == TokenKind::Semicolon {
                spelled.text = text.get(..token.at).unwrap_or(&[]);
                break;
            }
            spelled.tokens.push(token)?;
        }
        Ok(spelled)
    }

    /// The first byte of a token, in the file.
    pub(crate) fn at(&self, place: usize) -> usize {
        match self.tokens.get(place) {
            Some(token) => self.begin.saturating_add(token.at),
            None => self.begin,
        }
    }

    /// The place of the token that begins a value of the list that opens there, or that ends the list where it has no more.
    pub(crate) fn value(&self, open: usize, value: usize) -> Option<usize> {
        let mut depth = 0usize;
        let mut left = value;
        for (place, token) in self.tokens.iter().enumerate().skip(open.saturating_add(1)) {
            if left == 0 || depth == 0 && token.kind == TokenKind::Close {
                return Some(place);
            }
            match token.kind {
                TokenKind::Open => depth = depth.saturating_add(1),
                TokenKind::Close => depth = depth.saturating_sub(1),
                TokenKind::Comma if depth == 0 => left = left.saturating_sub(1),
                _ => {}
            }
        }
        None
    }

    /// The tokens of this kind.
    pub(crate) fn spots(
        &self,
        alloc: Global,
        kind: TokenKind,
    ) -> Result<Vec<Spot<'t>>, AllocError> {
        let margin = match self.tokens.first() {
            Some(token) if token.kind == TokenKind::Open => 1usize,
            _ => 0usize,
        };
        let mut found = Vec::new(alloc);
        let mut depth = 0usize;
        let mut parts = 0usize;
        let mut value = 0usize;
        for (place, token) in self.tokens.iter().enumerate() {
            match token.kind {
                TokenKind::Open => depth = depth.saturating_add(1),
                TokenKind::Close => depth = depth.saturating_sub(1),
                TokenKind::Comma if depth == margin.saturating_add(1) => {
                    value = value.saturating_add(1);
                }
                TokenKind::Word if depth == margin => {
                    parts = parts.saturating_add(1);
                    value = 0;
                }
                _ => {}
            }
            if token.kind == kind {
                found.push(Spot {
                    place,
                    text: token.text,
                    part: parts.saturating_sub(1),
                    value,
                    depth: depth.saturating_sub(margin),
                })?;
            }
        }
        Ok(found)
    }

    /// The keywords of its parts.
    pub(crate) fn keywords(&self, alloc: Global) -> Result<Vec<Spot<'t>>, AllocError> {
        let mut spots = self.spots(alloc, TokenKind::Word)?;
        spots.retain(|spot| spot.depth == 0);
        Ok(spots)
    }
}
