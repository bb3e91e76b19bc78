//! A fault as people are shown it.
use crate::lines::{push_line, push_words};
use std::alloc::{AllocError, Global};

/// Where a fault lies, and what is told of it.
pub struct FaultPlace {
    /// From 1.
    pub line: usize,
    /// In bytes, from 1.
    pub column: usize,
    /// The line of the text, a caret below the fault, and words, each line of a terminal ended by a line feed.
    pub lines: String,
}

impl Drop for FaultPlace {
    fn drop(self) {
        let FaultPlace {
            line: _,
            column: _,
            lines,
        } = self;
        drop(lines);
    }
}

/// The line of a byte, from 1.
pub(crate) fn line_of(text: &str, at: usize) -> usize {
    let before = text.as_bytes().get(..at).unwrap_or(&[]);
    let feeds = before.iter().filter(|byte| **byte == b'\n').count();
    feeds.saturating_add(1)
}

/// The fault at a byte of a text, of which these words tell, a sentence in each line.
pub(crate) fn place_at(
    alloc: Global,
    text: &str,
    at: usize,
    words: &str,
) -> Result<Option<FaultPlace>, AllocError> {
    let Some((before, behind)) = text.split_at_checked(at) else {
        return Ok(None);
    };
    let front = match before.rsplit_once('\n') {
        Some((_, front)) => front,
        None => before,
    };
    let back = match behind.split_once('\n') {
        Some((back, _)) => back,
        None => behind,
    };
    let mut lines = String::new(alloc);
    push_line(&mut lines, front, back)?;
    push_words(&mut lines, words)?;
    Ok(Some(FaultPlace {
        line: line_of(text, at),
        column: front.len().saturating_add(1),
        lines,
    }))
}
