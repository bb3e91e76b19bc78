//! Faults of a file's spelling.
use crate::place::{FaultPlace, place_at};
use p21_tree::{FaultKind, FileFault};
use std::alloc::{AllocError, Global};

/// Where the first fault of a file lies, and what it is.
pub fn place_of_file_fault(
    alloc: Global,
    text: &str,
    fault: FileFault,
) -> Result<Option<FaultPlace>, AllocError> {
    place_at(alloc, text, fault.at, words_of(text, fault))
}

fn words_of(text: &str, fault: FileFault) -> &'static str {
    match fault.kind {
        FaultKind::Token => "no token begins here",
        FaultKind::Open => "this string, binary or comment has no end",
        FaultKind::Escape =>
            "in this string a \\ begins no escape: one that means itself is doubled",
        FaultKind::Page => "this string selects another page of ISO 8859 than the first",
        FaultKind::Code => "in this string an escape's number is no character",
        FaultKind::Utf8 => "this string isn't UTF-8",
        FaultKind::Number => "this number is out of its range",
        FaultKind::Syntax if fault.at >= text.len() => "the file ends here",
        FaultKind::Syntax => "this can't stand here",
        FaultKind::Sections => "a second data section begins here",
        FaultKind::Deep => "this is nested deeper than 16 lists",
    }
}
