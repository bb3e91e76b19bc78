//! Where something stands in the bytes of a snapshot.

use json::Reader;

/// How many bytes the first line has, with its end.
const FIRST_LINE: usize = 11;

/// The byte of the snapshot that is this one of the text behind the first line.
pub(crate) fn behind_first_line(at: usize) -> usize {
    at.saturating_add(FIRST_LINE)
}

/// The byte of the snapshot that the reader of the text behind the first line has reached.
pub(crate) fn reached(reader: &Reader<'_>) -> usize {
    behind_first_line(reader.offset())
}
