//! The texts of instances, as an exchange file has them.
use crate::inside::Inside;

/// What a file has from this byte on, which stands behind the `=` of an instance: up to its `;`, or where that stands further on,
/// about as many bytes as may be at most. Answers too whether that is all of it.
pub fn instance_text(text: &str, behind: usize, most: usize) -> (&str, bool) {
    let Some(rest) = text.get(behind..) else {
        return ("", false);
    };
    let (front, _) = rest.split_at(rest.floor_char_boundary(most));
    match end_of(front.as_bytes()) {
        Some(end) => (front.get(..end).unwrap_or(front), true),
        None => (front, false),
    }
}

/// The byte behind the first `;` that stands outside of strings and comments, if one does.
fn end_of(bytes: &[u8]) -> Option<usize> {
    let mut inside = Inside::Nothing;
    for (at, byte) in bytes.iter().enumerate() {
        if *byte == b';' && inside.is_open() {
            return Some(at.saturating_add(1));
        }
        inside = inside.behind(*byte);
    }
    None
}
