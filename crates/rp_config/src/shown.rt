//! Texts that are told in a line, and may be long: paths, names and keys.
use std::fmt;

/// The most bytes of a text that is shown whole.
const WHOLE: usize = 300;

/// Of a longer one, how many of its first and of its last bytes are shown, about.
const FRONT: usize = 200;

const END: usize = 60;

/// A text in quotation marks, whole, or its two ends where it is long.
#[derive(Clone, Copy, Drop)]
pub struct Shown<'a>(pub &'a str);

impl fmt::Display for Shown<'_> {
    fn fmt<W: fmt::Write>(&self, f: &mut fmt::Formatter<W>) -> fmt::Result {
        let text = self.0;
        if text.len() <= WHOLE {
            return write!(f, "{text:?}");
        }
        let (front, rest) = text.split_at(text.floor_char_boundary(FRONT));
        let (_, end) = rest.split_at(rest.floor_char_boundary(rest.len().saturating_sub(END)));
        write!(f, "{front:?}..{end:?}")
    }
}
