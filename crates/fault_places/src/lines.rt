//! Lines of a terminal.
use std::alloc::AllocError;

/// How many columns a line has.
const COLUMNS: usize = 80;

/// What stands before each line.
const MARGIN: &str = "  ";

/// What stands before the lines in which a sentence goes on.
const FURTHER: &str = "    ";

/// How many columns are left for a line of the text.
const ROOM: usize = 78;

/// How many bytes of words are told at most.
const MOST: usize = 960;

/// A sign as a terminal may be sent it.
fn shown(sign: char) -> char {
    match sign {
        '\t' | '\u{feff}' => ' ',
        sign if sign.is_control() => '?',
        sign => sign,
    }
}

/// The columns of a line that are told.
#[derive(Clone, Copy)]
struct Window {
    first: usize,
    /// The column behind the last one.
    behind: usize,
    /// How many columns the line has.
    width: usize,
}

impl Window {
    /// What is around this column.
    fn around(column: usize, width: usize) -> Window {
        let first = column
            .saturating_sub(ROOM / 2)
            .min(width.saturating_sub(ROOM));
        Window {
            first,
            behind: first.saturating_add(ROOM),
            width,
        }
    }

    /// Whether a point stands in this column, since the line goes on.
    fn is_cut(self, column: usize) -> bool {
        let is_front = self.first > 0 && column < self.first.saturating_add(2);
        let is_back = self.width > self.behind && column >= self.behind.saturating_sub(2);
        is_front || is_back
    }
}

/// Puts a line of a text behind others, which consists of these two parts, and then one with a caret below the second. Of a long
/// line what is around the caret is told.
pub(crate) fn push_line(out: &mut String, front: &str, back: &str) -> Result<(), AllocError> {
    let back = back.trim_end();
    let column = front.chars().count();
    let width = column.saturating_add(back.chars().count());
    let window = Window::around(column, width);
    if width > 0 {
        out.push_str(MARGIN)?;
    }
    for (place, sign) in front.chars().chain(back.chars()).enumerate() {
        if place >= window.first && place < window.behind {
            out.push(if window.is_cut(place) {
                '.'
            } else {
                shown(sign)
            })?;
        }
    }
    out.push('\n')?;
    push_caret(out, column.saturating_sub(window.first))
}

/// Puts a line with a caret in this column behind others.
fn push_caret(out: &mut String, column: usize) -> Result<(), AllocError> {
    out.push_str(MARGIN)?;
    for _ in 0..column {
        out.push(' ')?;
    }
    out.push_str("^\n")
}

/// Puts sentences behind lines, each in lines of its own, and no more than the first ones of many.
pub(crate) fn push_words(out: &mut String, words: &str) -> Result<(), AllocError> {
    let told = match words.split_at_checked(MOST) {
        Some((front, _)) => match front.rsplit_once(' ') {
            Some((front, _)) => front,
            None => front,
        },
        None => words,
    };
    for sentence in told.lines() {
        push_sentence(out, sentence)?;
    }
    if told.len() < words.len() {
        out.push_str(FURTHER)?;
        out.push_str("..\n")?;
    }
    Ok(())
}

/// Puts a sentence behind lines, wrapped at its blanks.
fn push_sentence(out: &mut String, sentence: &str) -> Result<(), AllocError> {
    let mut column = MARGIN.len();
    out.push_str(MARGIN)?;
    for (place, word) in sentence.split(' ').enumerate() {
        let width = word.chars().count();
        let end = column.saturating_add(1).saturating_add(width);
        if place == 0 {
            column = column.saturating_add(width);
        } else if end <= COLUMNS {
            out.push(' ')?;
            column = end;
        } else {
            out.push('\n')?;
            out.push_str(FURTHER)?;
            column = FURTHER.len().saturating_add(width);
        }
        out.push_str(word)?;
    }
    out.push('\n')
}
