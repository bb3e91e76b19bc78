//! The text of a rule, in lines of a terminal.
use ex_tree::Token;
use std::alloc::AllocError;

/// How many columns a line has at most, where it can be cut.
const COLUMNS: usize = 80;

/// Puts the text of a rule behind another text, with one blank where the schema's text has blanks and remarks, in lines behind this
/// margin.
pub fn push_rule(
    out: &mut String,
    margin: &str,
    text: &[u8],
    rule: &[Token<'_>],
) -> Result<(), AllocError> {
    let Some(first) = rule.first() else {
        return Ok(());
    };
    let mut column = 0;
    let mut begin = first.at;
    let mut end = first.at;
    for token in rule {
        if token.at != end {
            column = push_word(out, margin, column, word_of(text, begin, end))?;
            begin = token.at;
        }
        end = token.at.saturating_add(token.text.len());
    }
    push_word(out, margin, column, word_of(text, begin, end))?;
    out.push('\n')
}

/// The text between two bytes. Tokens are UTF-8, and so is what they make without a blank between.
fn word_of(text: &[u8], begin: usize, end: usize) -> &str {
    match text.get(begin..end) {
        Some(bytes) => std::str::from_utf8(bytes).unwrap_or("?"),
        None => "?",
    }
}

/// Puts a word behind those of its line, of which the last ends at this column, or into the next one. Answers where it ends.
fn push_word(
    out: &mut String,
    margin: &str,
    column: usize,
    word: &str,
) -> Result<usize, AllocError> {
    let width = word.chars().count();
    let behind = column.saturating_add(1).saturating_add(width);
    if column > 0 && behind <= COLUMNS {
        out.push(' ')?;
        push_signs(out, word)?;
        return Ok(behind);
    }
    if column > 0 {
        out.push('\n')?;
    }
    out.push_str(margin)?;
    push_signs(out, word)?;
    Ok(margin.len().saturating_add(width))
}

/// Puts a text behind another, with `?` for each sign that moves a terminal.
fn push_signs(out: &mut String, text: &str) -> Result<(), AllocError> {
    for sign in text.chars() {
        out.push(if sign.is_control() { '?' } else { sign })?;
    }
    Ok(())
}
