//! Texts in a page of HTML.
use std::fmt;

/// A text of a page, whatever stands in it: what HTML reads as markup is escaped, and control signs are replaced, as those are that turn
/// others round, so that what is read is what stands there.
#[derive(Clone, Copy, Drop)]
pub(crate) struct Escaped<'a>(pub &'a str);

impl fmt::Display for Escaped<'_> {
    fn fmt<W: fmt::Write>(&self, f: &mut fmt::Formatter<W>) -> fmt::Result {
        for sign in self.0.chars() {
            match sign {
                '&' => f.write_str("&amp;")?,
                '<' => f.write_str("&lt;")?,
                '>' => f.write_str("&gt;")?,
                '"' => f.write_str("&quot;")?,
                '\'' => f.write_str("&#39;")?,
                '\n' | '\t' => f.write_char(sign)?,
                '\r' => {}
                '\u{202A}'..='\u{202E}' | '\u{2066}'..='\u{2069}' => {
                    f.write_char(char::REPLACEMENT_CHARACTER)?
                }
                _ if sign.is_control() => f.write_char(char::REPLACEMENT_CHARACTER)?,
                _ => f.write_char(sign)?,
            }
        }
        Ok(())
    }
}
