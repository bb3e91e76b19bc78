//! Where bytes that are no configuration are wrong, for the line that the program ends with. Nothing rests on it: whether
//! bytes are a configuration is what [`load_all`](crate::load_all) says.
use crate::config::{MAX_PARTNERS, MAX_SCHEMAS};
use crate::front::has_mark;
use crate::shown::Shown;
use json::{Reader, Scratch, Token};
use std::alloc::{AllocError, Global};

/// What stands next in a configuration.
#[derive(Clone, Copy, Drop)]
enum Next {
    /// The object of the configuration.
    Configuration,
    /// A key of it, or its end.
    Key,
    Partners,
    /// A partner, or the end of their list.
    Partner,
    /// A key of a partner, or his end.
    PartnerKey,
    Name,
    Token,
    Schemas,
    /// The path of a schema's file, or the end of their list.
    Path,
    /// Nothing more.
    Nothing,
}

/// What is wrong, with the key or the words that tell of what.
#[derive(Clone, Copy, Drop)]
enum Wrong<'a> {
    Mark,
    NoUtf8,
    NoJson,
    Unknown(&'a str),
    Missing(&'static str),
    NoObject(&'static str),
    NoList(&'static str),
    NoText(&'static str),
    /// A list has more items than this, which are of this sort.
    TooMany(usize, &'static str),
}

/// What was seen of a configuration so far.
#[derive(Clone, Copy, Drop)]
struct Seen {
    next: Next,
    /// How many items of the list that is read came so far.
    items: usize,
    /// Whether the configuration has this key.
    partners: bool,
    schemas: bool,
    /// Whether the partner that is read has this key.
    name: bool,
    token: bool,
}

impl Seen {
    fn nothing() -> Seen {
        Seen {
            next: Next::Configuration,
            items: 0,
            partners: false,
            schemas: false,
            name: false,
            token: false,
        }
    }

    /// What was seen with this token, or what is wrong with it.
    fn with<'a>(self, token: &Token<'a>) -> Result<Seen, Wrong<'a>> {
        match self.next {
            Next::Configuration => self.with_object(token, "the configuration", Next::Key),
            Next::Key => self.with_key(token),
            Next::Partners => self.with_list(token, "partners", Next::Partner),
            Next::Partner => self.with_partner(token),
            Next::PartnerKey => self.with_partner_key(token),
            Next::Name => self.with_text(token, "name", Next::PartnerKey),
            Next::Token => self.with_text(token, "token", Next::PartnerKey),
            Next::Schemas => self.with_list(token, "schemas", Next::Path),
            Next::Path => self.with_path(token),
            Next::Nothing => Err(Wrong::NoJson),
        }
    }

    fn then(self, next: Next) -> Seen {
        Seen { next, ..self }
    }

    fn with_object<'a>(
        self,
        token: &Token<'a>,
        what: &'static str,
        next: Next,
    ) -> Result<Seen, Wrong<'a>> {
        match token {
            Token::BeginObject => Ok(self.then(next)),
            Token::Bad => Err(Wrong::NoJson),
            _ => Err(Wrong::NoObject(what)),
        }
    }

    fn with_list<'a>(
        self,
        token: &Token<'a>,
        key: &'static str,
        next: Next,
    ) -> Result<Seen, Wrong<'a>> {
        match token {
            Token::BeginArray => Ok(Seen {
                items: 0,
                ..self.then(next)
            }),
            Token::Bad => Err(Wrong::NoJson),
            _ => Err(Wrong::NoList(key)),
        }
    }

    fn with_text<'a>(
        self,
        token: &Token<'a>,
        key: &'static str,
        next: Next,
    ) -> Result<Seen, Wrong<'a>> {
        match token {
            Token::String(_) => Ok(self.then(next)),
            Token::Bad => Err(Wrong::NoJson),
            _ => Err(Wrong::NoText(key)),
        }
    }

    /// One item of a list more, which has at most this many of this sort.
    fn with_item<'a>(self, most: usize, what: &'static str) -> Result<Seen, Wrong<'a>> {
        if self.items >= most {
            return Err(Wrong::TooMany(most, what));
        }
        Ok(Seen {
            items: self.items.saturating_add(1),
            ..self
        })
    }

    fn with_key<'a>(self, token: &Token<'a>) -> Result<Seen, Wrong<'a>> {
        match token {
            Token::Key(key) if *key == "partners" => Ok(Seen {
                partners: true,
                ..self.then(Next::Partners)
            }),
            Token::Key(key) if *key == "schemas" => Ok(Seen {
                schemas: true,
                ..self.then(Next::Schemas)
            }),
            Token::Key(key) => Err(Wrong::Unknown(key)),
            Token::EndObject if !self.partners => Err(Wrong::Missing("partners")),
            Token::EndObject if !self.schemas => Err(Wrong::Missing("schemas")),
            Token::EndObject => Ok(self.then(Next::Nothing)),
            _ => Err(Wrong::NoJson),
        }
    }

    fn with_partner<'a>(self, token: &Token<'a>) -> Result<Seen, Wrong<'a>> {
        if let Token::EndArray = token {
            return Ok(self.then(Next::Key));
        }
        let found = self
            .with_object(token, "a partner", Next::PartnerKey)?
            .with_item(MAX_PARTNERS, "partners")?;
        Ok(Seen {
            name: false,
            token: false,
            ..found
        })
    }

    fn with_partner_key<'a>(self, token: &Token<'a>) -> Result<Seen, Wrong<'a>> {
        match token {
            Token::Key(key) if *key == "name" => Ok(Seen {
                name: true,
                ..self.then(Next::Name)
            }),
            Token::Key(key) if *key == "token" => Ok(Seen {
                token: true,
                ..self.then(Next::Token)
            }),
            Token::Key(key) => Err(Wrong::Unknown(key)),
            Token::EndObject if !self.name => Err(Wrong::Missing("name")),
            Token::EndObject if !self.token => Err(Wrong::Missing("token")),
            Token::EndObject => Ok(self.then(Next::Partner)),
            _ => Err(Wrong::NoJson),
        }
    }

    fn with_path<'a>(self, token: &Token<'a>) -> Result<Seen, Wrong<'a>> {
        if let Token::EndArray = token {
            return Ok(self.then(Next::Key));
        }
        self.with_text(token, "schemas", Next::Path)?
            .with_item(MAX_SCHEMAS, "schemas")
    }
}

/// The place and the key of what is wrong first in bytes that are no configuration, as
/// `line 1 column 14: "tokn" is no key here`; nothing where nothing is.
pub fn wrong_place(alloc: Global, bytes: &[u8]) -> Result<Option<String>, AllocError> {
    if has_mark(bytes) {
        return words_at(alloc, bytes, 0, Wrong::Mark);
    }
    let text = match std::str::from_utf8(bytes) {
        Ok(text) => text,
        Err(error) => return words_at(alloc, bytes, error.valid_up_to(), Wrong::NoUtf8),
    };
    let mut scratch = Scratch::new(alloc);
    let mut reader = Reader::new(text, &mut scratch)?;
    let mut seen = Seen::nothing();
    for _ in 0..bytes.len() {
        let at = first_behind(bytes, reader.offset());
        let Some(token) = reader.next() else {
            break;
        };
        match seen.with(&token) {
            Ok(found) => seen = found,
            Err(wrong) => return words_at(alloc, bytes, at, wrong),
        }
    }
    match seen.next {
        Next::Nothing => Ok(None),
        _ => words_at(alloc, bytes, bytes.len(), Wrong::NoJson),
    }
}

/// The first byte from this one on that is no blank.
fn first_behind(bytes: &[u8], from: usize) -> usize {
    let rest = bytes.get(from..).unwrap_or(&[]);
    let blanks = rest
        .iter()
        .position(|byte| !matches!(*byte, b' ' | b'\t' | b'\n' | b'\r'));
    match blanks {
        Some(blanks) => from.saturating_add(blanks),
        None => bytes.len(),
    }
}

/// The line and the column of a byte, with what is wrong there.
fn words_at(
    alloc: Global,
    bytes: &[u8],
    at: usize,
    wrong: Wrong<'_>,
) -> Result<Option<String>, AllocError> {
    let before = bytes.get(..at).unwrap_or(bytes);
    let line = before.iter().filter(|byte| **byte == b'\n').count();
    let column = before
        .iter()
        .rev()
        .position(|byte| *byte == b'\n')
        .unwrap_or(before.len());
    let place = format!(in alloc;
        "line {} column {}: ",
        line.saturating_add(1),
        column.saturating_add(1)
    )?;
    Ok(Some(words_of(alloc, place.as_str(), wrong)?))
}

fn words_of(alloc: Global, place: &str, wrong: Wrong<'_>) -> Result<String, AllocError> {
    match wrong {
        Wrong::Mark => format!(in alloc; "{place}a byte order mark"),
        Wrong::NoUtf8 => format!(in alloc; "{place}no UTF-8"),
        Wrong::NoJson => format!(in alloc; "{place}no JSON"),
        Wrong::Unknown(key) => format!(in alloc; "{place}{} is no key here", Shown(key)),
        Wrong::Missing(key) => format!(in alloc; "{place}the key {key:?} is missing before"),
        Wrong::NoObject(what) => format!(in alloc; "{place}{what} has to be an object"),
        Wrong::NoList(key) => format!(in alloc; "{place}{key:?} has to be a list"),
        Wrong::NoText(key) => format!(in alloc; "{place}a text is wanted for {key:?}"),
        Wrong::TooMany(most, what) => format!(in alloc; "{place}more than {most} {what}"),
    }
}
