//! Objects whose members are strings. Each is copied once, out of the text, where a reader of all JSON marks each place at
//! which a token may begin, and copies a string with an escape twice.

ghost use Rattle.std.specs.Prelude.{◌≡◌, ◌+◌, ◌<◌, ◌≤◌, [], ◌∷◌, Some, IfOk, IfSome, string_bytes, length, take, drop, min};
ghost use Rattle.std.specs.List.{fold};
ghost use Rattle.json.specs.Text.{content, short_escape, prepend, plain as unescaped};
ghost use Rattle.json.specs.Token.{string as string_token};
ghost use Rattle.json.specs.Json.{value, members};
ghost use Rattle.json.specs.Lex.{lex, between, in_string, token, colon, punctuate, fresh};
ghost use Rattle.serde_json.specs.Data.{no_members};
ghost use Rattle.serde_json.specs.View.{members_view};
ghost use Rattle.serde_json.specs.Find.{as_object};
ghost use Rattle.serde_json.specs.Read.{of_members, converted, read as read_json};
ghost use Rattle.std.specs.Option.{option_and_then};
ghost use Rattle.shallow_json.specs.Shallow.{shallow};
ghost use Rattle.shallow_json.specs.Texts.{HasNoControl, Follows};

use memchr::memchr2;
use serde_json::{Map, Value};
use std::alloc::{AllocError, Global};

/// The most members that are read. Who sends more wants no request, and the text is read again.
const MOST: usize = 16;

/// Where spaces end, from a place on.
fn after_spaces(bytes: &[u8], at: usize) -> usize
    requires { at ≤ length bytes.now }
    ensures same { lex between (drop at bytes.now) ≡ lex between (drop result bytes.now) }
    ensures bounds { (at ≤ result) × (result ≤ length bytes.now) }
{
    let mut end = at;
    'spaces: while end < bytes.len() && bytes[end] == b' ' {
        end += 1;
    }
    end
}

/// The place behind this byte, if it stands at a place, or behind spaces there.
fn taken(bytes: &[u8], at: usize, byte: u8) -> Option<usize>
    requires { at ≤ length bytes.now }
    ensures { IfSome result (λ end. (lex between (drop at bytes.now) ≡ lex between (byte ∷ drop end bytes.now)) × (at < end) × (end ≤ length bytes.now)) }
{
    let from = after_spaces(bytes, at);
    if from < bytes.len() && bytes[from] == byte {
        Some(from + 1)
    } else {
        None
    }
}

/// What a backslash and this byte stand for, other than `\u`.
fn escaped(byte: u8) -> Option<char>
    ensures meant { IfSome result (λ c. short_escape byte ≡ Some c) }
    ensures ascii { IfSome result (λ c. c < 128) }
    ensures other { IfSome result (λ _. byte ≡ 117 → ⊥) }
{
    match byte {
        b'n' => Some('\n'),
        b'"' => Some('"'),
        b'\\' => Some('\\'),
        b'/' => Some('/'),
        b't' => Some('\t'),
        b'r' => Some('\r'),
        b'b' => Some('\u{8}'),
        b'f' => Some('\u{c}'),
        _ => None,
    }
}

/// The character of the escape that begins at a place, if it is one of two bytes.
fn escape_at(bytes: &[u8], at: usize) -> Option<char>
    requires { at ≤ length bytes.now }
    ensures read { IfSome result (λ c. content unescaped (drop at bytes.now) ≡ prepend (c ∷ []) (content unescaped (drop (at + 2) bytes.now))) }
    ensures passed { IfSome result (λ _. lex in_string (drop at bytes.now) ≡ lex in_string (drop (at + 2) bytes.now)) }
    ensures within { IfSome result (λ _. at + 2 ≤ length bytes.now) }
    ensures ascii { IfSome result (λ c. c < 128) }
{
    if bytes.len() - at < 2 || bytes[at] != b'\\' {
        return None;
    }
    let meant = escaped(bytes[at + 1])?;
    Some(meant)
}

/// From a place within a string up to the next quote or backslash.
fn run_at(text: &str, at: usize) -> Option<&str>
    requires within { at ≤ length text.now }
    requires printable { HasNoControl text.now }
    ensures read { IfSome result (λ run. content unescaped (drop at text.now) ≡ prepend run.now (content unescaped (drop (at + length run.now) text.now))) }
    ensures passed { IfSome result (λ run. lex in_string (drop at text.now) ≡ lex in_string (drop (at + length run.now) text.now)) }
    ensures short { IfSome result (λ run. at + length run.now < length text.now) }
{
    let count = memchr2(b'"', b'\\', &text.as_bytes()[at..])?;
    let run = text.get(at..at + count)?;
    Some(run)
}

/// The string that begins at a place, behind its quote, and the place behind the quote that closes it; nothing where it has
/// an escape by code.
fn string_from(
    alloc: Global,
    text: &str,
    from: usize,
) -> Result<Option<(String, usize)>, AllocError>
    requires within { from ≤ length text.now }
    requires printable { HasNoControl text.now }
    ensures read { IfOk result (λ found. IfSome found (λ p. content unescaped (drop from text.now) ≡ Some (string_bytes p.0))) }
    ensures passed { IfOk result (λ found. IfSome found (λ p. lex in_string (drop from text.now) ≡ lex between (drop p.1 text.now))) }
    ensures within { IfOk result (λ found. IfSome found (λ p. (from < p.1) × (p.1 ≤ length text.now))) }
{
    let bytes = text.as_bytes();
    let mut string = String::new(alloc);
    let mut at = from;
    'pieces: loop {
        let Some(run) = run_at(text, at) else {
            return Ok(None);
        };
        string.push_str(run)?;
        let stop = at + run.len();
        if bytes[stop] == b'"' {
            return Ok(Some((string, stop + 1)));
        }
        let Some(meant) = escape_at(bytes, stop) else {
            return Ok(None);
        };
        string.push(meant)?;
        at = stop + 2;
    }
}

/// The string at a place, or behind spaces there, and the place behind it.
fn string_at(alloc: Global, text: &str, at: usize) -> Result<Option<(String, usize)>, AllocError>
    requires within { at ≤ length text.now }
    requires printable { HasNoControl text.now }
    ensures read { IfOk result (λ found. IfSome found (λ p. lex between (drop at text.now) ≡ token (string_token (string_bytes p.0)) ∷ lex between (drop p.1 text.now))) }
    ensures within { IfOk result (λ found. IfSome found (λ p. (at < p.1) × (p.1 ≤ length text.now))) }
{
    let Some(from) = taken(text.as_bytes(), at, b'"') else {
        return Ok(None);
    };
    let Some((string, end)) = string_from(alloc, text, from)? else {
        return Ok(None);
    };
    Ok(Some((string, end)))
}

/// The key and the string of the member at a place, and the place behind it.
fn member_at(
    alloc: Global,
    text: &str,
    at: usize,
) -> Result<Option<(String, String, usize)>, AllocError>
    requires within { at ≤ length text.now }
    requires printable { HasNoControl text.now }
    ensures read { IfOk result (λ found. IfSome found (λ m. lex between (drop at text.now)
        ≡ token (string_token (string_bytes m.0)) ∷ colon ∷ token (string_token (string_bytes m.1)) ∷ lex between (drop m.2 text.now))) }
    ensures within { IfOk result (λ found. IfSome found (λ m. (at < m.2) × (m.2 ≤ length text.now))) }
{
    let Some((key, behind)) = string_at(alloc, text, at)? else {
        return Ok(None);
    };
    let Some(value) = taken(text.as_bytes(), behind, b':') else {
        return Ok(None);
    };
    let Some((string, end)) = string_at(alloc, text, value)? else {
        return Ok(None);
    };
    Ok(Some((key, string, end)))
}

/// What stands behind a member.
#[derive(Clone, Copy)]
enum Behind {
    /// Another one, from a place on.
    Member(usize),
    /// The end of the object and of the text.
    End,
    /// Something else.
    Other,
}

/// What stands at a place, behind a member.
fn behind_member(bytes: &[u8], at: usize) -> Behind
    requires { at ≤ length bytes.now }
    ensures { Follows (lex between (drop at bytes.now)) at bytes.now result }
{
    if let Some(next) = taken(bytes, at, b',') {
        return Behind::Member(next);
    }
    match taken(bytes, at, b'}') {
        Some(end) if after_spaces(bytes, end) == bytes.len() => Behind::End,
        _ => Behind::Other,
    }
}

/// The members from a place within an object on, up to the end of the text.
fn members_from(
    alloc: Global,
    text: &str,
    from: usize,
) -> Result<Option<Map<String, Value>>, AllocError>
    requires within { from ≤ length text.now }
    requires printable { HasNoControl text.now }
    ensures read { IfOk result (λ found. IfSome found (λ m.
        let ts = punctuate fresh (lex between (drop from text.now)) in
        converted (λ ms. of_members ms no_members) (members (value 126) (length ts) ts) ≡ Some (members_view m.entries, []))) }
    ensures texts { IfOk result (λ found. IfSome found (λ m. shallow (members_view m.entries) ≡ members_view m.entries)) }
{
    let mut found = Map::new(alloc);
    let mut at = from;
    'members: for _ in 0..MOST {
        let Some((key, string, end)) = member_at(alloc, text, at)? else {
            return Ok(None);
        };
        drop(found.insert(key, Value::String(string))?);
        match behind_member(text.as_bytes(), end) {
            Behind::Member(next) => at = next,
            Behind::End => return Ok(Some(found)),
            Behind::Other => return Ok(None),
        }
    }
    Ok(None)
}

/// The least byte, if there is one.
fn least_byte(bytes: &[u8]) -> u8
    ensures { result ≡ fold min 255 bytes.now }
{
    let mut least = 255u8;
    for byte in bytes {
        least = least.min(*byte);
    }
    least
}

/// The members of the object that a text is, if they are one string at least and nothing else, and no string has an escape
/// by code. Nothing is said of another text.
pub fn read_texts(alloc: Global, text: &str) -> Result<Option<Map<String, Value>>, AllocError>
    ensures read { IfOk result (λ found. IfSome found (λ m. option_and_then as_object (read_json text.now) ≡ Some (members_view m.entries))) }
    ensures texts { IfOk result (λ found. IfSome found (λ m. shallow (members_view m.entries) ≡ members_view m.entries)) }
{
    if least_byte(text.as_bytes()) < b' ' {
        return Ok(None);
    }
    let Some(from) = taken(text.as_bytes(), 0, b'{') else {
        return Ok(None);
    };
    let Some(members) = members_from(alloc, text, from)? else {
        return Ok(None);
    };
    Ok(Some(members))
}
