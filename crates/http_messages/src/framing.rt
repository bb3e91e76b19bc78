//! How long a body is.
ghost use Rattle.std.specs.Prelude.{◌≡◌, length, map, codes, All, None};
ghost use Rattle.std.specs.List.{list_any};
ghost use Rattle.std.specs.Char.{to_ascii_lowercase};
ghost use Rattle.httparse.specs.Spans.{IsHeaderWithin, header_bytes};
ghost use Rattle.http_messages.specs.Framing.{is_named, length_value, framing_of, length_from, joined, stepped};

use httparse::spans::HeaderSpan;

#[derive(Clone, Copy, PartialEq, Eq)]
pub(crate) enum Framing {
    Sized(u64),
    BadLength,
    Coded,
}

/// How the fields frame the body.
pub(crate) fn find_framing(buf: &[u8], fields: &[HeaderSpan]) -> Framing
    requires { All (IsHeaderWithin (length buf.now)) fields.now }
    ensures { result ≡ framing_of (map (header_bytes buf.now) fields.now) }
{
    if is_coded(buf, fields) {
        return Framing::Coded;
    }
    length_of(buf, fields)
}

fn is_coded(buf: &[u8], fields: &[HeaderSpan]) -> bool
    requires { All (IsHeaderWithin (length buf.now)) fields.now }
    ensures { result ≡ list_any (λ p. is_named p.0 (codes "transfer-encoding")) (map (header_bytes buf.now) fields.now) }
{
    for field in fields {
        if is_name(field.name.of(buf), b"transfer-encoding") {
            return true;
        }
    }
    false
}

fn length_of(buf: &[u8], fields: &[HeaderSpan]) -> Framing
    requires { All (IsHeaderWithin (length buf.now)) fields.now }
    ensures { result ≡ length_from None (map (header_bytes buf.now) fields.now) }
{
    let mut found = None;
    for field in fields {
        let Some(next) = step(found, field.name.of(buf), field.value.of(buf)) else {
            return Framing::BadLength;
        };
        found = next;
    }
    Framing::Sized(found.unwrap_or(0))
}

pub(crate) fn is_name(name: &[u8], other: &[u8]) -> bool
    requires { map to_ascii_lowercase other.now ≡ other.now }
    ensures { result ≡ is_named name.now other.now }
{
    name.eq_ignore_ascii_case(other)
}

fn step(found: Option<u64>, name: &[u8], value: &[u8]) -> Option<Option<u64>>
    ensures { result ≡ stepped found (name.now, value.now) }
{
    if is_name(name, b"content-length") {
        match joined(found, number(value)) {
            Some(n) => Some(Some(n)),
            None => None,
        }
    } else {
        Some(found)
    }
}

fn joined(found: Option<u64>, next: Option<u64>) -> Option<u64>
    ensures { result ≡ joined found next }
{
    match (found, next) {
        (None, Some(n)) => Some(n),
        (Some(m), Some(n)) if m == n => Some(n),
        _ => None,
    }
}

/// A number of 1 to 18 digits.
fn number(value: &[u8]) -> Option<u64>
    ensures { result ≡ length_value value.now }
{
    if value.is_empty() || value.len() > 18 {
        return None;
    }
    let mut n = 0u64;
    for b in value {
        if !b.is_ascii_digit() {
            return None;
        }
        n = n * 10 + u64::from(*b - b'0');
    }
    Some(n)
}
