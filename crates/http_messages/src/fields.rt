//! What the fields of a head say beside the length of the body.
ghost use Rattle.std.specs.Prelude.{◌≡◌, length, map, All, MatchOption, None, Some};
ghost use Rattle.std.specs.Char.{to_ascii_lowercase};
ghost use Rattle.httparse.specs.Spans.{IsHeaderWithin, header_bytes};
ghost use Rattle.http_messages.specs.Fields.{first_named, token_of, token_in, is_close, stays_of};

use crate::framing::is_name;
use httparse::spans::HeaderSpan;

/// The value of the first field of this name.
fn value_of<'b>(buf: &'b [u8], fields: &[HeaderSpan], name: &[u8]) -> Option<&'b [u8]>
    requires within { All (IsHeaderWithin (length buf.now)) fields.now }
    requires lower { map to_ascii_lowercase name.now ≡ name.now }
    ensures { MatchOption result (first_named name.now (map (header_bytes buf.now) fields.now) ≡ None)
        (λ value. first_named name.now (map (header_bytes buf.now) fields.now) ≡ Some value.now) }
{
    for field in fields {
        if is_name(field.name.of(buf), name) {
            return Some(field.value.of(buf));
        }
    }
    None
}

/// What follows `Bearer `, exactly so, in a value.
fn bearer(value: &[u8]) -> Option<&[u8]>
    ensures { MatchOption result (token_of value.now ≡ None) (λ token. token_of value.now ≡ Some token.now) }
{
    let prefix: &[u8] = b"Bearer ";
    value.strip_prefix(prefix)
}

/// The token that the first Authorization line gives, if it is a Bearer line.
pub(crate) fn find_token<'b>(buf: &'b [u8], fields: &[HeaderSpan]) -> Option<&'b [u8]>
    requires { All (IsHeaderWithin (length buf.now)) fields.now }
    ensures { MatchOption result (token_in (map (header_bytes buf.now) fields.now) ≡ None)
        (λ token. token_in (map (header_bytes buf.now) fields.now) ≡ Some token.now) }
{
    match value_of(buf, fields, b"authorization") {
        Some(value) => bearer(value),
        None => None,
    }
}

fn is_closing(value: &[u8]) -> bool
    ensures { result ≡ is_close value.now }
{
    let close: &[u8] = b"close";
    value.eq_ignore_ascii_case(close)
}

/// Whether the connection goes on after the reply.
pub(crate) fn stays(buf: &[u8], fields: &[HeaderSpan], minor: u8) -> bool
    requires { All (IsHeaderWithin (length buf.now)) fields.now }
    ensures { result ≡ stays_of minor (map (header_bytes buf.now) fields.now) }
{
    if minor == 0 {
        return false;
    }
    match value_of(buf, fields, b"connection") {
        Some(value) => !is_closing(value),
        None => true,
    }
}
