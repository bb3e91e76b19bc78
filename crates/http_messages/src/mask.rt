//! A target that isn't of UTF-8 is hidden from the parser, which would refuse it.
ghost use Rattle.std.specs.Prelude.{◌≡◌, ◌<◌, ◌≤◌, suc, length, take, map, MatchOption};
ghost use Rattle.http_messages.specs.Mask.{plain, masked, blank_at, target_at, target_in};

use memchr::memchr;

/// The place of the first blank.
fn first_blank(bytes: &[u8]) -> Option<usize>
    ensures { MatchOption result ((blank_at bytes.now ≡ length bytes.now) × (target_at bytes.now ≡ length bytes.now))
        (λ at. (blank_at bytes.now ≡ at) × (target_at bytes.now ≡ suc at) × (at < length bytes.now)) }
{
    memchr(b' ', bytes)
}

/// How many bytes stand before it.
fn blank_at(bytes: &[u8]) -> usize
    ensures value { result ≡ blank_at bytes.now }
    ensures within { result ≤ length bytes.now }
{
    match first_blank(bytes) {
        Some(at) => at,
        None => bytes.len(),
    }
}

/// Where the target begins.
fn target_at(bytes: &[u8]) -> usize
    ensures value { result ≡ target_at bytes.now }
    ensures within { result ≤ length bytes.now }
{
    match first_blank(bytes) {
        Some(at) => at + 1,
        None => bytes.len(),
    }
}

/// The target, as far as it has come.
pub(crate) fn target_in(bytes: &[u8]) -> &[u8]
    ensures { result.now ≡ target_in bytes.now }
{
    let behind = &bytes[target_at(bytes)..];
    &behind[..blank_at(behind)]
}

/// A byte past ASCII as one within it, so that it may stand in any text.
fn plain(byte: u8) -> u8
    ensures { result ≡ plain byte }
{
    if byte > 127 { b'a' } else { byte }
}

fn make_plain(target: &mut [u8])
    ensures { target.new ≡ map plain target.old }
{
    for byte in target.iter_mut() {
        *byte = plain(*byte);
    }
}

/// Makes the target of the bytes plain.
fn mask(text: &mut [u8])
    ensures { text.new ≡ masked text.old }
{
    let start = target_at(text);
    let end = start + blank_at(&text[start..]);
    make_plain(&mut text[start..end]);
}

/// Copies the bytes to the front of the room, with a plain target.
pub(crate) fn copy_masked(bytes: &[u8], copy: &mut [u8])
    requires { length bytes.now ≤ length copy.old }
    ensures { take (length bytes.now) copy.new ≡ masked bytes.now }
{
    let text = &mut copy[..bytes.len()];
    text.copy_from_slice(bytes);
    mask(text);
}
