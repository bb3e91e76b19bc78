//! The line of a text in which a byte stands, and a caret below the byte.

ghost use Rattle.std.specs.Prelude.{◌≡◌, ◌++◌, OnOk, take, drop};
ghost use Rattle.std.specs.List.{filter_map};
ghost use Rattle.ex_check.specs.Explained as spec;

use memchr::{memchr, memrchr};
use std::alloc::AllocError;

/// Puts the line in which this byte stands behind other bytes, and then a line with a caret below the byte.
pub(crate) fn push_shown(out: &mut Vec<u8>, text: &[u8], at: usize) -> Result<(), AllocError>
    ensures { OnOk result (out.new.items ≡ out.old.items ++ spec.shown text.now at) }
{
    let (before, behind) = parts(text, at);
    let front = last_line(before);
    out.extend_from_slice(front)?;
    out.extend_from_slice(first_line(behind))?;
    out.push(b'\n')?;
    push_below(out, front)?;
    out.extend_from_slice(b"^\n")?;
    Ok(())
}

/// The bytes before this one, and the others; all and none where there are no more.
fn parts(text: &[u8], at: usize) -> (&[u8], &[u8])
    ensures before { result.0.now ≡ take at text.now }
    ensures behind { result.1.now ≡ drop at text.now }
{
    match text.split_at_checked(at) {
        Some(parts) => parts,
        None => (text, &[]),
    }
}

/// What stands behind the last line feed.
fn last_line(bytes: &[u8]) -> &[u8]
    ensures { result.now ≡ spec.last_line bytes.now }
{
    match memrchr(b'\n', bytes) {
        Some(feed) => &bytes[feed + 1..],
        None => bytes,
    }
}

/// What stands before the first line feed.
fn first_line(bytes: &[u8]) -> &[u8]
    ensures { result.now ≡ spec.first_line bytes.now }
{
    match memchr(b'\n', bytes) {
        Some(feed) => &bytes[..feed],
        None => bytes,
    }
}

/// Puts what stands below these bytes of a line behind other bytes.
fn push_below(out: &mut Vec<u8>, front: &[u8]) -> Result<(), AllocError>
    ensures { OnOk result (out.new.items ≡ out.old.items ++ filter_map spec.below front.now) }
{
    for byte in front {
        if let Some(below) = below(*byte) {
            out.push(below)?;
        }
    }
    Ok(())
}

/// What stands below a byte.
fn below(byte: u8) -> Option<u8>
    ensures { result ≡ spec.below byte }
{
    match byte {
        b'\t' => Some(b'\t'),
        128..=191 => None,
        _ => Some(b' '),
    }
}
