//! Binaries.

ghost use Rattle.std.specs.Prelude.{◌≡◌, ◌<◌, ◌+◌, ◌++◌, ◌∷◌, [], OnOk, length, if◌then◌else◌};
ghost use Rattle.p21_canonical.specs.Binaries as spec;

use crate::output::Output;
use std::alloc::AllocError;

fn weighs(weight: u8, bit: bool) -> u8
    ensures { result ≡ spec.weighs weight bit }
{
    if bit { weight } else { 0 }
}

/// The hexadecimal digit of four bits.
fn digit(a: bool, b: bool, c: bool, d: bool) -> u8
    ensures value { result ≡ spec.digit (spec.weighs 8 a + spec.weighs 4 b + spec.weighs 2 c + spec.weighs 1 d) }
    ensures ascii { result < 128 }
{
    const DIGITS: [u8; 16] = *b"0123456789ABCDEF";
    DIGITS[(weighs(8, a) + weighs(4, b) + weighs(2, c) + weighs(1, d)) as usize]
}

/// The first digit, of bits that are no whole group.
fn write_first(out: &mut Output, bits: &[bool]) -> Result<(), AllocError>
    requires { length bits.now < 4 }
    ensures { OnOk result (out.new ≡ out.old ++ spec.digits (spec.unused (length bits.now) ++ bits.now)) }
{
    match bits {
        [a] => out.push(digit(false, false, false, *a)),
        [a, b] => out.push(digit(false, false, *a, *b)),
        [a, b, c] => out.push(digit(false, *a, *b, *c)),
        _ => Ok(()),
    }
}

/// The digits of whole groups of four bits.
fn write_groups(out: &mut Output, bits: &[bool]) -> Result<(), AllocError>
    ensures { OnOk result (out.new ≡ out.old ++ spec.digits bits.now) }
{
    let mut left = bits;
    while let [a, b, c, d, others @ ..] = left {
        out.push(digit(*a, *b, *c, *d))?;
        left = others;
    }
    Ok(())
}

/// How many bits of the first digit are unused.
fn unused_count(count: usize) -> u8
    requires { count < 4 }
    ensures value { result ≡ length (spec.unused count) }
    ensures few { result < 4 }
{
    match count {
        0 => 0,
        count => 4 - count as u8,
    }
}

/// A binary between quotes.
pub(crate) fn write_binary(out: &mut Output, bits: &[bool]) -> Result<(), AllocError>
    ensures { OnOk result (out.new ≡ out.old ++ 34 ∷ (spec.binary bits.now ++ 34 ∷ [])) }
{
    let (first, groups) = bits.split_at(bits.len() % 4);
    out.push(b'"')?;
    out.push(b'0' + unused_count(first.len()))?;
    write_first(out, first)?;
    write_groups(out, groups)?;
    out.push(b'"')
}
