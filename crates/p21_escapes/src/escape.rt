//! What a string begins with, by its form.

ghost use Rattle.std.specs.Prelude.{◌≡◌, ◌<◌, ◌≤◌, ◌+◌, ◌*◌, ◌^◌, length, drop, IfOk, IfSome};
ghost use Rattle.std.specs.Str.{continuation_len};
ghost use Rattle.p21_escapes.specs.Decoding as spec;
ghost use Rattle.p21_escapes.specs.Forms.{told, Fits};

use crate::digits::{are_four, digit_value, is_digit};
use crate::fault::StringFault;
use crate::kept_bytes::Kept;

/// What a string begins with, by its form. Its codes are yet to be looked at.
#[derive(Clone, Copy)]
pub enum Form {
    /// So many bytes, which spell nothing.
    Nothing(usize),
    /// So many bytes, which spell the character of a code.
    Coded(usize, u64),
    /// A character in UTF-8, of so many bytes.
    Raw(usize),
    /// `\X2\`, so many groups of four digits, and `\X0\`.
    ShortGroups(usize),
    /// `\X4\`, groups of eight digits, that is so many of four, and `\X0\`.
    LongGroups(usize),
}

const BAD_ESCAPE: StringFault = StringFault::BadEscape;

fn is_end(a: u8, b: u8, c: u8, d: u8) -> bool
    ensures { result ≡ spec.is_end a b c d }
{
    a == b'\\' && b == b'X' && c == b'0' && d == b'\\'
}

/// How many groups of four digits there are behind the first four bytes and up to `\X0\`, if
/// nothing else is there.
fn groups(z: &Kept<'_>) -> Option<usize>
    ensures value { result ≡ spec.groups (drop 4 z.now) }
    ensures fits { IfSome result (λ n. (n < 2 ^ 61) × (4 * n ≤ length (drop 4 z.now))) }
{
    let mut z = z.after(4);
    let mut n = 0;
    'groups: while !z.is_empty() {
        let [a, b, c, d] = z.four();
        if is_end(a, b, c, d) {
            return Some(n);
        }
        if !are_four(a, b, c, d) {
            return None;
        }
        n += 1;
        z = z.after(4);
    }
    None
}

fn short_groups(z: &Kept<'_>) -> Result<Form, StringFault>
    ensures told { spec.short_groups (spec.groups (drop 4 z.now)) (drop 4 z.now) ≡ told result z.now }
    ensures fits { IfOk result (λ form. Fits form z.now) }
{
    match groups(z) {
        None | Some(0) => Err(BAD_ESCAPE),
        Some(n) => Ok(Form::ShortGroups(n)),
    }
}

fn long_groups(z: &Kept<'_>) -> Result<Form, StringFault>
    ensures told { spec.long_groups (spec.groups (drop 4 z.now)) (drop 4 z.now) ≡ told result z.now }
    ensures fits { IfOk result (λ form. Fits form z.now) }
{
    let Some(n) = groups(z) else {
        return Err(BAD_ESCAPE);
    };
    if n == 0 || n % 2 == 1 {
        return Err(BAD_ESCAPE);
    }
    Ok(Form::LongGroups(n))
}

/// `\X\hh`
#[tactic(auto, unfolding(crate::specs::Decoding::byte))]
fn single_byte(z: &Kept<'_>) -> Result<Form, StringFault>
    ensures told { spec.byte z.now ≡ told result z.now }
    ensures fits { IfOk result (λ form. Fits form z.now) }
{
    let (high, low) = (z.byte(3), z.byte(4));
    if !is_digit(high) || !is_digit(low) {
        return Err(BAD_ESCAPE);
    }
    let code = digit_value(high) * 16 + digit_value(low);
    Ok(Form::Coded(5, u64::from(code)))
}

#[tactic(auto, unfolding(crate::specs::Decoding::hexadecimal))]
fn hexadecimal(z: &Kept<'_>) -> Result<Form, StringFault>
    ensures told { spec.hexadecimal z.now ≡ told result z.now }
    ensures fits { IfOk result (λ form. Fits form z.now) }
{
    let kind = z.byte(2);
    if kind == b'\\' {
        return single_byte(z);
    }
    if z.byte(3) != b'\\' {
        return Err(BAD_ESCAPE);
    }
    match kind {
        b'2' => short_groups(z),
        b'4' => long_groups(z),
        _ => Err(BAD_ESCAPE),
    }
}

/// `\S\c`
#[tactic(auto, unfolding(crate::specs::Decoding::upper_half))]
fn upper_half(z: &Kept<'_>) -> Result<Form, StringFault>
    ensures told { spec.upper_half z.now ≡ told result z.now }
    ensures fits { IfOk result (λ form. Fits form z.now) }
{
    let c = z.byte(3);
    if z.byte(2) != b'\\' || c < b' ' || c > b'~' {
        return Err(BAD_ESCAPE);
    }
    if c != b'\'' {
        return Ok(Form::Coded(4, u64::from(c) + 128));
    }
    if z.byte(4) != b'\'' {
        return Err(BAD_ESCAPE);
    }
    Ok(Form::Coded(5, 167))
}

/// `\PA\` to `\PI\`, which spell nothing.
#[tactic(auto, unfolding(crate::specs::Decoding::page))]
fn page(z: &Kept<'_>) -> Result<Form, StringFault>
    ensures told { spec.page z.now ≡ told result z.now }
    ensures fits { IfOk result (λ form. Fits form z.now) }
{
    let part = z.byte(2);
    if z.byte(3) != b'\\' || part < b'A' || part > b'I' {
        return Err(BAD_ESCAPE);
    }
    if part != b'A' {
        return Err(StringFault::PageUnsupported);
    }
    Ok(Form::Nothing(4))
}

/// `\N\` and `\F\`, which spell nothing.
#[tactic(auto, unfolding(crate::specs::Decoding::directive))]
fn directive(z: &Kept<'_>) -> Result<Form, StringFault>
    ensures told { spec.directive z.now ≡ told result z.now }
    ensures fits { IfOk result (λ form. Fits form z.now) }
{
    if z.byte(2) != b'\\' {
        return Err(BAD_ESCAPE);
    }
    Ok(Form::Nothing(3))
}

#[tactic(auto, unfolding(crate::specs::Decoding::escape))]
fn escape(z: &Kept<'_>) -> Result<Form, StringFault>
    ensures told { spec.escape z.now ≡ told result z.now }
    ensures fits { IfOk result (λ form. Fits form z.now) }
{
    match z.byte(1) {
        b'\\' => Ok(Form::Coded(2, u64::from(b'\\'))),
        b'X' => hexadecimal(z),
        b'S' => upper_half(z),
        b'P' => page(z),
        b'N' | b'F' => directive(z),
        _ => Err(BAD_ESCAPE),
    }
}

fn raw_len(b: u8) -> usize
    ensures value { result ≡ 1 + continuation_len b }
    ensures within { (1 ≤ result) × (result ≤ 4) }
{
    if b < 128 {
        1
    } else if b < 224 {
        2
    } else if b < 240 {
        3
    } else {
        4
    }
}

/// What a string that isn't empty begins with.
#[tactic(auto, using(crate::proofs::Fronts::bare_coded), unfolding(crate::specs::Decoding::front))]
pub fn front(z: &Kept<'_>) -> Result<Form, StringFault>
    ensures told { spec.front z.now ≡ told result z.now }
    ensures fits { IfOk result (λ form. Fits form z.now) }
{
    let b = z.byte(0);
    if b == b'\\' {
        return escape(z);
    }
    if b >= 128 {
        return Ok(Form::Raw(raw_len(b)));
    }
    if b != b'\'' {
        return Ok(Form::Coded(1, u64::from(b)));
    }
    if z.byte(1) != b'\'' {
        return Err(BAD_ESCAPE);
    }
    Ok(Form::Coded(2, u64::from(b'\'')))
}
