//! What the bytes of a string spell.

ghost use Rattle.std.specs.Prelude.{◌≡◌, ◌<◌, ◌≤◌, ◌*◌, length, take, None, IfOk, MatchResult};
ghost use Rattle.std.specs.String.{string_bytes};
ghost use Rattle.plain_data.specs.Gives.{Fails};
ghost use Rattle.text_forms.specs.Reads.{Reads};
ghost use Rattle.p21_escapes.specs.Decoding as spec;
ghost use Rattle.p21_escapes.specs.Forms.{spelled_by, Fits};

use crate::code::{character, group, long_group, raw, unit};
use crate::escape::{Form, front};
use crate::fault::StringFault;
use crate::kept_bytes::Kept;
use plain_data::Failure;

fn push_character(out: &mut String, code: u64) -> Result<(), Failure<StringFault>>
    ensures { Reads (spec.appended (string_bytes out.old) (spec.character code)) result (string_bytes out.new) }
{
    match character(code) {
        Ok(c) => Ok(out.push(c)?),
        Err(fault) => Err(Failure::Fault(fault)),
    }
}

/// Appends the character of a code, which `taken` bytes spell.
#[tactic(auto, using(crate::proofs::Spelling::writer_laws))]
fn push_coded(out: &mut String, taken: usize, code: u64) -> Result<usize, Failure<StringFault>>
    ensures reads { Reads (spec.appended (string_bytes out.old) (spec.coded taken code)) result (string_bytes out.new) }
    ensures taken { IfOk result (λ n. n ≡ taken) }
{
    push_character(out, code)?;
    Ok(taken)
}

/// Appends a character that is written in UTF-8 and has so many bytes.
fn push_raw(out: &mut String, z: &Kept<'_>, n: usize) -> Result<usize, Failure<StringFault>>
    requires { (1 ≤ n) × (n ≤ 4) }
    ensures reads { Reads (spec.appended (string_bytes out.old) (spec.raw n z.now)) result (string_bytes out.new) }
    ensures taken { IfOk result (λ taken. taken ≡ n) }
{
    let four = z.four();
    match raw(z, n, &four) {
        Ok(text) => {
            out.push_str(text)?;
            Ok(n)
        }
        Err(fault) => Err(Failure::Fault(fault)),
    }
}

/// Appends what a group of four digits spells after a high surrogate or after none, and says
/// which high surrogate waits then.
fn push_unit(
    out: &mut String,
    high: Option<u32>,
    group: u32,
) -> Result<Option<u32>, Failure<StringFault>>
    ensures { Reads (spec.appended (string_bytes out.old) (spec.unit high group)) result (string_bytes out.new) }
{
    match unit(high, group) {
        Ok((Some(c), next)) => {
            out.push(c)?;
            Ok(next)
        }
        Ok((None, next)) => Ok(next),
        Err(fault) => Err(Failure::Fault(fault)),
    }
}

/// Appends what so many groups of four digits spell.
fn push_short(out: &mut String, mut z: Kept<'_>, mut n: usize) -> Result<(), Failure<StringFault>>
    requires { 4 * n ≤ length z }
    ensures { Reads (spec.appended (string_bytes out.old) (spec.short None (take (4 * n) z.entry))) result (string_bytes out.new) }
{
    let mut high = None;
    'groups: while n > 0 {
        high = push_unit(out, high, group(&z))?;
        z = z.after(4);
        n -= 1;
    }
    match high {
        None => Ok(()),
        Some(_) => Err(Failure::Fault(StringFault::BadCode)),
    }
}

/// Appends what groups of eight digits spell, so many of four.
fn push_long(out: &mut String, mut z: Kept<'_>, mut n: usize) -> Result<(), Failure<StringFault>>
    requires { 4 * n ≤ length z }
    ensures { Reads (spec.appended (string_bytes out.old) (spec.long (take (4 * n) z.entry))) result (string_bytes out.new) }
{
    'groups: while n > 1 {
        push_character(out, long_group(&z))?;
        z = z.after(8);
        n -= 2;
    }
    Ok(())
}

#[tactic(auto, using(crate::proofs::Spelling::writer_laws))]
fn push_short_groups(
    out: &mut String,
    z: &Kept<'_>,
    n: usize,
) -> Result<usize, Failure<StringFault>>
    requires { Fits (Form.ShortGroups n) z.now }
    ensures reads { Reads (spec.appended (string_bytes out.old) (spelled_by (Form.ShortGroups n) z.now)) result (string_bytes out.new) }
    ensures some { IfOk result (λ taken. 1 ≤ taken) }
{
    push_short(out, z.after(4), n)?;
    Ok(4 * n + 8)
}

#[tactic(auto, using(crate::proofs::Spelling::writer_laws))]
fn push_long_groups(out: &mut String, z: &Kept<'_>, n: usize) -> Result<usize, Failure<StringFault>>
    requires { Fits (Form.LongGroups n) z.now }
    ensures reads { Reads (spec.appended (string_bytes out.old) (spelled_by (Form.LongGroups n) z.now)) result (string_bytes out.new) }
    ensures some { IfOk result (λ taken. 1 ≤ taken) }
{
    push_long(out, z.after(4), n)?;
    Ok(4 * n + 8)
}

/// Appends what stands in front, and says how many bytes that takes.
fn push_form(out: &mut String, form: Form, z: &Kept<'_>) -> Result<usize, Failure<StringFault>>
    requires { Fits form z.now }
    ensures reads { Reads (spec.appended (string_bytes out.old) (spelled_by form z.now)) result (string_bytes out.new) }
    ensures some { IfOk result (λ taken. 1 ≤ taken) }
{
    match form {
        Form::Nothing(n) => Ok(n),
        Form::Coded(n, code) => push_coded(out, n, code),
        Form::Raw(n) => push_raw(out, z, n),
        Form::ShortGroups(n) => push_short_groups(out, z, n),
        Form::LongGroups(n) => push_long_groups(out, z, n),
    }
}

/// Appends what a string that isn't empty begins with, and says how many bytes that takes.
fn push_front(out: &mut String, z: &Kept<'_>) -> Result<usize, Failure<StringFault>>
    ensures reads { Reads (spec.appended (string_bytes out.old) (spec.front z.now)) result (string_bytes out.new) }
    ensures some { IfOk result (λ taken. 1 ≤ taken) }
{
    match front(z) {
        Ok(form) => push_form(out, form, z),
        Err(fault) => Err(Failure::Fault(fault)),
    }
}

/// Appends what comes first, and says what follows it.
fn push_piece<'a>(out: &mut String, z: &Kept<'a>) -> Result<Kept<'a>, Failure<StringFault>>
    requires { 0 < length z.now }
    ensures reads { MatchResult result (λ rest. spec.appended (string_bytes out.new) (spec.spelled rest) ≡ spec.appended (string_bytes out.old) (spec.spelled z.now)) (λ e. Fails e (spec.appended (string_bytes out.old) (spec.spelled z.now))) }
    ensures shorter { IfOk result (λ rest. length rest < length z.now) }
{
    let (run, rest) = z.run();
    if run.is_empty() {
        let taken = push_front(out, z)?;
        return Ok(z.after(taken));
    }
    out.push_str(str::from_utf8(run).unwrap())?;
    Ok(rest)
}

/// Appends what a string spells.
///
/// # Errors
///
/// The fault of the leftmost faulty escape or byte; or want of memory. What was spelled in front may then be appended.
#[tactic(auto, unfolding(crate::specs::Decoding::spelled))]
pub fn push_spelled(out: &mut String, mut z: Kept<'_>) -> Result<(), Failure<StringFault>>
    ensures { Reads (spec.appended (string_bytes out.old) (spec.spelled z.entry)) result (string_bytes out.new) }
{
    'pieces: while !z.is_empty() {
        z = push_piece(out, &z)?;
    }
    Ok(())
}
