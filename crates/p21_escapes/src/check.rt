//! The fault of a string.

ghost use Rattle.std.specs.Prelude.{◌≡◌, ◌<◌, ◌≤◌, ◌*◌, length, drop, take, None, IfOk};
ghost use Rattle.p21_escapes.specs.Decoding as spec;
ghost use Rattle.p21_escapes.specs.Forms.{checked, spelled_by, Fits};

use crate::code::{character, group, long_group, raw, unit};
use crate::escape::{Form, front};
use crate::fault::StringFault;
use crate::kept_bytes::Kept;

/// Looks at the codes of so many groups of four digits.
fn check_short(mut z: Kept<'_>, mut n: usize) -> Result<(), StringFault>
    requires { 4 * n ≤ length z }
    ensures { result ≡ checked (spec.short None (take (4 * n) z.entry)) }
{
    let mut high = None;
    'groups: while n > 0 {
        high = unit(high, group(&z))?.1;
        z = z.after(4);
        n -= 1;
    }
    match high {
        None => Ok(()),
        Some(_) => Err(StringFault::BadCode),
    }
}

/// Looks at the codes of groups of eight digits, so many of four.
fn check_long(mut z: Kept<'_>, mut n: usize) -> Result<(), StringFault>
    requires { 4 * n ≤ length z }
    ensures { result ≡ checked (spec.long (take (4 * n) z.entry)) }
{
    'groups: while n > 1 {
        character(long_group(&z))?;
        z = z.after(8);
        n -= 2;
    }
    Ok(())
}

/// Looks at the codes of what stands in front, and says how many bytes it takes.
#[tactic(auto, using(crate::proofs::Spelling::checked_laws))]
fn check_form(form: Form, z: &Kept<'_>) -> Result<usize, StringFault>
    requires { Fits form z.now }
    ensures value { result ≡ checked (spelled_by form z.now) }
    ensures some { IfOk result (λ n. 1 ≤ n) }
{
    match form {
        Form::Nothing(n) => Ok(n),
        Form::Coded(n, code) => {
            character(code)?;
            Ok(n)
        }
        Form::Raw(n) => {
            let four = z.four();
            raw(z, n, &four)?;
            Ok(n)
        }
        Form::ShortGroups(n) => {
            check_short(z.after(4), n)?;
            Ok(4 * n + 8)
        }
        Form::LongGroups(n) => {
            check_long(z.after(4), n)?;
            Ok(4 * n + 8)
        }
    }
}

/// Looks at what a string that isn't empty begins with, and says how many bytes that takes.
fn check_front(z: &Kept<'_>) -> Result<usize, StringFault>
    ensures value { result ≡ checked (spec.front z.now) }
    ensures some { IfOk result (λ n. 1 ≤ n) }
{
    let form = front(z)?;
    check_form(form, z)
}

/// The fault of the bytes between the apostrophes of a string, if they spell none: that of the
/// leftmost faulty escape or byte. It takes no memory.
#[tactic(auto, using(crate::proofs::Fronts::fault_laws))]
pub fn string_fault(bytes: &[u8]) -> Option<StringFault>
    ensures { result ≡ spec.fault bytes.now }
{
    let (_, mut z) = Kept::new(bytes).run();
    'fronts: while !z.is_empty() {
        match check_front(&z) {
            Ok(n) => {
                let (_, rest) = z.after(n).run();
                z = rest;
            }
            Err(fault) => return Some(fault),
        }
    }
    None
}
