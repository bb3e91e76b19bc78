//! How canonical text writes a text.

ghost use Rattle.std.specs.Prelude.{◌≡◌, ◌++◌, ℕ, List, ◌∷◌, length, take, true, OnOk, OnErr};
ghost use Rattle.std.specs.List.{flat_map, list_any};
ghost use Rattle.p21_escapes.specs.Digits as digits;
ghost use Rattle.p21_escapes.specs.Encoding as spec;

use crate::digits::four;
use std::alloc::AllocError;

fn is_plain(c: char) -> bool
    ensures { result ≡ spec.is_plain c }
{
    (' '..='~').contains(&c)
}

fn push_plain(out: &mut Vec<u8>, c: char) -> Result<(), AllocError>
    requires { spec.is_plain c ≡ true }
    ensures ok { OnOk result (out.new.items ≡ out.old.items ++ spec.plain_text c) }
    ensures err { OnErr result (out.new.items ≡ out.old.items) }
{
    match c {
        '\'' => out.extend_from_slice(b"''"),
        '\\' => out.extend_from_slice(b"\\\\"),
        _ => Ok(out.push(c as u8)?),
    }
}

fn push_short(out: &mut Vec<u8>, run: &[char]) -> Result<(), AllocError>
    ensures ok { OnOk result (out.new.items ≡ out.old.items ++ flat_map digits.four run.now) }
    ensures err { OnErr result (take (length out.old.items) out.new.items ≡ out.old.items) }
{
    for c in run {
        out.extend_from_slice(&four(*c as u32))?;
    }
    Ok(())
}

fn push_long(out: &mut Vec<u8>, run: &[char]) -> Result<(), AllocError>
    ensures ok { OnOk result (out.new.items ≡ out.old.items ++ flat_map digits.eight run.now) }
    ensures err { OnErr result (take (length out.old.items) out.new.items ≡ out.old.items) }
{
    for c in run {
        out.extend_from_slice(&four(*c as u32 / 65536))?;
        out.extend_from_slice(&four(*c as u32 % 65536))?;
    }
    Ok(())
}

fn is_wide(run: &[char]) -> bool
    ensures { result ≡ list_any spec.is_wide run.now }
{
    run.iter().any(|c| *c as u32 > 65535)
}

/// Appends a run of characters that don't stand for themselves.
fn push_others(out: &mut Vec<u8>, run: &[char]) -> Result<(), AllocError>
    ensures ok { OnOk result (out.new.items ≡ out.old.items ++ spec.others_text run.now) }
    ensures err { OnErr result (take (length out.old.items) out.new.items ≡ out.old.items) }
{
    if is_wide(run) {
        out.extend_from_slice(b"\\X4\\")?;
        push_long(out, run)?;
    } else {
        out.extend_from_slice(b"\\X2\\")?;
        push_short(out, run)?;
    }
    out.extend_from_slice(b"\\X0\\")
}

/// Appends a run of such characters, if one was begun.
fn push_open(out: &mut Vec<u8>, run: &[char]) -> Result<(), AllocError>
    ensures ok { OnOk result (out.new.items ≡ out.old.items ++ spec.open_text run.now) }
    ensures err { OnErr result (take (length out.old.items) out.new.items ≡ out.old.items) }
{
    if run.is_empty() {
        return Ok(());
    }
    push_others(out, run)
}

/// Takes one character more, with the run that was begun before it.
fn push_next(out: &mut Vec<u8>, run: &mut Vec<char>, c: char) -> Result<(), AllocError>
    ensures ok { OnOk result ((cs : List ℕ) → out.new.items ++ spec.runs_text (spec.with_run run.new.items (spec.runs cs)) ≡ out.old.items ++ spec.runs_text (spec.with_run run.old.items (spec.runs (c ∷ cs)))) }
    ensures keeps { take (length out.old.items) out.new.items ≡ out.old.items }
{
    if !is_plain(c) {
        run.push(c)?;
        return Ok(());
    }
    push_open(out, run.as_slice())?;
    run.clear();
    push_plain(out, c)
}

/// Appends the one spelling that canonical text has for a text.
///
/// # Errors
///
/// Want of memory. A part may then be appended.
#[tactic(auto, unfolding(crate::specs::Encoding::encoded))]
pub fn push_all(out: &mut Vec<u8>, text: &str) -> Result<(), AllocError>
    ensures ok { OnOk result (out.new.items ≡ out.old.items ++ spec.encoded text.now) }
    ensures err { OnErr result (take (length out.old.items) out.new.items ≡ out.old.items) }
{
    let mut run = Vec::new(*out.allocator());
    for c in text.chars() {
        push_next(out, &mut run, c)?;
    }
    push_open(out, run.as_slice())
}
