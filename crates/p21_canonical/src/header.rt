//! Values of the header.

ghost use Rattle.std.specs.Prelude.{◌≡◌, ◌++◌, ◌∷◌, [], OnOk, map};
ghost use Rattle.p21_spelling.specs.Tokens.{enclosed};
ghost use Rattle.p21_spelling.specs.Values as spelled;
ghost use Rattle.p21_canonical.specs.Parts.{next};
ghost use Rattle.p21_canonical.specs.Trees as spec;

use crate::output::Output;
use crate::tokens::write_string;
use rp_value::Value;
use std::alloc::AllocError;

/// A value of the header.
#[cycle(header_values)]
fn write_value(out: &mut Output, value: &Value) -> Result<(), AllocError>
    ensures { OnOk result (out.new ≡ out.old ++ (spelled.header_spelling (spec.header_value_tree value.now)).text) }
{
    match value {
        Value::Str(text) => write_string(out, text.as_str()),
        Value::Agg { kind: _, elements } => write_values(out, elements.as_slice()),
        _ => out.push(b'$'),
    }
}

/// Values in parentheses, with commas between.
#[cycle(header_values)]
pub fn write_values(out: &mut Output, values: &[Value]) -> Result<(), AllocError>
    ensures { OnOk result (out.new ≡ out.old ++ enclosed (spelled.listed (map (λ v. spelled.header_spelling (spec.header_value_tree v)) values.now))) }
{
    out.push(b'(')?;
    'values: for number in 0..values.len() {
        write_next(out, number == 0, &values[number])?;
    }
    out.push(b')')
}

/// A value, behind a comma unless it is the first.
#[cycle(header_values)]
fn write_next(out: &mut Output, is_first: bool, value: &Value) -> Result<(), AllocError>
    ensures { OnOk result (out.new ≡ out.old ++ next is_first (spelled.header_spelling (spec.header_value_tree value.now)).text) }
{
    if !is_first {
        out.push(b',')?;
    }
    write_value(out, value)
}
