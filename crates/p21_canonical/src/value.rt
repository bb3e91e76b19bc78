//! Values.

ghost use Rattle.std.specs.Prelude.{◌≡◌, ◌++◌, ◌∷◌, [], OnOk, map, false, slice_index_or};
ghost use Rattle.p21_spelling.specs.Tokens.{enclosed};
ghost use Rattle.p21_spelling.specs.Values as spelled;
ghost use Rattle.p21_canonical.specs.Parts.{next};
ghost use Rattle.p21_canonical.specs.Trees as spec;

use crate::binary::write_binary;
use crate::output::Output;
use crate::tokens::{write_decimal, write_integer, write_item, write_name, write_string};
use ex_named::{NamedType, NamedUnderlying};
use ex_slots::Slot;
use rp_numbers::Logical;
use rp_value::Value;
use std::alloc::AllocError;

/// The name of a type, in upper case.
fn type_name(types: &[NamedType], number: usize) -> &str
    ensures { result.now ≡ spec.type_name types.now number }
{
    match types.get(number) {
        Some(named) => named.name.text.as_str(),
        None => "",
    }
}

/// The name of an enumeration's item, in upper case.
fn item_name(types: &[NamedType], enumeration: usize, place: usize) -> &str
    ensures { result.now ≡ spec.item_name types.now enumeration place }
{
    let Some(named) = types.get(enumeration) else {
        return "";
    };
    let NamedUnderlying::Enumeration(items) = &named.underlying else {
        return "";
    };
    match items.as_slice().get(place) {
        Some(item) => item.text.as_str(),
        None => "",
    }
}

fn logical_name(value: Logical) -> &'static str
    ensures { result.now ≡ spec.logical_name value }
{
    match value {
        Logical::False => "F",
        Logical::Unknown => "U",
        Logical::True => "T",
    }
}

/// A value.
#[cycle(values)]
pub(crate) fn write_value(
    out: &mut Output,
    types: &[NamedType],
    value: &Value,
) -> Result<(), AllocError>
    ensures { OnOk result (out.new ≡ out.old ++ spelled.text_of (spec.value_tree types.now value.now)) }
{
    match value {
        Value::Indet => out.push(b'$'),
        Value::Int(number) => write_integer(out, *number),
        Value::Dec(decimal) => write_decimal(out, decimal.get()),
        Value::Str(text) => write_string(out, text.as_str()),
        Value::Bin(bits) => write_binary(out, bits.as_slice()),
        Value::Log(value) => write_item(out, logical_name(*value)),
        Value::Item { enumeration, place } => {
            write_item(out, item_name(types, *enumeration, *place))
        }
        Value::Inst(name) => write_name(out, *name),
        Value::Agg { kind: _, elements } => write_values(out, types, elements.as_slice()),
        Value::Named {
            defined_type,
            value,
        } => {
            out.push_str(type_name(types, *defined_type))?;
            out.push(b'(')?;
            write_value(out, types, value.get())?;
            out.push(b')')
        }
    }
}

/// Values in parentheses, with commas between.
#[cycle(values)]
fn write_values(out: &mut Output, types: &[NamedType], values: &[Value]) -> Result<(), AllocError>
    ensures { OnOk result (out.new ≡ out.old ++ enclosed (spelled.listed (map (λ v. spelled.spelling (spec.value_tree types.now v)) values.now))) }
{
    out.push(b'(')?;
    'values: for number in 0..values.len() {
        write_next(out, types, number == 0, &values[number])?;
    }
    out.push(b')')
}

/// A value, behind a comma unless it is the first.
#[cycle(values)]
fn write_next(
    out: &mut Output,
    types: &[NamedType],
    is_first: bool,
    value: &Value,
) -> Result<(), AllocError>
    ensures { OnOk result (out.new ≡ out.old ++ next is_first (spelled.text_of (spec.value_tree types.now value.now))) }
{
    if !is_first {
        out.push(b',')?;
    }
    write_value(out, types, value)
}

/// Whether the attribute in this place is derived; none is beyond the last.
#[tactic(auto, using(crate::proofs::Marks::marked, crate::proofs::Marks::unmarked))]
fn is_derived_at(slots: &[Slot<'_>], place: usize) -> bool
    ensures { result ≡ slice_index_or (spec.marks_of slots.now) place false }
{
    match slots.get(place) {
        Some(slot) => slot.is_derived(),
        None => false,
    }
}

/// The value of an attribute, or `*` if it is derived.
fn write_attribute(
    out: &mut Output,
    types: &[NamedType],
    is_derived: bool,
    value: &Value,
) -> Result<(), AllocError>
    ensures { OnOk result (out.new ≡ out.old ++ spelled.text_of (spec.attribute_tree types.now is_derived value.now)) }
{
    if is_derived {
        return out.push(b'*');
    }
    write_value(out, types, value)
}

/// The same, behind a comma unless it is the first.
fn write_next_attribute(
    out: &mut Output,
    types: &[NamedType],
    is_first: bool,
    is_derived: bool,
    value: &Value,
) -> Result<(), AllocError>
    ensures { OnOk result (out.new ≡ out.old ++ next is_first (spelled.text_of (spec.attribute_tree types.now is_derived value.now))) }
{
    if !is_first {
        out.push(b',')?;
    }
    write_attribute(out, types, is_derived, value)
}

/// The values of attributes in parentheses, with commas between.
pub(crate) fn write_attributes(
    out: &mut Output,
    types: &[NamedType],
    slots: &[Slot<'_>],
    values: &[Value],
) -> Result<(), AllocError>
    ensures { OnOk result (out.new ≡ out.old ++ enclosed (spelled.listed (map spelled.spelling (spec.attributes types.now (spec.marks_of slots.now) values.now)))) }
{
    out.push(b'(')?;
    for (number, value) in values.iter().enumerate() {
        let is_derived = is_derived_at(slots, number);
        write_next_attribute(out, types, number == 0, is_derived, value)?;
    }
    out.push(b')')
}
