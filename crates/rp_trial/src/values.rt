//! The text of a value.

use ex_named::{NamedType, NamedUnderlying};
use itoa::Buffer;
use rp_content::Instance;
use rp_numbers::Logical;
use rp_value::{AggregateKind, Elements, Value};
use std::alloc::AllocError;

/// What names the parts of values: the types of a schema, and the instances of a population.
#[derive(Clone, Copy)]
pub(crate) struct Names<'n> {
    pub(crate) types: &'n [NamedType],
    pub(crate) instances: &'n [Instance],
}

fn type_name<'n>(types: &'n [NamedType], number: usize) -> &'n str {
    match types.get(number) {
        Some(declared) => declared.name.text.as_str(),
        None => "",
    }
}

fn item_name<'n>(types: &'n [NamedType], enumeration: usize, place: usize) -> &'n str {
    let Some(declared) = types.get(enumeration) else {
        return "";
    };
    let NamedUnderlying::Enumeration(items) = &declared.underlying else {
        return "";
    };
    match items.get(place) {
        Some(item) => item.text.as_str(),
        None => "",
    }
}

fn kind_name(kind: AggregateKind) -> &'static str {
    match kind {
        AggregateKind::Array => "ARRAY",
        AggregateKind::List => "LIST",
        AggregateKind::Bag => "BAG",
        AggregateKind::Set => "SET",
        AggregateKind::Initializer => "",
    }
}

fn logical_name(value: Logical) -> &'static str {
    match value {
        Logical::False => "FALSE",
        Logical::Unknown => "UNKNOWN",
        Logical::True => "TRUE",
    }
}

pub(crate) fn write_text(out: &mut Vec<u8>, text: &str) -> Result<(), AllocError> {
    out.extend_from_slice(text.as_bytes())
}

pub(crate) fn write_texts(out: &mut Vec<u8>, texts: &[&str]) -> Result<(), AllocError> {
    for text in texts {
        write_text(out, text)?;
    }
    Ok(())
}

/// A string between apostrophes; each one in it stands twice.
fn write_string(out: &mut Vec<u8>, text: &[u8]) -> Result<(), AllocError> {
    out.push(b'\'')?;
    for byte in text {
        if *byte == b'\'' {
            out.push(b'\'')?;
        }
        out.push(*byte)?;
    }
    write_text(out, "'")
}

fn write_bits(out: &mut Vec<u8>, bits: &[bool]) -> Result<(), AllocError> {
    out.push(b'%')?;
    for bit in bits {
        out.push(if *bit { b'1' } else { b'0' })?;
    }
    Ok(())
}

/// The name of the instance at a place.
fn write_name(out: &mut Vec<u8>, instances: &[Instance], place: u64) -> Result<(), AllocError> {
    match instances.get(place as usize) {
        Some(instance) => write_texts(out, &["#", Buffer::new().format(instance.name)]),
        None => write_text(out, "#"),
    }
}

fn write_item(
    out: &mut Vec<u8>,
    types: &[NamedType],
    enumeration: usize,
    place: usize,
) -> Result<(), AllocError> {
    let owner = type_name(types, enumeration);
    write_texts(out, &[owner, ".", item_name(types, enumeration, place)])
}

/// A value, as EXPRESS writes literals: `SET[1: LABEL('a'), COLOUR.RED, %10, #7]`.
#[cycle(values)]
pub(crate) fn write_value(
    out: &mut Vec<u8>,
    names: Names<'_>,
    value: &Value,
) -> Result<(), AllocError> {
    match value {
        Value::Indet => write_text(out, "?"),
        Value::Int(number) => write_text(out, Buffer::new().format(*number)),
        Value::Dec(decimal) => decimal.get().write(out),
        Value::Str(text) => write_string(out, text.as_bytes()),
        Value::Bin(bits) => write_bits(out, bits.as_slice()),
        Value::Log(value) => write_text(out, logical_name(*value)),
        Value::Item { enumeration, place } => write_item(out, names.types, *enumeration, *place),
        Value::Inst(place) => write_name(out, names.instances, *place),
        Value::Agg { kind, elements } => write_aggregate(out, names, *kind, elements),
        Value::Named {
            defined_type,
            value,
        } => {
            write_texts(out, &[type_name(names.types, *defined_type), "("])?;
            write_value(out, names, value.get())?;
            write_text(out, ")")
        }
    }
}

#[cycle(values)]
fn write_aggregate(
    out: &mut Vec<u8>,
    names: Names<'_>,
    kind: AggregateKind,
    elements: &Elements<Value>,
) -> Result<(), AllocError> {
    let low = elements.low();
    write_texts(
        out,
        &[kind_name(kind), "[", Buffer::new().format(low), ": "],
    )?;
    let values = elements.as_slice();
    'values: for place in 0..values.len() {
        if place > 0 {
            write_text(out, ", ")?;
        }
        write_value(out, names, &values[place])?;
    }
    write_text(out, "]")
}
