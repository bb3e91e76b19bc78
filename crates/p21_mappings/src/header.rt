//! The header of a file.

ghost use Rattle.std.specs.Prelude.{◌≡◌, map, IfOk, OnOk};
ghost use Rattle.p21_escapes.specs.Decoding.{decoded};
ghost use Rattle.p21_values.specs.Tokens.{ok};
ghost use Rattle.p21_mappings.specs.Contents as spec;

use p21_strings::decode_string;
use p21_tree::{Header as SpelledHeader, HeaderValue};
use plain_data::{Failure, Items};
use rp_content::Header;
use rp_value::{AggregateKind, Value};
use std::alloc::{AllocError, Global};

/// The characters that the bytes between apostrophes spell.
fn text(alloc: Global, token: &[u8]) -> Result<Value, AllocError>
    ensures { IfOk result (λ x. x ≡ spec.text (ok (decoded token.now))) }
{
    match decode_string(alloc, token) {
        Ok(text) => Value::text(alloc, text),
        Err(Failure::Fault(_)) => Ok(Value::Indet),
        Err(Failure::NoMemory) => Err(AllocError),
    }
}

#[cycle(header)]
#[tactic(auto, unfolding(crate::specs::Contents::header_value))]
fn header_value(alloc: Global, value: &HeaderValue<'_>) -> Result<Value, AllocError>
    ensures { IfOk result (λ x. x ≡ spec.header_value value.now) }
{
    match value {
        HeaderValue::Unset => Ok(Value::Indet),
        HeaderValue::Text(token) => text(alloc, token.as_slice()),
        HeaderValue::List(values) => {
            let items = header_values(alloc, values.as_slice())?;
            Value::aggregate(alloc, AggregateKind::List, 1, items)
        }
    }
}

#[cycle(header)]
fn header_values(alloc: Global, values: &[HeaderValue<'_>]) -> Result<Items<Value>, AllocError>
    ensures { IfOk result (λ xs. xs ≡ map spec.header_value values.now) }
{
    let mut items = Items::new(alloc);
    for value in values {
        items.push(header_value(alloc, value)?)?;
    }
    Ok(items)
}

/// What the header says, but for the schema.
pub fn header_of(alloc: Global, header: &SpelledHeader<'_>) -> Result<Header, AllocError>
    ensures { IfOk result (λ h. h ≡ spec.header header.now) }
{
    let description = header_values(alloc, header.description.as_slice())?;
    let name = header_values(alloc, header.name.as_slice())?;
    Ok(Header { description, name })
}
