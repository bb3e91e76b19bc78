//! What is warned of.

ghost use Rattle.std.specs.Prelude.{◌≡◌, map, filter, IfOk};
ghost use Rattle.ex_warnings.specs.Steps.{IsBehind};
ghost use Rattle.ex_warnings.specs.Warnings as spec;

use crate::selects::select_names;
use ex_named::NamedSchema;
use ex_tree::StringToken;
use name_tables::NameTable;
use plain_data::Rows;
use std::alloc::{AllocError, Global};

/// What stands behind `SCHEMA.`, if the text begins so.
fn behind_schema<'a>(schema: &[u8], text: &'a [u8]) -> Option<&'a [u8]>
    ensures { IsBehind schema.now text.now result }
{
    text.strip_prefix(schema)?.strip_prefix(b".")
}

/// Whether a text is `SCHEMA.NAME` for one of the names.
fn is_qualified(schema: &[u8], names: &NameTable<'_>, text: &[u8]) -> bool
    ensures { result ≡ spec.is_qualified schema.now names.now text.now }
{
    match behind_schema(schema, text) {
        Some(name) => names.place(name).is_some(),
        None => false,
    }
}

/// The first bytes of the strings that are `SCHEMA.NAME` for one of the names, in their order.
fn qualified_strings(
    alloc: Global,
    schema: &[u8],
    names: &NameTable<'_>,
    strings: &[StringToken],
) -> Result<Vec<usize>, AllocError>
    ensures { IfOk result (λ found. found.items ≡ map (λ s. s.at) (filter (λ s. spec.is_qualified schema.now names.now s.value) strings.now)) }
{
    let mut found = Vec::new(alloc);
    for string in strings {
        if is_qualified(schema, names, string.value.as_bytes()) {
            found.push(string.at)?;
        }
    }
    Ok(found)
}

/// The first bytes of the string literals that name a SELECT as TYPEOF never does, in the order of the text.
#[tactic(auto, unfolding(crate::specs::Warnings::warnings))]
pub fn warnings(alloc: Global, schema: &NamedSchema) -> Result<Rows<usize>, AllocError>
    ensures { IfOk result (λ found. found ≡ spec.warnings schema.now) }
{
    let names = select_names(alloc, schema.types.as_slice())?;
    let schema_name = schema.name.text.as_bytes();
    let found = qualified_strings(alloc, schema_name, &names, schema.strings.as_slice())?;
    Ok(Rows::from_vec(found))
}
