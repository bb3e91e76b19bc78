//! Supertype expressions, as a schema has them.
use crate::types::{entity_name, push_listed};
use ex_layouts::Dictionary;
use ex_named::NamedSupertype;
use std::alloc::AllocError;

/// Puts a supertype expression behind words.
#[cycle(expression)]
pub(crate) fn push_expression(
    out: &mut String,
    expression: &NamedSupertype,
    schema: &Dictionary<'_>,
) -> Result<(), AllocError> {
    match expression {
        NamedSupertype::Entity(number, _) => out.push_str(entity_name(schema, *number)),
        NamedSupertype::OneOf(parts) => push_one_of(out, parts.as_slice(), schema),
        NamedSupertype::And(parts) => push_chain(out, parts.as_slice(), " AND ", schema),
        NamedSupertype::AndOr(parts) => push_chain(out, parts.as_slice(), " ANDOR ", schema),
    }
}

#[cycle(expression)]
fn push_one_of(
    out: &mut String,
    parts: &[NamedSupertype],
    schema: &Dictionary<'_>,
) -> Result<(), AllocError> {
    out.push_str("ONEOF (")?;
    for (place, part) in parts.iter().enumerate() {
        push_listed(out, place == 0, "")?;
        push_expression(out, part, schema)?;
    }
    out.push(')')
}

/// The parts with a word between, those that are chains themselves in parentheses.
#[cycle(expression)]
fn push_chain(
    out: &mut String,
    parts: &[NamedSupertype],
    word: &str,
    schema: &Dictionary<'_>,
) -> Result<(), AllocError> {
    for (place, part) in parts.iter().enumerate() {
        if place > 0 {
            out.push_str(word)?;
        }
        let is_chain = matches!(part, NamedSupertype::And(_) | NamedSupertype::AndOr(_));
        if is_chain {
            out.push('(')?;
        }
        push_expression(out, part, schema)?;
        if is_chain {
            out.push(')')?;
        }
    }
    Ok(())
}
