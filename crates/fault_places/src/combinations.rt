//! Why no instance may have some entities.
use crate::expressions::push_expression;
use crate::faulty::{Faulty, Told};
use crate::types::{entity_name, push_listed};
use ex_compiled::Compiled;
use ex_layouts::Dictionary;
use ex_subtypes::{EntitySet, Illegal};
use std::alloc::{AllocError, Global};

/// The entities of an instance.
fn set_of(alloc: Global, faulty: &Faulty<'_, '_, '_>) -> Result<EntitySet, AllocError> {
    match (faulty.is_internal, faulty.entities) {
        (true, [entity]) => {
            let line = faulty.schema.line_of(alloc, *entity)?;
            EntitySet::of(alloc, line.as_slice())
        }
        _ => EntitySet::of(alloc, faulty.entities),
    }
}

/// Why no instance may have the entities of this one.
pub(crate) fn illegal(
    alloc: Global,
    schema: &Compiled,
    faulty: &Faulty<'_, '_, '_>,
) -> Result<Option<Told>, AllocError> {
    let set = set_of(alloc, faulty)?;
    let mut words = String::new(alloc);
    let entity = match schema.legal(alloc, &set)? {
        None => return Ok(None),
        Some(Illegal::NotClosed) => push_missing(&mut words, faulty, &set)?,
        Some(Illegal::NotConnected) => push_apart(&mut words, faulty)?,
        Some(Illegal::Violates(entity)) => push_violated(&mut words, faulty.schema, entity, &set)?,
        Some(Illegal::Abstract(entity)) => push_abstract(&mut words, faulty.schema, entity)?,
    };
    faulty.told_at_entity(alloc, entity, words)
}

/// Puts the first entity behind words whose supertype isn't there, and answers its number.
fn push_missing(
    words: &mut String,
    faulty: &Faulty<'_, '_, '_>,
    set: &EntitySet,
) -> Result<usize, AllocError> {
    for number in faulty.entities {
        let Some(entity) = faulty.schema.entities().get(*number) else {
            continue;
        };
        for above in entity.supertypes.as_slice() {
            if !set.has(*above) {
                words.push_str(entity.name.text.as_str())?;
                words.push_str(" is SUBTYPE OF ")?;
                words.push_str(entity_name(faulty.schema, *above))?;
                words.push_str(", which isn't here")?;
                return Ok(*number);
            }
        }
    }
    Ok(0)
}

/// Puts entities behind words that aren't joined, and answers the number of the first.
fn push_apart(words: &mut String, faulty: &Faulty<'_, '_, '_>) -> Result<usize, AllocError> {
    words.push_str("no SUBTYPE OF joins these: ")?;
    for (place, number) in faulty.entities.iter().enumerate() {
        push_listed(words, place == 0, entity_name(faulty.schema, *number))?;
    }
    Ok(faulty.entities.first().copied().unwrap_or(0))
}

/// Puts the direct subtypes of an entity behind words, all or those of a set.
fn push_subtypes(
    words: &mut String,
    schema: &Dictionary<'_>,
    number: usize,
    set: Option<&EntitySet>,
) -> Result<(), AllocError> {
    let mut is_first = true;
    for (place, entity) in schema.entities().iter().enumerate() {
        let is_there = set.is_none_or(|set| set.has(place));
        if is_there && entity.supertypes.as_slice().contains(&number) {
            push_listed(words, is_first, entity.name.text.as_str())?;
            is_first = false;
        }
    }
    Ok(())
}

/// Puts the supertype expression of an entity behind words, and which of its subtypes are there. Answers its number.
fn push_violated(
    words: &mut String,
    schema: &Dictionary<'_>,
    number: usize,
    set: &EntitySet,
) -> Result<usize, AllocError> {
    words.push_str(entity_name(schema, number))?;
    words.push_str(" is SUPERTYPE OF (")?;
    if let Some(entity) = schema.entities().get(number) {
        if let Some(expression) = &entity.constraint {
            push_expression(words, expression, schema)?;
        }
    }
    words.push_str(")\nof its subtypes these are here: ")?;
    push_subtypes(words, schema, number, Some(set))?;
    Ok(number)
}

/// Puts the subtypes of an abstract entity behind words. Answers its number.
fn push_abstract(
    words: &mut String,
    schema: &Dictionary<'_>,
    number: usize,
) -> Result<usize, AllocError> {
    words.push_str(entity_name(schema, number))?;
    words.push_str(" is ABSTRACT, so that one of these is wanted: ")?;
    push_subtypes(words, schema, number, None)?;
    Ok(number)
}
