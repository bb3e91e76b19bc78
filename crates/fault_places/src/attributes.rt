//! Attributes, as people are told them.
use crate::refused::Step;
use crate::types::push_type;
use ex_layouts::Dictionary;
use ex_named::NamedDataType;
use ex_slots::Slot;
use std::alloc::{AllocError, Global};

/// Puts a word behind others in small letters, as attributes are told.
fn push_small(out: &mut String, word: &str) -> Result<(), AllocError> {
    for letter in word.chars() {
        out.push(letter.to_ascii_lowercase())?;
    }
    Ok(())
}

/// Puts the indexes of these steps behind words.
fn push_steps(alloc: Global, out: &mut String, steps: &[Step]) -> Result<(), AllocError> {
    for step in steps {
        let index = format!(in alloc; "[{}]", step.index)?;
        out.push_str(index.as_str())?;
    }
    Ok(())
}

/// The words that tell an attribute of this place with what it takes; or an element of it behind these steps, which is of this
/// type.
pub(crate) fn words_of_attribute<'s>(
    alloc: Global,
    schema: &Dictionary<'s>,
    place: usize,
    slot: &Slot<'s>,
    steps: &[Step],
    data_type: &'s NamedDataType,
) -> Result<String, AllocError> {
    let mut words = format!(in alloc; "attribute {}, ", place.saturating_add(1))?;
    push_small(&mut words, slot.name().text.as_str())?;
    if slot.is_derived() {
        words.push_str(": * (it is derived)")?;
        return Ok(words);
    }
    push_steps(alloc, &mut words, steps)?;
    words.push_str(": ")?;
    push_type(&mut words, data_type, schema)?;
    if slot.is_optional() && steps.is_empty() {
        words.push_str(" or $")?;
    }
    Ok(words)
}

/// Puts the names of attributes behind words.
pub(crate) fn push_names(out: &mut String, slots: &[Slot<'_>]) -> Result<(), AllocError> {
    for (place, slot) in slots.iter().enumerate() {
        out.push_str(if place == 0 { ": " } else { ", " })?;
        push_small(out, slot.name().text.as_str())?;
    }
    Ok(())
}
