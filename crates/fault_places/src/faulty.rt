//! An instance that is refused, with what its schema says of it.
use crate::attributes::{push_names, words_of_attribute};
use crate::definitions::{Definitions, name_of};
use crate::refused::{Step, descend, first_refused};
use crate::spelled::{Spelled, Spot};
use crate::types::{entity_name, push_behind_names};
use ex_layouts::{Dictionary, Layout};
use ex_selects::{Base, target_of};
use ex_slots::Slot;
use p21_lexemes::TokenKind;
use p21_tree::{Record, Value};
use std::alloc::{AllocError, Global};

/// What is told of a fault: the byte at which it lies, and a sentence in each line.
#[derive(Drop)]
pub(crate) struct Told {
    pub at: usize,
    pub words: String,
}

/// An instance whose keywords are all entities.
#[derive(Clone, Copy)]
pub(crate) struct Faulty<'f, 't, 's> {
    pub schema: &'f Dictionary<'s>,
    pub spelled: &'f Spelled<'t>,
    pub parts: &'f [Record<'t>],
    /// The entity of each part.
    pub entities: &'f [usize],
    pub is_internal: bool,
}

impl<'f, 't, 's> Faulty<'f, 't, 's> {
    /// These words, at a token.
    fn told(&self, place: usize, words: String) -> Option<Told> {
        Some(Told {
            at: self.spelled.at(place),
            words,
        })
    }

    /// These words, at the keyword of an entity; at the first one, where it has no part of its own.
    pub(crate) fn told_at_entity(
        &self,
        alloc: Global,
        entity: usize,
        words: String,
    ) -> Result<Option<Told>, AllocError> {
        let part = self.entities.iter().position(|number| *number == entity);
        let keyword = self.keyword(alloc, part.unwrap_or(0))?;
        Ok(self.told(keyword, words))
    }

    /// The place of the keyword of a part.
    fn keyword(&self, alloc: Global, part: usize) -> Result<usize, AllocError> {
        let keywords = self.spelled.keywords(alloc)?;
        Ok(keywords.get(part).map_or(0, |spot| spot.place))
    }

    /// The place of the token that begins a value of a part, or that ends the part where it has no more.
    fn value(&self, alloc: Global, part: usize, value: usize) -> Result<usize, AllocError> {
        let keyword = self.keyword(alloc, part)?;
        let open = keyword.saturating_add(1);
        Ok(self.spelled.value(open, value).unwrap_or(keyword))
    }

    /// The first part with another count of values than attributes.
    pub(crate) fn wrong_count(
        &self,
        alloc: Global,
        layout: &Layout<'s>,
    ) -> Result<Option<Told>, AllocError> {
        for (part, record) in self.parts.iter().enumerate() {
            let slots = layout.slots_of(part);
            let count = record.values.len();
            if count != slots.len() {
                let words = self.words_of_count(alloc, part, count, slots)?;
                let place = self.value(alloc, part, slots.len())?;
                return Ok(self.told(place, words));
            }
        }
        Ok(None)
    }

    fn words_of_count(
        &self,
        alloc: Global,
        part: usize,
        count: usize,
        slots: &[Slot<'s>],
    ) -> Result<String, AllocError> {
        let entity = self.entities.get(part).copied().unwrap_or(0);
        let name = entity_name(self.schema, entity);
        let values = if count == 1 { "value" } else { "values" };
        let wanted = slots.len();
        let noun = if wanted == 1 {
            "attribute"
        } else {
            "attributes"
        };
        let mut words = format!(in alloc; "{count} {values} for the {wanted} {noun} of {name}")?;
        push_names(&mut words, slots)?;
        Ok(words)
    }

    /// The fault of a token in a value: the attribute, and this sentence.
    fn told_in_value(
        &self,
        alloc: Global,
        layout: &Layout<'s>,
        spot: Spot<'t>,
        sentence: &str,
    ) -> Result<Option<Told>, AllocError> {
        let Some(slot) = layout.slots_of(spot.part).get(spot.value) else {
            return Ok(None);
        };
        let data_type = slot.data_type();
        let mut words = words_of_attribute(alloc, self.schema, spot.value, slot, &[], data_type)?;
        words.push('\n')?;
        words.push_str(sentence)?;
        Ok(self.told(spot.place, words))
    }

    /// The first `*` that doesn't stand where an attribute is derived.
    pub(crate) fn not_derived(
        &self,
        alloc: Global,
        layout: &Layout<'s>,
    ) -> Result<Option<Told>, AllocError> {
        for spot in &self.spelled.spots(alloc, TokenKind::Star)? {
            let slot = layout.slots_of(spot.part).get(spot.value);
            let is_derived = slot.is_some_and(|slot| slot.is_derived());
            if !is_derived {
                let sentence = "* stands for what is derived, and this isn't";
                return self.told_in_value(alloc, layout, *spot, sentence);
            }
            if spot.depth > 1 {
                let sentence = "* stands for what is derived, and by itself";
                return self.told_in_value(alloc, layout, *spot, sentence);
            }
        }
        Ok(None)
    }

    /// The first reference to a name that the file doesn't define.
    pub(crate) fn undefined(
        &self,
        alloc: Global,
        layout: &Layout<'s>,
        definitions: &Definitions,
    ) -> Result<Option<Told>, AllocError> {
        for spot in &self.spelled.spots(alloc, TokenKind::Name)? {
            let name = name_of(spot.text);
            if !definitions.has(name) {
                let sentence = format!(in alloc; "#{name} is no instance of this file")?;
                return self.told_in_value(alloc, layout, *spot, sentence.as_str());
            }
        }
        Ok(None)
    }

    /// The first value that its attribute doesn't take.
    pub(crate) fn wrong_kind(
        &self,
        alloc: Global,
        layout: &Layout<'s>,
    ) -> Result<Option<Told>, AllocError> {
        let Some((part, place)) = first_refused(alloc, self.schema, layout, self.parts)? else {
            return Ok(None);
        };
        let (Some(slot), Some(record)) = (layout.slots_of(part).get(place), self.parts.get(part))
        else {
            return Ok(None);
        };
        let Some(value) = record.values.as_slice().get(place) else {
            return Ok(None);
        };
        let mut steps = Vec::new(alloc);
        let words = self.words_of_kind(alloc, place, slot, value, &mut steps)?;
        let mut token = self.value(alloc, part, place)?;
        for step in &steps {
            token = self.spelled.value(token, step.place).unwrap_or(token);
        }
        Ok(self.told(token, words))
    }

    /// The words for a value that the attribute of this place doesn't take, and the steps to the element that is at fault.
    fn words_of_kind(
        &self,
        alloc: Global,
        place: usize,
        slot: &Slot<'s>,
        value: &Value<'t>,
        steps: &mut Vec<Step>,
    ) -> Result<String, AllocError> {
        let data_type = slot.data_type();
        if slot.is_derived() {
            return words_of_attribute(alloc, self.schema, place, slot, &[], data_type);
        }
        let types = self.schema.defined_types();
        let data_type = descend(value, alloc, types, data_type, steps)?;
        let mut words = words_of_attribute(alloc, self.schema, place, slot, steps, data_type)?;
        push_behind_names(&mut words, data_type, self.schema)?;
        if let Base::Select(_) = target_of(types.types(), data_type).base {
            words.push_str("\nwhat several of these take stands under the keyword of one")?;
        }
        Ok(words)
    }
}
