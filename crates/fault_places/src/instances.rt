//! Faults of an instance.
use crate::combinations::illegal;
use crate::definitions::Definitions;
use crate::faulty::{Faulty, Told};
use crate::place::{FaultPlace, line_of, place_at};
use crate::spelled::{Spelled, Spot};
use ex_compiled::Compiled;
use ex_layouts::{Dictionary, Layout, legal_leaf, legal_several};
use ex_loaded::LoadedSchema;
use name_tables::NameTable;
use p21_lexemes::TokenKind;
use p21_read::read_instance;
use p21_tree::{InstanceFault, InstanceFaultKind, Mapping, Record};
use plain_data::{Failure, Text};
use std::alloc::{AllocError, Global};
use std::slice;

/// Where the first fault of a file's first faulty instance lies, and what stands there in place of what.
pub fn place_of_instance_fault(
    alloc: Global,
    schema: &Compiled,
    text: &str,
    fault: InstanceFault,
) -> Result<Option<FaultPlace>, AllocError> {
    let definitions = Definitions::of(alloc, text.as_bytes(), fault.instance)?;
    let Some(first) = definitions.first else {
        return Ok(None);
    };
    let spelled = Spelled::of(alloc, text.as_bytes(), first)?;
    let told = match fault.kind {
        InstanceFaultKind::Twice => twice(alloc, text, &definitions, &spelled, fault.instance)?,
        kind => by_schema(alloc, schema, &definitions, &spelled, kind)?,
    };
    match told {
        Some(told) => place_at(alloc, text, told.at, told.words.as_str()),
        None => Ok(None),
    }
}

/// A keyword that stood in the instance before, or the second instance of its name.
fn twice(
    alloc: Global,
    text: &str,
    definitions: &Definitions,
    spelled: &Spelled<'_>,
    name: u64,
) -> Result<Option<Told>, AllocError> {
    if let Some(told) = keyword_twice(alloc, spelled)? {
        return Ok(Some(told));
    }
    let (Some(first), Some(second)) = (definitions.first, definitions.second) else {
        return Ok(None);
    };
    let line = line_of(text, first.at);
    Ok(Some(Told {
        at: second.at,
        words: format!(in alloc; "#{name} is in line {line} already")?,
    }))
}

/// A keyword in upper case.
fn in_upper_case(alloc: Global, keyword: &[u8]) -> Result<Text, AllocError> {
    let mut upper = Text::from_str(alloc, std::str::from_utf8(keyword).unwrap_or("?"))?;
    upper.make_ascii_uppercase();
    Ok(upper)
}

/// The keywords of parts in upper case.
fn all_in_upper_case(alloc: Global, spots: &[Spot<'_>]) -> Result<Vec<Text>, AllocError> {
    let mut keywords = Vec::with_capacity(alloc, spots.len())?;
    for spot in spots {
        keywords.push(in_upper_case(alloc, spot.text)?)?;
    }
    Ok(keywords)
}

/// The place of the first keyword that stood before.
fn first_repeated(alloc: Global, keywords: &[Text]) -> Result<Option<usize>, AllocError> {
    let mut before = NameTable::new(alloc);
    for (place, keyword) in keywords.iter().enumerate() {
        if before.place(keyword.as_bytes()).is_some() {
            return Ok(Some(place));
        }
        before.push(keyword.as_bytes())?;
    }
    Ok(None)
}

/// The first keyword of a part that stood before.
fn keyword_twice(alloc: Global, spelled: &Spelled<'_>) -> Result<Option<Told>, AllocError> {
    let spots = spelled.keywords(alloc)?;
    let keywords = all_in_upper_case(alloc, &spots)?;
    let Some(place) = first_repeated(alloc, &keywords)? else {
        return Ok(None);
    };
    let (Some(spot), Some(keyword)) = (spots.get(place), keywords.get(place)) else {
        return Ok(None);
    };
    Ok(Some(Told {
        at: spelled.at(spot.place),
        words: format!(in alloc; "{} is in this instance already", keyword.as_str())?,
    }))
}

/// The parts of an instance, and whether there is one alone, of an entity with all above it.
fn parts_of<'m, 't>(mapping: &'m Mapping<'t>) -> (&'m [Record<'t>], bool) {
    match mapping {
        Mapping::Internal(record) => (slice::from_ref(record), true),
        Mapping::External(records) => (records.as_slice(), false),
    }
}

/// The entities of the parts, as far as the keywords are entities.
fn entities_of(
    alloc: Global,
    schema: &Dictionary<'_>,
    parts: &[Record<'_>],
) -> Result<Vec<usize>, AllocError> {
    let mut entities = Vec::new(alloc);
    for record in parts {
        match schema.entity_spelled(alloc, record.keyword.as_str())? {
            Some(entity) => entities.push(entity)?,
            None => return Ok(entities),
        }
    }
    Ok(entities)
}

/// The instance as it is read by itself; nothing where it isn't.
fn mapping_of<'t>(alloc: Global, spelled: &Spelled<'t>) -> Result<Option<Mapping<'t>>, AllocError> {
    match read_instance(alloc, spelled.text) {
        Ok(mapping) => Ok(Some(mapping)),
        Err(Failure::Fault(_)) => Ok(None),
        Err(Failure::NoMemory) => Err(AllocError),
    }
}

/// What the schema says of the instance.
fn by_schema(
    alloc: Global,
    schema: &Compiled,
    definitions: &Definitions,
    spelled: &Spelled<'_>,
    kind: InstanceFaultKind,
) -> Result<Option<Told>, AllocError> {
    let Some(mapping) = mapping_of(alloc, spelled)? else {
        return Ok(None);
    };
    let loaded = LoadedSchema::of(alloc, schema)?;
    let dictionary = loaded.dictionary();
    let (parts, is_internal) = parts_of(&mapping);
    let entities = entities_of(alloc, dictionary, parts)?;
    let faulty = Faulty {
        schema: dictionary,
        spelled,
        parts,
        entities: &entities,
        is_internal,
    };
    by_kind(alloc, schema, &faulty, definitions, kind)
}

/// The fault of this kind.
fn by_kind(
    alloc: Global,
    schema: &Compiled,
    faulty: &Faulty<'_, '_, '_>,
    definitions: &Definitions,
    kind: InstanceFaultKind,
) -> Result<Option<Told>, AllocError> {
    match kind {
        InstanceFaultKind::UnknownEntity => unknown(alloc, faulty),
        _ if faulty.entities.len() < faulty.parts.len() => Ok(None),
        InstanceFaultKind::IllegalCombination => illegal(alloc, schema, faulty),
        kind => by_layout(alloc, faulty, definitions, kind),
    }
}

/// The first keyword that is no entity.
fn unknown(alloc: Global, faulty: &Faulty<'_, '_, '_>) -> Result<Option<Told>, AllocError> {
    let keywords = faulty.spelled.keywords(alloc)?;
    let Some(spot) = keywords.get(faulty.entities.len()) else {
        return Ok(None);
    };
    let keyword = in_upper_case(alloc, spot.text)?;
    let name = faulty.schema.name();
    Ok(Some(Told {
        at: faulty.spelled.at(spot.place),
        words: format!(in alloc; "{} is no entity of {name}", keyword.as_str())?,
    }))
}

/// What the instances of these entities have values of.
fn layout_of<'s>(
    alloc: Global,
    faulty: &Faulty<'_, '_, 's>,
) -> Result<Option<Layout<'s>>, AllocError> {
    match (faulty.is_internal, faulty.entities) {
        (true, [entity]) => legal_leaf(alloc, faulty.schema, *entity),
        _ => legal_several(alloc, faulty.schema, faulty.entities),
    }
}

/// The first fault of the values.
fn by_layout(
    alloc: Global,
    faulty: &Faulty<'_, '_, '_>,
    definitions: &Definitions,
    kind: InstanceFaultKind,
) -> Result<Option<Told>, AllocError> {
    let Some(layout) = layout_of(alloc, faulty)? else {
        return Ok(None);
    };
    match kind {
        InstanceFaultKind::WrongCount => faulty.wrong_count(alloc, &layout),
        InstanceFaultKind::NotDerived => faulty.not_derived(alloc, &layout),
        InstanceFaultKind::WrongKind => faulty.wrong_kind(alloc, &layout),
        InstanceFaultKind::Undefined => faulty.undefined(alloc, &layout, definitions),
        InstanceFaultKind::Twice
        | InstanceFaultKind::UnknownEntity
        | InstanceFaultKind::IllegalCombination => Ok(None),
    }
}
