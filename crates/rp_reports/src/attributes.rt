//! The names of attributes.

ghost use Rattle.std.specs.Prelude.{◌≡◌, map, option_copied, slice_get, IfOk};
ghost use Rattle.std.specs.Option.{option_and_then};
ghost use Rattle.rp_reports.specs.Names as spec;

use ex_named::{AttributePlace, NamedEntity};
use plain_data::{Items, Text};
use rp_compile_names::{explicit_of, joined};
use shared::Shared;
use std::alloc::{AllocError, Global};

/// The names of the attributes of entities, by their places.
pub(crate) type Names = Items<Items<Shared<Text>>>;

/// `ENTITY.ATTRIBUTE` for each explicit attribute of an entity's own.
fn names_of(alloc: Global, entity: &NamedEntity) -> Result<Items<Shared<Text>>, AllocError>
    ensures { IfOk result (λ names. names ≡ spec.names_of entity.now) }
{
    let declared = explicit_of(alloc, entity)?;
    let mut names = Items::from_vec(Vec::with_capacity(alloc, declared.len())?);
    for (name, _) in &declared {
        let text = joined(alloc, entity.name.text.as_str(), name.text.as_str())?;
        names.push(Shared::new(alloc, text)?)?;
    }
    Ok(names)
}

/// The same for each entity.
pub(crate) fn all_names(alloc: Global, entities: &[NamedEntity]) -> Result<Names, AllocError>
    ensures { IfOk result (λ names. names ≡ map spec.names_of entities.now) }
{
    let mut names = Items::from_vec(Vec::with_capacity(alloc, entities.len())?);
    for entity in entities {
        names.push(names_of(alloc, entity)?)?;
    }
    Ok(names)
}

/// The name of an attribute.
pub(crate) fn name_of<'n>(names: &'n Names, attribute: &AttributePlace) -> Option<&'n Shared<Text>>
    ensures { option_copied result ≡ option_and_then (λ names. slice_get names attribute.now.place) (slice_get names.now attribute.now.entity) }
{
    match names.get(attribute.entity) {
        None => None,
        Some(names) => names.get(attribute.place),
    }
}
