//! The attributes of an instance.

ghost use Rattle.std.specs.Prelude.{◌≡◌, ◌++◌, IfOk, OnOk, slice_get};
ghost use Rattle.std.specs.Option.{option_and_then, option_copied};
ghost use Rattle.rp_meaning.specs.Attributes.{entity_at};
ghost use Rattle.rp_meaning.specs.Reading as spec;

use ex_named::{AttributePlace, AttributeSort};
use plain_data::Items;
use rp_meaning::{ExplicitAttribute, Schema};
use std::alloc::{AllocError, Global};

/// The declaration of an explicit attribute.
pub(crate) fn declaration<'s>(
    schema: &'s Schema,
    attribute: &AttributePlace,
) -> Option<&'s ExplicitAttribute>
    ensures { option_copied result ≡ option_and_then (λ e. slice_get e.explicit attribute.now.place) (entity_at schema.now attribute.now.entity) }
{
    match schema.entities.get(attribute.entity) {
        None => None,
        Some(entity) => entity.explicit.get(attribute.place),
    }
}

/// Adds the explicit attributes that an entity declares.
fn push_explicit(
    found: &mut Items<AttributePlace>,
    schema: &Schema,
    entity: usize,
) -> Result<(), AllocError>
    ensures { OnOk result (found.new ≡ found.old ++ spec.explicit_places schema.now entity) }
{
    let Some(declared) = schema.entities.get(entity) else {
        return Ok(());
    };
    for place in 0..declared.explicit.len() {
        found.push(AttributePlace {
            entity,
            sort: AttributeSort::Explicit,
            place,
        })?;
    }
    Ok(())
}

/// The attributes of an instance of these entities, in their order.
pub(crate) fn attributes(
    alloc: Global,
    schema: &Schema,
    entities: &[usize],
) -> Result<Items<AttributePlace>, AllocError>
    ensures { IfOk result (λ found. found ≡ spec.attributes schema.now entities.now) }
{
    let mut found = Items::new(alloc);
    for entity in entities {
        push_explicit(&mut found, schema, *entity)?;
    }
    Ok(found)
}
