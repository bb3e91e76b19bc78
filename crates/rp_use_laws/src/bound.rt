//! What is proved of a schema whose names are bound.

ghost use Rattle.std.specs.Prelude.{◌≡◌, true};
ghost use Rattle.std.specs.List.{AllByRecursion, list_all};
ghost use Rattle.ex_schemas.specs.Schemas.{Checked};
ghost use Rattle.rp_use_laws.specs.Schemas.{IsBound, is_attribute_identified, is_entity_identified, is_explicit_identified};

use ex_loaded::LoadedSchema;
use ex_named::{NamedAttribute, NamedEntity, NamedExplicit};
use ex_types::CheckedSchema;

fn attribute(attribute: &NamedAttribute)
    ensures { is_attribute_identified attribute.now ≡ true }
{
    match attribute {
        NamedAttribute::Own(name) => name.text.proved(),
        NamedAttribute::Redeclared(_) => {}
    }
}

fn attributes(attributes: &[NamedAttribute])
    ensures { list_all is_attribute_identified attributes.now ≡ true }
{
    for declared in attributes {
        attribute(declared);
    }
}

fn explicit(explicit: &[NamedExplicit])
    ensures { list_all is_explicit_identified explicit.now ≡ true }
{
    for declared in explicit {
        attributes(declared.attributes.as_slice());
    }
}

fn entities(entities: &[NamedEntity])
    ensures { list_all is_entity_identified entities.now ≡ true }
{
    for entity in entities {
        explicit(entity.explicit.as_slice());
    }
}

/// Tells contracts what was proved of the schema when its names were bound.
pub(crate) fn bound(schema: &CheckedSchema)
    ensures { IsBound schema.now.named }
{
    let named = schema.resolved();
    named.proved();
    entities(named.named().entities.as_slice());
}

/// The same of each of some schemas.
pub(crate) fn all_bound(schemas: &[LoadedSchema<'_>])
    ensures { AllByRecursion (λ (schema : Checked). IsBound schema.named) schemas.now }
{
    for schema in schemas {
        bound(schema.checked());
    }
}
