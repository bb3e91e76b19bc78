//! That the names of a schema are identifiers, as the type of each says of it.

ghost use Rattle.std.specs.Prelude.{◌≡◌, true};
ghost use Rattle.std.specs.List.{list_all};
ghost use Rattle.ex_tree.specs.Identifiers.{is_identifier};
ghost use Rattle.ex_resolve.specs.Proved as spec;

use ex_named::{NamedEntity, NamedSchema, NamedType, NamedUnderlying};
use ex_tree::Name;

fn names(names: &[Name])
    ensures { list_all (λ n. is_identifier n.text) names.now ≡ true }
{
    for name in names {
        name.text.proved();
    }
}

fn items(underlying: &NamedUnderlying)
    ensures { list_all (λ n. is_identifier n.text) (spec.items_of underlying.now) ≡ true }
{
    match underlying {
        NamedUnderlying::Enumeration(items) => names(items.as_slice()),
        NamedUnderlying::Select(_) | NamedUnderlying::Data(_) => {}
    }
}

fn types(types: &[NamedType])
    ensures { list_all spec.is_type_identified types.now ≡ true }
{
    for declared in types {
        declared.name.text.proved();
        items(&declared.underlying);
    }
}

fn entities(entities: &[NamedEntity])
    ensures { list_all (λ e. is_identifier e.name.text) entities.now ≡ true }
{
    for entity in entities {
        entity.name.text.proved();
    }
}

/// Tells contracts that the names of the schema, its entities, types and items are identifiers.
pub fn proved(schema: &NamedSchema)
    ensures { spec.HasIdentifiers schema.now }
{
    schema.name.text.proved();
    entities(schema.entities.as_slice());
    types(schema.types.as_slice());
}
