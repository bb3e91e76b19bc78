//! What reaches what.

ghost use Rattle.std.specs.Prelude.{◌≡◌, map, IfOk};
ghost use Rattle.std.specs.List.{filter_map};
ghost use Rattle.ex_named.specs.Scopes.{declared, as_entity, as_defined, and_then};
ghost use Rattle.ex_declarations.specs.Declared as spec;
ghost use Rattle.ex_declarations.specs.Steps.{options};

use ex_named::Declared;
use ex_scopes::Declarations;
use ex_tree::{DataType, Entity, Name, TypeDeclaration, UnderlyingType};
use plain_data::Rows;
use std::alloc::{AllocError, Global};

/// The entity of this name, if it is one.
fn entity_of(declarations: &Declarations<'_>, name: &Name) -> Option<usize>
    ensures { result ≡ and_then (declared declarations.now name.now.text) (as_entity declarations.now) }
{
    match declarations.declares(name.text.as_bytes()) {
        Some(Declared::Entity(number)) => Some(number),
        _ => None,
    }
}

/// The defined type of this name, if it is one.
fn type_of(declarations: &Declarations<'_>, name: &Name) -> Option<usize>
    ensures { result ≡ and_then (declared declarations.now name.now.text) (as_defined declarations.now) }
{
    match declarations.declares(name.text.as_bytes()) {
        Some(Declared::Type(number)) => Some(number),
        _ => None,
    }
}

/// The entities that these names name.
fn entities_of(
    alloc: Global,
    declarations: &Declarations<'_>,
    names: &[Name],
) -> Result<Vec<usize>, AllocError>
    ensures { IfOk result (λ found. found.items ≡ filter_map (λ n. and_then (declared declarations.now n.text) (as_entity declarations.now)) names.now) }
{
    names
        .iter()
        .filter_map(|name| entity_of(declarations, name))
        .collect(alloc)
}

/// Of each entity the entities that its SUBTYPE OF lists.
#[tactic(auto, unfolding(crate::specs::Declared::supertype_graph))]
pub fn supertype_graph(
    alloc: Global,
    declarations: &Declarations<'_>,
    entities: &[&Entity],
) -> Result<Rows<Rows<usize>>, AllocError>
    ensures { IfOk result (λ graph. graph ≡ spec.supertype_graph declarations.now (map (λ e. e.now) entities.now)) }
{
    let mut graph = Rows::new(alloc);
    for entity in entities {
        let supertypes = entities_of(alloc, declarations, entity.head.supertypes.as_slice())?;
        graph.push(Rows::from_vec(supertypes))?;
    }
    Ok(graph)
}

/// The types that these names name.
fn types_of(
    alloc: Global,
    declarations: &Declarations<'_>,
    names: &[Name],
) -> Result<Vec<usize>, AllocError>
    ensures { IfOk result (λ found. found.items ≡ filter_map (λ n. and_then (declared declarations.now n.text) (as_defined declarations.now)) names.now) }
{
    names
        .iter()
        .filter_map(|name| type_of(declarations, name))
        .collect(alloc)
}

/// The type that a type names: its innermost elements are of it.
#[tactic(auto, unfolding(crate::specs::Declared::named_in))]
fn named_in(declarations: &Declarations<'_>, data_type: &DataType) -> Option<usize>
    ensures { options result ≡ spec.named_in declarations.now data_type.now }
{
    match data_type {
        DataType::Named(name) => type_of(declarations, name),
        DataType::Array { element, .. } => named_in(declarations, element.get()),
        DataType::List { element, .. } => named_in(declarations, element.get()),
        DataType::Bag { element, .. } => named_in(declarations, element.get()),
        DataType::Set { element, .. } => named_in(declarations, element.get()),
        DataType::Aggregate(element) => named_in(declarations, element.get()),
        DataType::Simple(_) | DataType::Generic => None,
    }
}

/// What is there, as a list.
fn list_of(alloc: Global, found: Option<usize>) -> Result<Vec<usize>, AllocError>
    ensures { IfOk result (λ list. list.items ≡ options found) }
{
    let mut list = Vec::new(alloc);
    if let Some(number) = found {
        list.push(number)?;
    }
    Ok(list)
}

/// The types that a type holds other than through an entity.
fn held_types(
    alloc: Global,
    declarations: &Declarations<'_>,
    underlying: &UnderlyingType,
) -> Result<Vec<usize>, AllocError>
    ensures { IfOk result (λ found. found.items ≡ spec.held_types declarations.now underlying.now) }
{
    match underlying {
        UnderlyingType::Enumeration(_) => Ok(Vec::new(alloc)),
        UnderlyingType::Select(names) => types_of(alloc, declarations, names.as_slice()),
        UnderlyingType::Data(data_type) => list_of(alloc, named_in(declarations, data_type)),
    }
}

/// Of each type the types that it holds other than through an entity.
#[tactic(auto, unfolding(crate::specs::Declared::type_graph))]
pub fn type_graph(
    alloc: Global,
    declarations: &Declarations<'_>,
    types: &[&TypeDeclaration],
) -> Result<Rows<Rows<usize>>, AllocError>
    ensures { IfOk result (λ graph. graph ≡ spec.type_graph declarations.now (map (λ e. e.now) types.now)) }
{
    let mut graph = Rows::new(alloc);
    for declared in types {
        let held = held_types(alloc, declarations, &declared.underlying)?;
        graph.push(Rows::from_vec(held))?;
    }
    Ok(graph)
}
