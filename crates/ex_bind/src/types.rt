//! Types with their names bound.

ghost use Rattle.ex_named.specs.Outcomes.{Binds};
ghost use Rattle.ex_named.specs.DataTypes as spec;

use ex_named::{Binding, NamedDataType};
use ex_scopes::Declarations;
use ex_tree::DataType;
use plain_data::Boxed;
use std::alloc::Global;

/// A type with its names bound.
#[cycle(types)]
#[tactic(auto, unfolding(ex_named::specs::DataTypes::data_type))]
pub fn data_type(alloc: Global, names: &Declarations<'_>, tree: &DataType) -> Binding<NamedDataType>
    ensures { Binds result (spec.data_type names.now tree.now) }
{
    Ok(match tree {
        DataType::Simple(simple) => NamedDataType::Simple(*simple),
        DataType::Named(name) => NamedDataType::Named(names.type_name(name)?),
        DataType::Array {
            bounds,
            optional,
            unique,
            element,
        } => NamedDataType::Array {
            bounds: *bounds,
            optional: *optional,
            unique: *unique,
            element: boxed(alloc, names, element)?,
        },
        DataType::List {
            bounds,
            unique,
            element,
        } => NamedDataType::List {
            bounds: *bounds,
            unique: *unique,
            element: boxed(alloc, names, element)?,
        },
        DataType::Bag { bounds, element } => NamedDataType::Bag {
            bounds: *bounds,
            element: boxed(alloc, names, element)?,
        },
        DataType::Set { bounds, element } => NamedDataType::Set {
            bounds: *bounds,
            element: boxed(alloc, names, element)?,
        },
        DataType::Aggregate(element) => NamedDataType::Aggregate(boxed(alloc, names, element)?),
        DataType::Generic => NamedDataType::Generic,
    })
}

/// The type of an aggregate's elements.
#[cycle(types)]
fn boxed(
    alloc: Global,
    names: &Declarations<'_>,
    tree: &Boxed<DataType>,
) -> Binding<Boxed<NamedDataType>>
    ensures { Binds result (spec.data_type names.now tree.now) }
{
    let element = data_type(alloc, names, tree.get())?;
    Ok(Boxed::new(alloc, element)?)
}
