//! Copies of what trees own.

ghost use Rattle.std.specs.Prelude.{◌≡◌, IfOk};
ghost use Rattle.std.specs.Option.{option_copied};

use crate::role::Role;
use ex_named::NamedDataType;
use plain_data::{Boxed, Items};
use std::alloc::{AllocError, Global};

/// The same role once more.
pub fn copied_role(alloc: Global, role: &Role) -> Result<Role, AllocError>
    ensures { IfOk result (λ copy. copy ≡ role.now) }
{
    match role {
        Role::Every => Ok(Role::Every),
        Role::Of(entity, attributes) => {
            let attributes = Items::from_slice(alloc, attributes.as_slice())?;
            Ok(Role::Of(*entity, attributes))
        }
    }
}

/// The same role once more, in a block of its own.
pub(crate) fn boxed_role(
    alloc: Global,
    role: &Option<Role>,
) -> Result<Option<Boxed<Role>>, AllocError>
    ensures { IfOk result (λ copy. copy ≡ role.now) }
{
    match role {
        None => Ok(None),
        Some(role) => {
            let role = copied_role(alloc, role)?;
            Ok(Some(Boxed::new(alloc, role)?))
        }
    }
}

/// The same type once more, in a block of its own.
#[cycle(copied)]
pub(crate) fn boxed_type(
    alloc: Global,
    data_type: &NamedDataType,
) -> Result<Boxed<NamedDataType>, AllocError>
    ensures { IfOk result (λ copy. copy ≡ data_type.now) }
{
    let data_type = copied_type(alloc, data_type)?;
    Boxed::new(alloc, data_type)
}

/// The same type once more.
#[cycle(copied)]
pub fn copied_type(alloc: Global, data_type: &NamedDataType) -> Result<NamedDataType, AllocError>
    ensures { IfOk result (λ copy. copy ≡ data_type.now) }
{
    Ok(match data_type {
        NamedDataType::Simple(simple) => NamedDataType::Simple(*simple),
        NamedDataType::Named(name) => NamedDataType::Named(*name),
        NamedDataType::Array {
            bounds,
            optional,
            unique,
            element,
        } => NamedDataType::Array {
            bounds: *bounds,
            optional: *optional,
            unique: *unique,
            element: boxed_type(alloc, element.get())?,
        },
        NamedDataType::List {
            bounds,
            unique,
            element,
        } => NamedDataType::List {
            bounds: *bounds,
            unique: *unique,
            element: boxed_type(alloc, element.get())?,
        },
        NamedDataType::Bag { bounds, element } => NamedDataType::Bag {
            bounds: *bounds,
            element: boxed_type(alloc, element.get())?,
        },
        NamedDataType::Set { bounds, element } => NamedDataType::Set {
            bounds: *bounds,
            element: boxed_type(alloc, element.get())?,
        },
        NamedDataType::Aggregate(element) => {
            NamedDataType::Aggregate(boxed_type(alloc, element.get())?)
        }
        NamedDataType::Generic => NamedDataType::Generic,
    })
}
