//! The names of an entity's attributes. One that is redeclared is none of its own.

ghost use Rattle.std.specs.Prelude.{◌≡◌, ◌++◌, map, IfOk, OnOk};
ghost use Rattle.std.specs.List.{filter_map};
ghost use Rattle.ex_declarations.specs.Declared as spec;

use ex_tree::{AttributeDeclaration, EntityBody, Name};
use std::alloc::{AllocError, Global};

/// Puts the names that are the entity's own behind the others.
fn push_own<'a>(
    names: &mut Vec<&'a Name>,
    attributes: &'a [AttributeDeclaration],
) -> Result<(), AllocError>
    ensures { OnOk result (map (λ n. n.now) names.new.items ≡ map (λ n. n.now) names.old.items ++ filter_map spec.own_name attributes.now) }
{
    for attribute in attributes {
        if let AttributeDeclaration::Own(name) = attribute {
            names.push(name)?;
        }
    }
    Ok(())
}

pub(crate) fn explicit_names<'a>(
    alloc: Global,
    body: &'a EntityBody,
) -> Result<Vec<&'a Name>, AllocError>
    ensures { IfOk result (λ names. map (λ n. n.now) names.items ≡ spec.explicit_names body.now) }
{
    let mut names = Vec::new(alloc);
    for explicit in body.explicit.as_slice() {
        push_own(&mut names, explicit.attributes.as_slice())?;
    }
    Ok(names)
}

pub(crate) fn derived_names<'a>(
    alloc: Global,
    body: &'a EntityBody,
) -> Result<Vec<&'a Name>, AllocError>
    ensures { IfOk result (λ names. map (λ n. n.now) names.items ≡ spec.derived_names body.now) }
{
    let mut names = Vec::new(alloc);
    for derived in body.derived.as_slice() {
        if let AttributeDeclaration::Own(name) = &derived.attribute {
            names.push(name)?;
        }
    }
    Ok(names)
}

pub(crate) fn inverse_names<'a>(
    alloc: Global,
    body: &'a EntityBody,
) -> Result<Vec<&'a Name>, AllocError>
    ensures { IfOk result (λ names. map (λ n. n.now) names.items ≡ spec.inverse_names body.now) }
{
    body.inverse
        .as_slice()
        .iter()
        .map(|inverse| &inverse.name)
        .collect(alloc)
}
