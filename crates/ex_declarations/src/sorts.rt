//! The declarations of each sort.

ghost use Rattle.std.specs.Prelude.{◌≡◌, map, IfOk};
ghost use Rattle.ex_declarations.specs.Declared as spec;

use ex_tree::{Declaration, Entity, Schema, TypeDeclaration};
use std::alloc::{AllocError, Global};

/// The entities of a schema, in order.
pub fn entities<'a>(alloc: Global, schema: &'a Schema) -> Result<Vec<&'a Entity>, AllocError>
    ensures { IfOk result (λ found. map (λ x. x.now) found.items ≡ spec.entities schema.now) }
{
    let mut found = Vec::new(alloc);
    for declaration in schema.declarations.as_slice() {
        if let Declaration::Entity(entity) = declaration {
            found.push(entity)?;
        }
    }
    Ok(found)
}

/// The defined types of a schema, in order.
pub fn types<'a>(alloc: Global, schema: &'a Schema) -> Result<Vec<&'a TypeDeclaration>, AllocError>
    ensures { IfOk result (λ found. map (λ x. x.now) found.items ≡ spec.types schema.now) }
{
    let mut found = Vec::new(alloc);
    for declaration in schema.declarations.as_slice() {
        if let Declaration::Type(declared) = declaration {
            found.push(declared)?;
        }
    }
    Ok(found)
}
