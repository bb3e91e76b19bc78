//! Roles: the attributes in which uses are looked for.

ghost use Rattle.std.specs.Prelude.{◌≡◌, List, ℕ, map, IfOk};
ghost use Rattle.std.specs.List.{slice_split};
ghost use Rattle.std.specs.Borrow.{Bor};
ghost use Rattle.rp_population.specs.Uses as spec;

use ex_layouts::Dictionary;
use plain_data::Text;
use std::alloc::{AllocError, Global};

/// The attributes of instances in which uses are looked for.
pub enum Role {
    /// All.
    Every,
    /// Those of this name that an entity declares or inherits, in the instances of this entity.
    Of(usize, Text),
}

impl Drop for Role {
    fn drop(self) {
        match self {
            Role::Every => {}
            Role::Of(_, attribute) => drop(attribute),
        }
    }
}

/// What stands between full stops.
fn parts_of(alloc: Global, text: &str) -> Result<Vec<&str>, AllocError>
    ensures { IfOk result (λ parts. map (λ (x : Bor (List ℕ)). x.now) parts.items ≡ slice_split spec.is_full_stop text.now) }
{
    text.split('.').collect(alloc)
}

/// The role of an entity's attribute, if the schema has the entity.
fn attribute_role(
    alloc: Global,
    schema: &Dictionary<'_>,
    entity: &str,
    attribute: &str,
) -> Result<Option<Role>, AllocError>
    ensures { IfOk result (λ role. role ≡ spec.role_of_attribute schema.now entity.now attribute.now) }
{
    let entity = Text::from_str(alloc, entity)?;
    match schema.entity_named(entity.as_str()) {
        Some(number) => {
            let attribute = Text::from_str(alloc, attribute)?;
            Ok(Some(Role::Of(number, attribute)))
        }
        None => Ok(None),
    }
}

/// The role of these three names.
fn role_of_parts(
    alloc: Global,
    schema: &Dictionary<'_>,
    parts: &[&str],
) -> Result<Option<Role>, AllocError>
    ensures { IfOk result (λ role. role ≡ spec.role_of_parts schema.now (map (λ (x : Bor (List ℕ)). x.now) parts.now)) }
{
    match parts {
        [name, entity, attribute] if *name == schema.name() => {
            attribute_role(alloc, schema, entity, attribute)
        }
        _ => Ok(None),
    }
}

/// The role of this name: `SCHEMA.ENTITY.ATTRIBUTE`, or nothing for all.
pub(crate) fn role_of(
    alloc: Global,
    schema: &Dictionary<'_>,
    text: &Text,
) -> Result<Option<Role>, AllocError>
    ensures { IfOk result (λ role. role ≡ spec.role_of schema.now text.now) }
{
    if text.as_bytes().is_empty() {
        return Ok(Some(Role::Every));
    }
    let parts = parts_of(alloc, text.as_str())?;
    role_of_parts(alloc, schema, &parts)
}
