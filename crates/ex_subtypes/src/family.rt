//! The direct supertypes and subtypes of entities.

ghost use Rattle.std.specs.Prelude.{◌≡◌, ◌&&◌, ℕ, nat_lt, length, map, IfOk};
ghost use Rattle.std.specs.List.{list_any};
ghost use Rattle.plain_data.specs.Numbers.{is_among};
ghost use Rattle.graphs.specs.Graphs.{supertypes};
ghost use Rattle.ex_subtypes.specs.Legal as spec;

use crate::sets::put_all;
use ex_named::NamedEntity;
use graphs::subtypes;
use plain_data::Rows;
use std::alloc::{AllocError, Global};
use std::collections::BTreeSet;

/// The direct supertypes of an entity; none beyond the schema.
pub fn supertypes_of(entities: &[NamedEntity], number: usize) -> &[usize]
    ensures { result.now ≡ supertypes (spec.graph entities.now) number }
{
    match entities.get(number) {
        Some(entity) => entity.supertypes.as_slice(),
        None => &[],
    }
}

/// Of each entity its direct supertypes.
fn graph_of(alloc: Global, entities: &[NamedEntity]) -> Result<Vec<Rows<usize>>, AllocError>
    ensures { IfOk result (λ graph. graph.items ≡ spec.graph entities.now) }
{
    let mut graph = Vec::with_capacity(alloc, entities.len())?;
    for entity in entities {
        let above = Vec::from_slice(alloc, entity.supertypes.as_slice())?;
        graph.push(Rows::from_vec(above))?;
    }
    Ok(graph)
}

/// Of each entity its direct subtypes.
pub fn all_subtypes(alloc: Global, entities: &[NamedEntity]) -> Result<Vec<Rows<usize>>, AllocError>
    ensures { IfOk result (λ below. (e s : ℕ) → is_among (supertypes below.items e) s ≡ (nat_lt e (length entities.now) && spec.is_direct_subtype entities.now e s)) }
{
    let graph = graph_of(alloc, entities)?;
    subtypes(alloc, &graph)
}

/// The direct supertypes of these members.
pub fn all_supertypes(
    alloc: Global,
    entities: &[NamedEntity],
    members: &[usize],
) -> Result<BTreeSet<usize>, AllocError>
    ensures { IfOk result (λ found. (e : ℕ) → is_among found.keys e ≡ list_any (λ s. is_among (supertypes (spec.graph entities.now) s) e) members.now) }
{
    let mut found = BTreeSet::new(alloc);
    for member in members {
        put_all(&mut found, supertypes_of(entities, *member))?;
    }
    Ok(found)
}
