//! The type of an instance as it is told.

ghost use Rattle.std.specs.Prelude.{◌≡◌, IfOk, codes};
ghost use Rattle.std.specs.List.{join_by};
ghost use Rattle.p21_canonical.specs.Trees as tree;
ghost use Rattle.p21_canonical.specs.TypeNames as spec;

use crate::instance::entity_name;
use ex_layouts::Dictionary;
use ex_named::NamedEntity;
use itertools::Itertools;
use plain_data::Text;
use rp_content::Entities;
use std::alloc::{AllocError, Global};

/// The names of these entities, joined by `+`.
fn joined(alloc: Global, entities: &[NamedEntity], all: &[usize]) -> Result<Text, AllocError>
    ensures { IfOk result (λ text. text ≡ join_by (tree.entity_name entities.now) (codes "+") all.now) }
{
    let mut names = all.iter().map(|entity| entity_name(entities, *entity));
    Ok(Text::new(names.join(alloc, "+")?))
}

/// The type of an instance: the name of its leaf, or the names of all its entities in the order in which they stand, joined by `+`.
pub fn type_text(
    alloc: Global,
    schema: &Dictionary<'_>,
    entities: &Entities,
) -> Result<Text, AllocError>
    ensures { IfOk result (λ text. text ≡ spec.type_text schema.now entities.now) }
{
    let declared = schema.entities();
    match entities {
        Entities::Leaf(leaf) => Text::from_str(alloc, entity_name(declared, *leaf)),
        Entities::Several(all) => joined(alloc, declared, all.as_slice()),
    }
}
