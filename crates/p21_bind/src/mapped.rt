//! An instance, from its mapping.

ghost use Rattle.std.specs.Prelude.{◌≡◌, ◌∷◌, []};
ghost use Rattle.ex_layouts.specs.Entities.{entity_spelled};
ghost use Rattle.ex_layouts.specs.Layouts.{of_leaf};
ghost use Rattle.plain_data.specs.Gives.{Gives};
ghost use Rattle.p21_mappings.specs.Instances as spec;
ghost use Rattle.p21_mappings.specs.Layouts.{internal};

use ex_layouts::{Dictionary, Layout, Layouts, legal_leaf};
use p21_mappings::{DefinedNames, Mapped, by_parts, entity_named, values_of_leaf};
use p21_tree::{Instance as SpelledInstance, InstanceFaultKind, Mapping, Record};
use plain_data::Failure;
use rp_content::{Entities, Instance};
use std::alloc::Global;

/// The instance of this part, which is of an entity and all above it.
#[tactic(auto, unfolding(p21_mappings::specs::Layouts::internal))]
fn by_leaf<N: DefinedNames>(
    alloc: Global,
    schema: &Dictionary<'_>,
    names: &N,
    name: u64,
    part: &Record<'_>,
    entity: usize,
    layout: &Layout<'_>,
) -> Mapped<Instance>
    requires { layout.now ≡ of_leaf schema.now entity }
    ensures { Gives (λ x. x) result (spec.by_layout schema.now (N.is_defined names.now) name (part.now ∷ []) (internal schema.now entity)) }
{
    if !layout.is_legal {
        return Err(Failure::Fault(InstanceFaultKind::IllegalCombination));
    }
    let slots = layout.read_slots_of(0);
    if slots.len() != part.values.len() {
        return Err(Failure::Fault(InstanceFaultKind::WrongCount));
    }
    let values = values_of_leaf(alloc, schema, names, entity, slots, part)?;
    Ok(Instance {
        name,
        entities: Entities::Leaf(entity),
        values,
    })
}

/// The instance of this part, where there can be one of this entity and all above it. What instances of it have values of is
/// kept.
#[tactic(auto, unfolding(p21_mappings::specs::Layouts::internal))]
fn by_new_leaf<N: DefinedNames>(
    alloc: Global,
    layouts: &mut Layouts<'_>,
    names: &N,
    name: u64,
    part: &Record<'_>,
    entity: usize,
) -> Mapped<Instance>
    ensures layouts { layouts.new ≡ layouts.old }
    ensures made { Gives (λ x. x) result (spec.by_layout layouts.old (N.is_defined names.now) name (part.now ∷ []) (internal layouts.old entity)) }
{
    let schema = layouts.dictionary();
    let Some(layout) = legal_leaf(alloc, schema, entity)? else {
        return Err(Failure::Fault(InstanceFaultKind::IllegalCombination));
    };
    let instance = by_leaf(alloc, schema, names, name, part, entity, &layout)?;
    layouts.keep_leaf(entity, layout)?;
    Ok(instance)
}

fn by_entity<N: DefinedNames>(
    alloc: Global,
    layouts: &mut Layouts<'_>,
    names: &N,
    name: u64,
    part: &Record<'_>,
) -> Mapped<Instance>
    ensures layouts { layouts.new ≡ layouts.old }
    ensures made { Gives (λ x. x) result (spec.by_entity layouts.old (N.is_defined names.now) name (part.now ∷ []) (entity_spelled layouts.old part.now.keyword)) }
{
    let Some(entity) = entity_named(alloc, layouts, &part.keyword)? else {
        return Err(Failure::Fault(InstanceFaultKind::UnknownEntity));
    };
    match layouts.leaf(entity) {
        Some(layout) => by_leaf(
            alloc,
            layouts.dictionary(),
            names,
            name,
            part,
            entity,
            layout,
        ),
        None => by_new_leaf(alloc, layouts, names, name, part, entity),
    }
}

/// The instance, whose name stood before or not, or the first that holds of what is wrong with it.
#[tactic(auto, unfolding(p21_mappings::specs::Instances::instance))]
pub fn instance<N: DefinedNames>(
    alloc: Global,
    layouts: &mut Layouts<'_>,
    names: &N,
    stood: bool,
    spelled: &SpelledInstance<'_>,
) -> Mapped<Instance>
    ensures layouts { layouts.new ≡ layouts.old }
    ensures made { Gives (λ x. x) result (spec.instance layouts.old (N.is_defined names.now) stood spelled.now) }
{
    if stood {
        return Err(Failure::Fault(InstanceFaultKind::Twice));
    }
    let name = spelled.name;
    match &spelled.mapping {
        Mapping::Internal(part) => by_entity(alloc, layouts, names, name, part),
        Mapping::External(parts) => by_parts(alloc, layouts, names, name, parts.as_slice()),
    }
}
