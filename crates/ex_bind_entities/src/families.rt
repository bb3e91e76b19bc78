//! An entity together with its ancestors.

ghost use Rattle.std.specs.Prelude.{◌≡◌, ◌&&◌, nat_lt, length, IfOk};
ghost use Rattle.plain_data.specs.Numbers.{is_among};
ghost use Rattle.graphs.specs.Graphs as graphs;

use ancestors::{Descent, Family};
use ex_scopes::Declarations;
use std::alloc::{AllocError, Global};

/// An entity whose names are bound, and what they are looked up in.
#[derive(Drop)]
pub struct EntityContext<'a, 'd, 's> {
    pub declarations: &'a Declarations<'d>,
    /// Of each entity the entities that its SUBTYPE OF lists.
    pub supertypes: &'s Descent,
    pub entity: usize,
    /// Whether the entity is an ancestor of itself.
    pub is_cyclic: bool,
    /// The entity and its ancestors, as far as they are the schema's.
    pub family: Family<'s>,
    ghost told_cyclic: { is_cyclic ≡ graphs.is_ancestor supertypes.now entity entity },
    ghost own_family: { family ≡ graphs.family supertypes.now entity },
}

impl<'a, 'd, 's> EntityContext<'a, 'd, 's> {
    pub fn new(
        declarations: &'a Declarations<'d>,
        supertypes: &'s Descent,
        entity: usize,
        is_cyclic: bool,
    ) -> EntityContext<'a, 'd, 's>
        requires { is_cyclic ≡ graphs.is_ancestor supertypes.now entity entity }
        ensures declarations { result.declarations.now ≡ declarations.now }
        ensures supertypes { result.supertypes.now ≡ supertypes.now }
        ensures entity { result.entity ≡ entity }
    {
        EntityContext {
            declarations,
            supertypes,
            entity,
            is_cyclic,
            family: Family::of(supertypes, entity),
        }
    }

    /// Whether this is the entity at hand or an ancestor of it, and one of the schema's.
    pub fn is_in_family(&self, alloc: Global, other: usize) -> Result<bool, AllocError>
        ensures { IfOk result (λ told. told ≡ is_among (graphs.family self.now.supertypes.now self.now.entity) other) }
    {
        self.family.has(alloc, other)
    }

    /// Whether this is an ancestor of the entity at hand, and one of the schema's entities.
    #[tactic(auto, using(crate::proofs::Ancestors::in_family))]
    pub fn is_ancestor(&self, alloc: Global, other: usize) -> Result<bool, AllocError>
        ensures { IfOk result (λ told. told ≡ (nat_lt other (length self.now.supertypes.now) && graphs.is_ancestor self.now.supertypes.now self.now.entity other)) }
    {
        Ok(self.is_in_family(alloc, other)? && (other != self.entity || self.is_cyclic))
    }
}
