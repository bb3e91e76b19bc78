//! The attributes of a schema's entities.

ghost use Rattle.std.specs.Prelude.{◌≡◌, nat_lt, map, length, IfOk};
ghost use Rattle.graphs.specs.Graphs as graphs;
ghost use Rattle.ex_attributes.specs.Attributes as spec;

use crate::declared_attributes::declared_by_all;
use crate::declared_rows::DeclaredRows;
use crate::redeclarations::redeclared_by_all;
use crate::redeclared_rows::RedeclaredRows;
use ancestors::{Descent, Family};
use ex_named::NamedEntity;
use graphs::family;
use plain_data::Rows;
use std::alloc::{AllocError, Global};
use std::marker::Model;

/// The attributes of a schema's entities.
pub struct Attributes {
    declared: DeclaredRows,
    redeclared: RedeclaredRows,
    /// Of each entity its direct supertypes.
    supertypes: Descent,
}

impl Drop for Attributes {
    fn drop(self) {
        let Attributes {
            declared,
            redeclared,
            supertypes,
        } = self;
        drop(declared);
        drop(redeclared);
        drop(supertypes);
    }
}

impl Model for Attributes {
    ghost use Rattle.ex_attributes.specs.Attributes as spec;

    ghost Value = { spec.Attributes };

    ghost view = { λ a. record { declared = a.declared; redeclared = a.redeclared; supertypes = a.supertypes } };
}

/// Of each entity its direct supertypes.
fn supertypes(alloc: Global, entities: &[NamedEntity]) -> Result<Vec<Rows<usize>>, AllocError>
    ensures { IfOk result (λ found. found.items ≡ map (λ e. e.supertypes) entities.now) }
{
    let mut found = Vec::with_capacity(alloc, entities.len())?;
    for entity in entities {
        let above = Vec::from_slice(alloc, entity.supertypes.as_slice())?;
        found.push(Rows::from_vec(above))?;
    }
    Ok(found)
}

impl Attributes {
    /// The attributes of these entities, which are all.
    #[tactic(auto, unfolding(crate::specs::Attributes::attributes_of))]
    pub fn of(alloc: Global, entities: &[NamedEntity]) -> Result<Attributes, AllocError>
        ensures { IfOk result (λ found. found ≡ spec.attributes_of entities.now) }
    {
        let supertypes = Descent::of(alloc, supertypes(alloc, entities)?)?;
        let declared = DeclaredRows::new(alloc, declared_by_all(alloc, entities)?.into_vec())?;
        let redeclared = redeclared_by_all(alloc, entities)?.into_vec();
        let redeclared = RedeclaredRows::new(alloc, redeclared)?;
        Ok(Attributes {
            declared,
            redeclared,
            supertypes,
        })
    }

    /// Whether there are entities.
    pub fn has_entities(&self) -> bool
        ensures { result ≡ nat_lt 0 (length self.now.supertypes) }
    {
        self.len() > 0
    }

    /// How many entities there are.
    pub(crate) fn len(&self) -> usize
        ensures { result ≡ length self.now.supertypes }
    {
        self.supertypes.graph().len()
    }

    /// What entities declare.
    pub(crate) fn declared(&self) -> &DeclaredRows
        ensures { result.now ≡ self.now.declared }
    {
        &self.declared
    }

    /// What entities redeclare.
    pub(crate) fn redeclared(&self) -> &RedeclaredRows
        ensures { result.now ≡ self.now.redeclared }
    {
        &self.redeclared
    }

    /// The entity and the ones above it.
    pub(crate) fn family(&self, entity: usize) -> Family<'_>
        ensures { result ≡ graphs.family self.now.supertypes entity }
    {
        Family::of(&self.supertypes, entity)
    }

    /// The numbers of the entity and of the ones above it.
    pub(crate) fn members(&self, alloc: Global, entity: usize) -> Result<Vec<usize>, AllocError>
        ensures { IfOk result (λ found. found.items ≡ graphs.family self.now.supertypes entity) }
    {
        family(alloc, self.supertypes.graph(), entity)?
            .into_iter()
            .collect(alloc)
    }
}
