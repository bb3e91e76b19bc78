//! The supertype expressions of a schema, as they are kept to tell legal sets.

ghost use Rattle.std.specs.Prelude.{◌≡◌, ℕ, List, Some, None, IfOk, IsTrue};
ghost use Rattle.std.specs.List.Sorted.{IsStrictlyIncreasing};
ghost use Rattle.plain_data.specs.Numbers.{is_among};
ghost use Rattle.graphs.specs.Graphs.{line as line_of};
ghost use Rattle.plain_data.specs.Gives.{Gives};
ghost use Rattle.ex_subtypes.specs.Faults as faults;
ghost use Rattle.ex_subtypes.specs.Legal as spec;
ghost use Rattle.ex_subtypes.specs.Nodes.{all_kept};

use crate::build::{SubtypeFault, first_fault};
use crate::constraints::{Constraint, all_constraints, are_free};
use crate::entity_set::EntitySet;
use crate::legal::{Illegal, is_abstract, refusal};
use ex_named::NamedEntity;
use plain_data::Failure;
use std::alloc::{AllocError, Global};
use std::marker::Model;

/// What is kept of the supertype expressions of a schema's entities.
#[derive(Drop)]
pub struct Constraints {
    /// Of each entity what is kept of its expression, if it has one.
    all: Vec<Option<Constraint>>,
}

impl Model for Constraints {
    ghost use Rattle.std.specs.Prelude.{List, Option};
    ghost use Rattle.ex_subtypes.specs.declared.constraints.Constraint.{Constraint};

    ghost Value = { List (Option Constraint) };

    ghost view = { λ c. c.all.items };

    ghost use Rattle.std.specs.Coded.{codes};
    ghost use Rattle.ex_subtypes.specs.contracts.constraints.Constraint as constraint_type;

    ghost coded = { Prim.hlevel (codes, constraint_type.the_row.coded) };
}

impl Constraints {
    /// Those of the entities, where all expressions can be read. Else the fault of least offset.
    #[tactic(auto, using(crate::proofs::Readable::readable))]
    pub fn build(
        alloc: Global,
        entities: &[NamedEntity],
    ) -> Result<Constraints, Failure<SubtypeFault>>
        ensures built { Gives (λ kept. kept) result (faults.built_by (all_kept entities.now) (faults.first_fault entities.now)) }
        ensures readable { IfOk result (λ _. spec.AreReadable entities.now) }
    {
        if let Some(fault) = first_fault(alloc, entities)? {
            return Err(Failure::Fault(fault));
        }
        let all = all_constraints(alloc, entities)?;
        Ok(Constraints { all })
    }

    /// Why no instance may have exactly these entities, the first that holds; nothing where one may.
    /// A number beyond the schema is that of an entity without supertypes.
    ///
    /// Its time is near-linear in the set, its members' supertypes, and the nodes of their expressions at which members
    /// stand, with those above them.
    pub fn legal(
        &self,
        alloc: Global,
        entities: &[NamedEntity],
        set: &EntitySet,
    ) -> Result<Option<Illegal>, AllocError>
        requires readable { spec.AreReadable entities.now }
        requires kept { self.now ≡ all_kept entities.now }
        ensures { IfOk result (λ found. found ≡ spec.refusal entities.now set.now) }
    {
        refusal(alloc, entities, &self.all, set)
    }

    /// Whether nothing speaks against an instance of an entity and all above it, of which this is the line: the entity isn't
    /// abstract, and none of them has an expression. It takes no set and no steps between its members. Where it isn't so,
    /// `legal` tells.
    pub fn is_unconstrained(&self, entities: &[NamedEntity], entity: usize, line: &[usize]) -> bool
        requires kept { self.now ≡ all_kept entities.now }
        requires line { line_of (spec.graph entities.now) entity ≡ Some line.now }
        ensures { IsTrue result → (set : List ℕ) → IsStrictlyIncreasing set → ((n : ℕ) → is_among set n ≡ is_among line.now n) → spec.refusal entities.now set ≡ None }
    {
        !is_abstract(entities, entity) && are_free(&self.all, line)
    }
}
