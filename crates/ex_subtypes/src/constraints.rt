//! What is kept of the supertype expressions of a schema.

ghost use Rattle.std.specs.Prelude.{◌≡◌, ℕ, [], true, slice_get, None, IfOk, IsTrue};
ghost use Rattle.std.specs.List.{list_all};
ghost use Rattle.std.specs.Option.{option_copied, option_map};
ghost use Rattle.plain_data.specs.Numbers.{is_among};
ghost use Rattle.ex_subtypes.specs.Combinations.{is_distinct, names};
ghost use Rattle.ex_subtypes.specs.Legal as legal;
ghost use Rattle.ex_subtypes.specs.Nodes as spec;

use crate::nodes::{Node, node_of};
use crate::places::Places;
use ex_named::{NamedEntity, NamedSupertype};
use std::alloc::{AllocError, Global};

/// A supertype expression: its nodes, and the places of the entities that it names.
#[derive(Drop)]
pub struct Constraint {
    pub node: Node,
    pub places: Places,
}

fn constraint_of(alloc: Global, expression: &NamedSupertype) -> Result<Constraint, AllocError>
    requires { is_distinct (names expression.now) ≡ true }
    ensures { IfOk result (λ constraint. constraint ≡ spec.kept expression.now) }
{
    let mut named = Vec::new(alloc);
    let node = node_of(alloc, &mut named, expression)?;
    let places = Places::new(alloc, named)?;
    Ok(Constraint { node, places })
}

fn entity_constraint(alloc: Global, entity: &NamedEntity) -> Result<Option<Constraint>, AllocError>
    requires { list_all (λ x. is_distinct (names x)) (legal.constraints_of entity.now) ≡ true }
    ensures { IfOk result (λ constraint. constraint ≡ option_map spec.kept entity.now.constraint) }
{
    match &entity.constraint {
        Some(expression) => Ok(Some(constraint_of(alloc, expression)?)),
        None => Ok(None),
    }
}

/// Of each entity what is kept of its expression, if it has one.
pub fn all_constraints(
    alloc: Global,
    entities: &[NamedEntity],
) -> Result<Vec<Option<Constraint>>, AllocError>
    requires { legal.AreReadable entities.now }
    ensures { IfOk result (λ kept. kept.items ≡ spec.all_kept entities.now) }
{
    let mut kept = Vec::with_capacity(alloc, entities.len())?;
    for number in 0..entities.len() {
        kept.push(entity_constraint(alloc, &entities[number])?)?;
    }
    Ok(kept)
}

/// What is kept of the expression of the entity of this number, if it has one.
pub fn constraint_at(kept: &[Option<Constraint>], number: usize) -> Option<&Constraint>
    ensures { option_copied result ≡ spec.kept_at kept.now number }
{
    match kept.get(number) {
        Some(constraint) => constraint.as_ref(),
        None => None,
    }
}

/// Whether none of these entities has an expression.
pub fn are_free(kept: &[Option<Constraint>], numbers: &[usize]) -> bool
    ensures { IsTrue result → (n : ℕ) → is_among numbers.now n ≡ true → spec.kept_at kept.now n ≡ None }
{
    for number in numbers {
        if constraint_at(kept, *number).is_some() {
            return false;
        }
    }
    true
}
