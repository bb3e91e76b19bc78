//! The declarations of each sort. Each tree goes once its names are bound.

ghost use Rattle.std.specs.Prelude.{◌≡◌, [], map, length};
ghost use Rattle.ex_named.specs.Outcomes.{Binds, each};
ghost use Rattle.ex_bind_algorithms.specs.Algorithms as algorithms;
ghost use Rattle.ex_bind_entities.specs.Entities as entities_spec;
ghost use Rattle.ex_declarations.specs.Declared.{each_numbered};
ghost use Rattle.graphs.specs.Graphs.{is_ancestor, numbers_from};

use crate::queue::Queue;
use ancestors::Descent;
use ex_bind_algorithms::{constant, named_function, named_rule};
use ex_bind_entities::{named_entity, named_type};
use ex_named::{
    Binding, Gathered, NamedConstant, NamedEntity, NamedFunction, NamedRule, NamedType,
};
use ex_scopes::Declarations;
use ex_tree::{Constant, Entity, Function, Rule, TypeDeclaration};
use graphs::cyclic_marks;
use plain_data::{Items, Rows};
use std::alloc::Global;

/// Constants with their names bound, in order.
pub fn constants(
    alloc: Global,
    declarations: &Declarations<'_>,
    trees: Queue<Constant>,
) -> Binding<Items<NamedConstant>>
    ensures { Binds result (each (algorithms.constant declarations.now) trees) }
{
    let mut found = Gathered::new(alloc, trees.len())?;
    let mut left = trees;
    while let Some(tree) = left.take() {
        found.push(constant(alloc, declarations, &tree))?;
    }
    found.finish()
}

/// Functions with their names bound, in order.
pub fn functions(
    alloc: Global,
    declarations: &Declarations<'_>,
    trees: Queue<Function>,
) -> Binding<Items<NamedFunction>>
    ensures { Binds result (each (algorithms.named_function declarations.now) trees) }
{
    let mut found = Gathered::new(alloc, trees.len())?;
    let mut left = trees;
    while let Some(tree) = left.take() {
        found.push(named_function(alloc, declarations, &tree))?;
    }
    found.finish()
}

/// Rules with their names bound, in order.
pub fn rules(
    alloc: Global,
    declarations: &Declarations<'_>,
    trees: Queue<Rule>,
) -> Binding<Items<NamedRule>>
    ensures { Binds result (each (algorithms.named_rule declarations.now) trees) }
{
    let mut found = Gathered::new(alloc, trees.len())?;
    let mut left = trees;
    while let Some(tree) = left.take() {
        found.push(named_rule(alloc, declarations, &tree))?;
    }
    found.finish()
}

/// A type in the graph of what types hold.
fn type_in(
    alloc: Global,
    declarations: &Declarations<'_>,
    _held: &[Rows<usize>],
    number: usize,
    is_cyclic: bool,
    declaration: &TypeDeclaration,
) -> Binding<NamedType>
    requires { is_cyclic ≡ is_ancestor _held.now number number }
    ensures { Binds result (entities_spec.named_type declarations.now [] _held.now number declaration.now) }
{
    named_type(alloc, declarations, number, is_cyclic, declaration)
}

/// Types with their names bound, in order.
pub fn types(
    alloc: Global,
    declarations: &Declarations<'_>,
    held: &[Rows<usize>],
    trees: Queue<TypeDeclaration>,
) -> Binding<Items<NamedType>>
    requires { length held.now ≡ length trees }
    ensures { Binds result (each_numbered (entities_spec.named_type declarations.now [] held.now) trees) }
{
    let cyclic = cyclic_marks(alloc, held)?;
    let cyclic = cyclic.as_slice();
    let mut found = Gathered::new(alloc, trees.len())?;
    let mut left = trees;
    let mut number = 0;
    while let Some(tree) = left.take() {
        let is_cyclic = cyclic[number];
        found.push(type_in(alloc, declarations, held, number, is_cyclic, &tree))?;
        number += 1;
    }
    found.finish()
}

/// Entities with their names bound, in order.
pub fn entities(
    alloc: Global,
    declarations: &Declarations<'_>,
    supertypes: &[Rows<usize>],
    trees: Queue<Entity>,
) -> Binding<Items<NamedEntity>>
    requires { length supertypes.now ≡ length trees }
    ensures { Binds result (each_numbered (entities_spec.named_entity declarations.now supertypes.now) trees) }
{
    let cyclic = cyclic_marks(alloc, supertypes)?;
    let descent = Descent::of_lent(alloc, supertypes)?;
    entities_over(alloc, declarations, &descent, cyclic.as_slice(), trees)
}

/// Entities with their names bound, given of which it is known that they are their own ancestors.
fn entities_over(
    alloc: Global,
    declarations: &Declarations<'_>,
    supertypes: &Descent,
    cyclic: &[bool],
    trees: Queue<Entity>,
) -> Binding<Items<NamedEntity>>
    requires cyclic { cyclic.now ≡ map (λ k. is_ancestor supertypes.now k k) (numbers_from 0 (length supertypes.now)) }
    requires counted { length supertypes.now ≡ length trees }
    ensures { Binds result (each_numbered (entities_spec.named_entity declarations.now supertypes.now) trees) }
{
    let mut found = Gathered::new(alloc, trees.len())?;
    let mut left = trees;
    let mut number = 0;
    while let Some(tree) = left.take() {
        let is_cyclic = cyclic[number];
        found.push(named_entity(alloc, declarations, supertypes, number, is_cyclic, &tree))?;
        number += 1;
    }
    found.finish()
}
