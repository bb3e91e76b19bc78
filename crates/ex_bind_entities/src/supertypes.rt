//! What SUPERTYPE OF says, with its names bound.

ghost use Rattle.std.specs.Prelude.{[]};
ghost use Rattle.ex_named.specs.Outcomes.{Binds, each};
ghost use Rattle.ex_bind_entities.specs.Entities as spec;

use ex_named::{Binding, Gathered, NamedSupertype};
use ex_scopes::Declarations;
use ex_tree::SupertypeExpression;
use plain_data::Items;
use std::alloc::Global;

/// A supertype expression with its names bound. What is a supertype of what plays no part in it.
#[cycle(supertypes)]
#[tactic(auto, unfolding(crate::specs::Entities::supertype))]
pub fn supertype(
    alloc: Global,
    declarations: &Declarations<'_>,
    tree: &SupertypeExpression,
) -> Binding<NamedSupertype>
    ensures { Binds result (spec.supertype declarations.now [] tree.now) }
{
    match tree {
        SupertypeExpression::Entity(name) => {
            Ok(NamedSupertype::Entity(declarations.entity(name)?, name.at))
        },
        SupertypeExpression::OneOf(parts) => {
            let parts = supertypes(alloc, declarations, parts.as_slice())?;
            Ok(NamedSupertype::OneOf(parts))
        },
        SupertypeExpression::And(parts) => {
            let parts = supertypes(alloc, declarations, parts.as_slice())?;
            Ok(NamedSupertype::And(parts))
        },
        SupertypeExpression::AndOr(parts) => {
            let parts = supertypes(alloc, declarations, parts.as_slice())?;
            Ok(NamedSupertype::AndOr(parts))
        },
    }
}

/// Supertype expressions with their names bound, in order.
#[cycle(supertypes)]
fn supertypes(
    alloc: Global,
    declarations: &Declarations<'_>,
    trees: &[SupertypeExpression],
) -> Binding<Items<NamedSupertype>>
    ensures { Binds result (each (spec.supertype declarations.now []) trees.now) }
{
    let mut gathered = Gathered::new(alloc, trees.len())?;
    for tree in trees {
        gathered.push(supertype(alloc, declarations, tree))?;
    }
    gathered.finish()
}
