//! What is taken of a value, once its parts are bound.

ghost use Rattle.std.specs.Prelude.{List};
ghost use Rattle.ex_named.specs.Outcomes.{Outcome, Binds};
ghost use Rattle.ex_named.specs.declared.expression.NamedExpression.{NamedExpression};
ghost use Rattle.ex_named.specs.declared.expression.NamedQualifier.{NamedQualifier};
ghost use Rattle.ex_bind.specs.Trees as spec;

use ex_named::{Binding, NamedExpression, NamedQualifier, both};
use ex_scopes::{Declarations, Scope};
use ex_tree::{Expression, Qualifier};
use plain_data::{Boxed, Items};
use std::alloc::Global;

/// What `type.item` means, if the base is the name of a type.
#[tactic(auto, unfolding(ex_named::specs::Expressions::bound_expression, crate::specs::Trees::bound_qualifier))]
pub fn item(
    alloc: Global,
    declarations: &Declarations<'_>,
    scope: &Scope<'_>,
    base: &Expression,
    first: &Qualifier,
) -> Binding<Option<NamedExpression>>
    ensures { Binds result (spec.item declarations.now scope.now base.now first.now) }
{
    match (base, first) {
        (Expression::Name(type_name), Qualifier::Attribute(_, item)) => {
            declarations.item_of(alloc, scope, type_name, item)
        },
        _ => Ok(None),
    }
}

/// A value, and what is taken of it.
pub fn taken_of(
    alloc: Global,
    base: Binding<NamedExpression>,
    qualifiers: Binding<Items<NamedQualifier>>,
) -> Binding<NamedExpression>
    ensures { (b : Outcome NamedExpression) → (qs : Outcome (List NamedQualifier)) → Binds base b → Binds qualifiers qs → Binds result (spec.taken_of b qs) }
{
    let (base, qualifiers) = both(base, qualifiers)?;
    Ok(NamedExpression::Qualified(Boxed::new(alloc, base)?, qualifiers))
}
