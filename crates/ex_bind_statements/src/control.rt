//! What governs a REPEAT.

ghost use Rattle.std.specs.Prelude.{◌≡◌};
ghost use Rattle.ex_named.specs.Expressions.{expression as bound};
ghost use Rattle.ex_named.specs.Outcomes as outcomes;
ghost use Rattle.ex_named.specs.Outcomes.{Binds};
ghost use Rattle.ex_named.specs.Statements as spec;

use ex_bind::expression;
use ex_named::{Binding, NamedExpression, NamedIncrement, NamedRepeatControl, both};
use ex_scopes::{Declarations, Scope};
use ex_tree::{Expression, Increment, RepeatControl};
use std::alloc::Global;

/// An expression that may be left out.
fn optional(
    alloc: Global,
    declarations: &Declarations<'_>,
    scope: &Scope<'_>,
    value: &Option<Expression>,
) -> Binding<Option<NamedExpression>>
    ensures { Binds result (outcomes.optional (bound declarations.now scope.now) value.now) }
{
    match value {
        Some(value) => Ok(Some(expression(alloc, declarations, scope, value)?)),
        None => Ok(None),
    }
}

/// The bounds stand outside the variable's scope.
#[tactic(auto, unfolding(ex_named::specs::Statements::increment))]
fn increment(
    alloc: Global,
    declarations: &Declarations<'_>,
    scope: &Scope<'_>,
    increment: &Increment,
) -> Binding<NamedIncrement>
    ensures { Binds result (spec.increment declarations.now scope.now increment.now) }
{
    let first = expression(alloc, declarations, scope, &increment.first);
    let last = expression(alloc, declarations, scope, &increment.last);
    let step = optional(alloc, declarations, scope, &increment.step);
    let ((first, last), step) = both(both(first, last), step)?;
    Ok(NamedIncrement {
        at: increment.variable.at,
        first,
        last,
        step,
    })
}

/// An increment that may be left out.
fn optional_increment(
    alloc: Global,
    declarations: &Declarations<'_>,
    scope: &Scope<'_>,
    value: &Option<Increment>,
) -> Binding<Option<NamedIncrement>>
    ensures { Binds result (outcomes.optional (spec.increment declarations.now scope.now) value.now) }
{
    match value {
        Some(value) => Ok(Some(increment(alloc, declarations, scope, value)?)),
        None => Ok(None),
    }
}

/// What governs a REPEAT in this scope, whose turns stand in the second one.
#[tactic(auto, unfolding(ex_named::specs::Statements::repeat_control))]
pub(crate) fn repeat_control(
    alloc: Global,
    declarations: &Declarations<'_>,
    scope: &Scope<'_>,
    turn: &Scope<'_>,
    control: &RepeatControl,
) -> Binding<NamedRepeatControl>
    requires { turn.now ≡ spec.in_turn scope.now control.now.increment }
    ensures { Binds result (spec.repeat_control declarations.now scope.now control.now) }
{
    let increment = optional_increment(alloc, declarations, scope, &control.increment);
    let while_condition = optional(alloc, declarations, turn, &control.while_condition);
    let until_condition = optional(alloc, declarations, turn, &control.until_condition);
    let ((increment, while_condition), until_condition) = both(
        both(increment, while_condition),
        until_condition,
    )?;
    Ok(NamedRepeatControl {
        increment,
        while_condition,
        until_condition,
    })
}
