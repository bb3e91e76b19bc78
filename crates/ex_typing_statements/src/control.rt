//! What governs a REPEAT.

ghost use Rattle.std.specs.Prelude.{◌≡◌, IfOk};
ghost use Rattle.ex_operators.specs.Fitting as fitting;
ghost use Rattle.ex_typing.specs.Expressions as expressions;
ghost use Rattle.ex_typing_statements.specs.Statements as spec;

use crate::places::{Told, assign_unless, fault_of};
use ex_kinds::{TypeFault, either};
use ex_named::{NamedExpression, NamedIncrement, NamedRepeatControl};
use ex_operators::is_integer;
use ex_typing::{Known, TypingScope, expression};
use std::alloc::{AllocError, Global};

/// A condition that may be left out.
fn condition(
    alloc: Global,
    schema: &Known,
    scope: &TypingScope<'_>,
    value: &Option<NamedExpression>,
) -> Told
    ensures { IfOk result (λ told. told ≡ spec.condition schema.now scope.now value.now) }
{
    match value {
        Some(value) => fault_of(alloc, schema, scope, value),
        None => Ok(None),
    }
}

/// The fault that is told of a bound, and whether it may be an INTEGER.
fn bound(
    alloc: Global,
    schema: &Known,
    scope: &TypingScope<'_>,
    value: &NamedExpression,
) -> Result<(Option<TypeFault>, bool), AllocError>
    ensures fault { IfOk result (λ found. found.0 ≡ (expressions.expression schema.now scope.now value.now).fault) }
    ensures integer { IfOk result (λ found. found.1 ≡ fitting.is_integer schema.now.types (expressions.expression schema.now scope.now value.now).kinds) }
{
    let value = expression(alloc, schema, scope, value)?;
    let fine = is_integer(schema.types(), value.kinds.as_slice());
    Ok((value.fault, fine))
}

/// The same of a step, which may be left out.
fn step(
    alloc: Global,
    schema: &Known,
    scope: &TypingScope<'_>,
    value: &Option<NamedExpression>,
) -> Result<(Option<TypeFault>, bool), AllocError>
    ensures fault { IfOk result (λ found. found.0 ≡ spec.condition schema.now scope.now value.now) }
    ensures integer { IfOk result (λ found. found.1 ≡ spec.step_is_integer schema.now scope.now value.now) }
{
    match value {
        Some(value) => bound(alloc, schema, scope, value),
        None => Ok((None, true)),
    }
}

/// The bounds stand outside the variable's scope.
#[tactic(auto, unfolding(crate::specs::Statements::increment))]
fn increment(
    alloc: Global,
    schema: &Known,
    scope: &TypingScope<'_>,
    increment: &NamedIncrement,
) -> Told
    ensures { IfOk result (λ told. told ≡ spec.increment schema.now scope.now increment.now) }
{
    let (first, first_fits) = bound(alloc, schema, scope, &increment.first)?;
    let (last, last_fits) = bound(alloc, schema, scope, &increment.last)?;
    let (step, step_fits) = step(alloc, schema, scope, &increment.step)?;
    let parts = either(either(first, last), step);
    Ok(either(
        parts,
        assign_unless(first_fits && last_fits && step_fits, increment.at),
    ))
}

/// An increment that may be left out.
fn optional_increment(
    alloc: Global,
    schema: &Known,
    scope: &TypingScope<'_>,
    value: &Option<NamedIncrement>,
) -> Told
    ensures { IfOk result (λ told. told ≡ spec.optional_increment schema.now scope.now value.now) }
{
    match value {
        Some(value) => increment(alloc, schema, scope, value),
        None => Ok(None),
    }
}

/// What governs a REPEAT in this scope, whose turns stand in the second one.
#[tactic(auto, unfolding(crate::specs::Statements::repeat_control))]
pub(crate) fn repeat_control(
    alloc: Global,
    schema: &Known,
    scope: &TypingScope<'_>,
    turn: &TypingScope<'_>,
    control: &NamedRepeatControl,
) -> Told
    requires { turn.now ≡ spec.in_turn scope.now control.now.increment }
    ensures { IfOk result (λ told. told ≡ spec.repeat_control schema.now scope.now control.now) }
{
    let increment = optional_increment(alloc, schema, scope, &control.increment)?;
    let while_condition = condition(alloc, schema, turn, &control.while_condition)?;
    let until_condition = condition(alloc, schema, turn, &control.until_condition)?;
    Ok(either(either(increment, while_condition), until_condition))
}
