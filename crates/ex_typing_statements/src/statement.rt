//! Statements.
#![tactic(auto, unfolding(crate::specs::Statements::typed_statement, crate::specs::Parts::typed_case, crate::specs::Parts::typed_case_action))]

ghost use Rattle.std.specs.Prelude.{◌≡◌, [], None, IfOk};
ghost use Rattle.ex_typing_statements.specs.Parts as parts;
ghost use Rattle.ex_typing_statements.specs.Statements as spec;

use crate::control::repeat_control;
use crate::labels::{Actions, append, fault_by};
use crate::places::{Told, assigned, fault_of};
use ex_kinds::{Sort, TypeFault, ValueKind, either};
use ex_named::{NamedCase, NamedCaseAction, NamedExpression, NamedRepeatControl, NamedStatement};
use ex_operators::case_fault;
use ex_typing::{Known, TypingScope, expression, expressions};
use plain_data::{Boxed, Items, Rows};
use std::alloc::{AllocError, Global};

/// What the variable of a REPEAT may be.
static VARIABLE: [ValueKind; 1] = [ValueKind {
    depth: 0,
    sort: Sort::Integer,
}];

/// The fault that is told of statements.
#[cycle(statements)]
pub fn statements(
    alloc: Global,
    schema: &Known,
    scope: &TypingScope<'_>,
    list: &[NamedStatement],
) -> Result<Option<TypeFault>, AllocError>
    ensures { IfOk result (λ told. told ≡ spec.statements schema.now scope.now list.now) }
{
    let mut found = None;
    for item in list {
        let told = statement(alloc, schema, scope, item)?;
        found = either(found, told);
    }
    Ok(found)
}

#[cycle(statements)]
fn statement(
    alloc: Global,
    schema: &Known,
    scope: &TypingScope<'_>,
    statement: &NamedStatement,
) -> Told
    ensures { IfOk result (λ told. told ≡ spec.statement schema.now scope.now statement.now) }
{
    match statement {
        NamedStatement::Null => Ok(None),
        NamedStatement::Assignment(slot, at, value) => {
            assigned(alloc, schema, scope, scope.variable(*slot), *at, value)
        }
        NamedStatement::Case(case) => case_statement(alloc, schema, scope, case.get()),
        NamedStatement::Compound(body) => statements(alloc, schema, scope, body.as_slice()),
        NamedStatement::Escape => Ok(None),
        NamedStatement::If(condition, then_part, else_part) => {
            let condition = fault_of(alloc, schema, scope, condition)?;
            let then_part = statements(alloc, schema, scope, then_part.as_slice())?;
            let else_part = statements(alloc, schema, scope, else_part.as_slice())?;
            Ok(either(either(condition, then_part), else_part))
        }
        NamedStatement::Repeat(control, body) => {
            repeat(alloc, schema, scope, control.get(), body)
        }
        NamedStatement::Return(at, value) => {
            assigned(alloc, schema, scope, scope.result(), *at, value)
        }
        NamedStatement::Skip => Ok(None),
    }
}

#[cycle(statements)]
fn case_statement(alloc: Global, schema: &Known, scope: &TypingScope<'_>, case: &NamedCase) -> Told
    ensures { IfOk result (λ told. told ≡ parts.typed_case schema.now case.now scope.now) }
{
    let selector = expression(alloc, schema, scope, &case.selector)?;
    let (labels, actions) = case_actions(alloc, schema, scope, case.actions.as_slice())?;
    let otherwise = otherwise(alloc, schema, scope, &case.otherwise)?;
    let kind = case_fault(
        alloc,
        schema.types(),
        selector.kinds.as_slice(),
        labels.as_slice(),
    )?;
    let parts = either(either(selector.fault, actions), otherwise);
    Ok(either(parts, fault_by(kind, case.at)))
}

/// The actions of a CASE, in order.
#[cycle(statements)]
fn case_actions(
    alloc: Global,
    schema: &Known,
    scope: &TypingScope<'_>,
    actions: &[NamedCaseAction],
) -> Result<Actions, AllocError>
    ensures { IfOk result (λ found. found ≡ parts.case_actions schema.now scope.now actions.now) }
{
    let mut labels = Rows::new(alloc);
    let mut found = None;
    for action in actions {
        let (more, told) = case_action(alloc, schema, scope, action)?;
        append(&mut labels, more)?;
        found = either(found, told);
    }
    Ok((labels, found))
}

#[cycle(statements)]
fn case_action(
    alloc: Global,
    schema: &Known,
    scope: &TypingScope<'_>,
    action: &NamedCaseAction,
) -> Result<Actions, AllocError>
    ensures { IfOk result (λ found. found ≡ parts.typed_case_action schema.now action.now scope.now) }
{
    let told = statement(alloc, schema, scope, &action.statement)?;
    let (labels, found) = expressions(alloc, schema, scope, action.labels.as_slice())?;
    Ok((labels, either(found, told)))
}

/// What follows OTHERWISE, if it is there.
#[cycle(statements)]
fn otherwise(
    alloc: Global,
    schema: &Known,
    scope: &TypingScope<'_>,
    part: &Option<Boxed<NamedStatement>>,
) -> Told
    ensures { IfOk result (λ told. told ≡ parts.otherwise schema.now scope.now part.now) }
{
    match part {
        Some(part) => statement(alloc, schema, scope, part.get()),
        None => Ok(None),
    }
}

#[cycle(statements)]
fn repeat(
    alloc: Global,
    schema: &Known,
    scope: &TypingScope<'_>,
    control: &NamedRepeatControl,
    body: &Items<NamedStatement>,
) -> Told
    ensures { IfOk result (λ told. told ≡ parts.repeat schema.now scope.now control.now body.now) }
{
    match &control.increment {
        Some(_) => {
            let turn = scope.within(alloc, &VARIABLE)?;
            repeat_in(alloc, schema, scope, &turn, control, body)
        }
        None => repeat_in(alloc, schema, scope, scope, control, body),
    }
}

/// A REPEAT in this scope, whose turns stand in the second one.
#[cycle(statements)]
fn repeat_in<'a>(
    alloc: Global,
    schema: &Known,
    scope: &TypingScope<'a>,
    turn: &TypingScope<'a>,
    control: &NamedRepeatControl,
    body: &Items<NamedStatement>,
) -> Told
    requires { turn.now ≡ spec.in_turn scope.now control.now.increment }
    ensures { IfOk result (λ told. told ≡ parts.repeat schema.now scope.now control.now body.now) }
{
    let control = repeat_control(alloc, schema, scope, turn, control)?;
    let body = statements(alloc, schema, turn, body.as_slice())?;
    Ok(either(control, body))
}
