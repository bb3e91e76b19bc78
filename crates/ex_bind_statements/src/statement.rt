//! Statements: all parts are bound before the least of their faults is told.
#![tactic(auto, unfolding(ex_named::specs::Statements::bound_statement, crate::specs::Parts::bound_case, crate::specs::Parts::bound_case_action))]

ghost use Rattle.std.specs.Prelude.{◌≡◌};
ghost use Rattle.ex_named.specs.Expressions.{expression as bound};
ghost use Rattle.ex_named.specs.Outcomes.{Binds, each};
ghost use Rattle.ex_named.specs.Statements as spec;
ghost use Rattle.ex_bind_statements.specs.Parts as parts;

use crate::control::repeat_control;
use ex_bind::expression;
use ex_named::{
    Binding, Gathered, NamedCase, NamedCaseAction, NamedExpression, NamedStatement, both,
};
use ex_scopes::{Declarations, Scope};
use ex_tree::{Case, CaseAction, Expression, Name, RepeatControl, Statement};
use plain_data::{Boxed, Items};
use std::alloc::Global;

/// Statements with their names bound, in order.
pub fn statements(
    alloc: Global,
    declarations: &Declarations<'_>,
    scope: &Scope<'_>,
    statements: &[Statement],
) -> Binding<Items<NamedStatement>>
    ensures { Binds result (spec.statements declarations.now scope.now statements.now) }
{
    sequence(alloc, declarations, scope, statements)
}

#[cycle(statements)]
fn sequence(
    alloc: Global,
    declarations: &Declarations<'_>,
    scope: &Scope<'_>,
    statements: &[Statement],
) -> Binding<Items<NamedStatement>>
    ensures { Binds result (parts.sequence declarations.now scope.now statements.now) }
{
    let mut found = Gathered::new(alloc, statements.len())?;
    for item in statements {
        found.push(statement(alloc, declarations, scope, item))?;
    }
    found.finish()
}

#[cycle(statements)]
fn statement(
    alloc: Global,
    declarations: &Declarations<'_>,
    scope: &Scope<'_>,
    statement: &Statement,
) -> Binding<NamedStatement>
    ensures { Binds result (spec.statement declarations.now scope.now statement.now) }
{
    match statement {
        Statement::Null => Ok(NamedStatement::Null),
        Statement::Assignment(name, value) => assignment(alloc, declarations, scope, name, value),
        Statement::Case(case) => {
            let case = case_statement(alloc, declarations, scope, case.get())?;
            Ok(NamedStatement::Case(case))
        },
        Statement::Compound(body) => {
            let body = sequence(alloc, declarations, scope, body.as_slice())?;
            Ok(NamedStatement::Compound(body))
        },
        Statement::Escape => Ok(NamedStatement::Escape),
        Statement::If(condition, then_part, else_part) => {
            let condition = expression(alloc, declarations, scope, condition);
            let then_part = sequence(alloc, declarations, scope, then_part.as_slice());
            let else_part = sequence(alloc, declarations, scope, else_part.as_slice());
            let ((condition, then_part), else_part) = both(both(condition, then_part), else_part)?;
            Ok(NamedStatement::If(condition, then_part, else_part))
        },
        Statement::Repeat(control, body) => {
            repeat(alloc, declarations, &*scope, control.get(), body)
        },
        Statement::Return(at, value) => {
            let value = expression(alloc, declarations, scope, value)?;
            Ok(NamedStatement::Return(*at, value))
        },
        Statement::Skip => Ok(NamedStatement::Skip),
    }
}

fn assignment(
    alloc: Global,
    declarations: &Declarations<'_>,
    scope: &Scope<'_>,
    variable: &Name,
    value: &Expression,
) -> Binding<NamedStatement>
    ensures { Binds result (parts.assignment declarations.now scope.now variable.now value.now) }
{
    let slot = scope.assigned(variable);
    let value = expression(alloc, declarations, scope, value);
    let (slot, value) = both(slot, value)?;
    Ok(NamedStatement::Assignment(slot, variable.at, value))
}

#[cycle(statements)]
fn case_statement(
    alloc: Global,
    declarations: &Declarations<'_>,
    scope: &Scope<'_>,
    case: &Case,
) -> Binding<Boxed<NamedCase>>
    ensures { Binds result (parts.bound_case declarations.now case.now scope.now) }
{
    let selector = expression(alloc, declarations, scope, &case.selector);
    let actions = case_actions(alloc, declarations, scope, case.actions.as_slice());
    let otherwise = otherwise(alloc, declarations, scope, &case.otherwise);
    let ((selector, actions), otherwise) = both(both(selector, actions), otherwise)?;
    let bound = NamedCase {
        at: case.at,
        selector,
        actions,
        otherwise,
    };
    Ok(Boxed::new(alloc, bound)?)
}

/// The actions of a CASE, in order.
#[cycle(statements)]
fn case_actions(
    alloc: Global,
    declarations: &Declarations<'_>,
    scope: &Scope<'_>,
    actions: &[CaseAction],
) -> Binding<Items<NamedCaseAction>>
    ensures { Binds result (parts.case_actions declarations.now scope.now actions.now) }
{
    let mut found = Gathered::new(alloc, actions.len())?;
    for action in actions {
        found.push(case_action(alloc, declarations, scope, action))?;
    }
    found.finish()
}

#[cycle(statements)]
fn case_action(
    alloc: Global,
    declarations: &Declarations<'_>,
    scope: &Scope<'_>,
    action: &CaseAction,
) -> Binding<NamedCaseAction>
    ensures { Binds result (parts.bound_case_action declarations.now action.now scope.now) }
{
    let labels = labels(alloc, declarations, scope, action.labels.as_slice());
    let statement = statement(alloc, declarations, scope, &action.statement);
    let (labels, statement) = both(labels, statement)?;
    Ok(NamedCaseAction { labels, statement })
}

/// The labels of an action, in order.
fn labels(
    alloc: Global,
    declarations: &Declarations<'_>,
    scope: &Scope<'_>,
    labels: &[Expression],
) -> Binding<Items<NamedExpression>>
    ensures { Binds result (each (bound declarations.now scope.now) labels.now) }
{
    let mut found = Gathered::new(alloc, labels.len())?;
    for label in labels {
        found.push(expression(alloc, declarations, scope, label))?;
    }
    found.finish()
}

/// What follows OTHERWISE, if it is there.
#[cycle(statements)]
fn otherwise(
    alloc: Global,
    declarations: &Declarations<'_>,
    scope: &Scope<'_>,
    part: &Option<Boxed<Statement>>,
) -> Binding<Option<Boxed<NamedStatement>>>
    ensures { Binds result (parts.otherwise declarations.now scope.now part.now) }
{
    match part {
        Some(part) => {
            let part = statement(alloc, declarations, scope, part.get())?;
            Ok(Some(Boxed::new(alloc, part)?))
        },
        None => Ok(None),
    }
}

#[cycle(statements)]
fn repeat<'a>(
    alloc: Global,
    declarations: &Declarations<'_>,
    scope: &Scope<'a>,
    control: &'a RepeatControl,
    body: &Items<Statement>,
) -> Binding<NamedStatement>
    ensures { Binds result (parts.repeat declarations.now scope.now control.now body.now) }
{
    match &control.increment {
        Some(increment) => {
            let turn = scope.within(alloc, &increment.variable)?;
            repeat_in(alloc, declarations, scope, &turn, control, body)
        },
        None => repeat_in(alloc, declarations, scope, scope, control, body),
    }
}

/// A REPEAT in this scope, whose turns stand in the second one.
#[cycle(statements)]
fn repeat_in<'a>(
    alloc: Global,
    declarations: &Declarations<'_>,
    scope: &Scope<'a>,
    turn: &Scope<'a>,
    control: &RepeatControl,
    body: &Items<Statement>,
) -> Binding<NamedStatement>
    requires { turn.now ≡ spec.in_turn scope.now control.now.increment }
    ensures { Binds result (parts.repeat declarations.now scope.now control.now body.now) }
{
    let control = repeat_control(alloc, declarations, scope, turn, control);
    let body = sequence(alloc, declarations, turn, body.as_slice());
    let (control, body) = both(control, body)?;
    Ok(NamedStatement::Repeat(Boxed::new(alloc, control)?, body))
}
