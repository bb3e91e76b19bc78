//! The names of attributes that statements take of values.

use ex_named::{
    NamedCase, NamedCaseAction, NamedExpression, NamedIncrement, NamedRepeatControl, NamedStatement,
};
use ex_typing::{TakenName, push_taken, push_taken_of_all};
use std::alloc::AllocError;

/// Puts the names that statements take behind the others.
#[cycle(taken)]
pub fn push_taken_of_statements<'a>(
    names: &mut Vec<TakenName<'a>>,
    list: &'a [NamedStatement],
) -> Result<(), AllocError> {
    for tree in list {
        push_taken_of_statement(names, tree)?;
    }
    Ok(())
}

#[cycle(taken)]
fn push_taken_of_statement<'a>(
    names: &mut Vec<TakenName<'a>>,
    tree: &'a NamedStatement,
) -> Result<(), AllocError> {
    match tree {
        NamedStatement::Null | NamedStatement::Escape | NamedStatement::Skip => Ok(()),
        NamedStatement::Assignment(_, _, value) => push_taken(names, value),
        NamedStatement::Case(case) => push_taken_of_case(names, case.get()),
        NamedStatement::Compound(body) => push_taken_of_statements(names, body.as_slice()),
        NamedStatement::If(condition, then_part, else_part) => {
            push_taken(names, condition)?;
            push_taken_of_statements(names, then_part.as_slice())?;
            push_taken_of_statements(names, else_part.as_slice())
        },
        NamedStatement::Repeat(control, body) => {
            push_taken_of_control(names, control.get())?;
            push_taken_of_statements(names, body.as_slice())
        },
        NamedStatement::Return(_, value) => push_taken(names, value),
    }
}

#[cycle(taken)]
fn push_taken_of_case<'a>(
    names: &mut Vec<TakenName<'a>>,
    case: &'a NamedCase,
) -> Result<(), AllocError> {
    push_taken(names, &case.selector)?;
    push_taken_of_actions(names, case.actions.as_slice())?;
    match &case.otherwise {
        Some(statement) => push_taken_of_statement(names, statement.get()),
        None => Ok(()),
    }
}

#[cycle(taken)]
fn push_taken_of_actions<'a>(
    names: &mut Vec<TakenName<'a>>,
    actions: &'a [NamedCaseAction],
) -> Result<(), AllocError> {
    for action in actions {
        push_taken_of_all(names, action.labels.as_slice())?;
        push_taken_of_statement(names, &action.statement)?;
    }
    Ok(())
}

fn push_taken_of_optional<'a>(
    names: &mut Vec<TakenName<'a>>,
    value: &'a Option<NamedExpression>,
) -> Result<(), AllocError> {
    match value {
        Some(value) => push_taken(names, value),
        None => Ok(()),
    }
}

fn push_taken_of_increment<'a>(
    names: &mut Vec<TakenName<'a>>,
    increment: &'a NamedIncrement,
) -> Result<(), AllocError> {
    push_taken(names, &increment.first)?;
    push_taken(names, &increment.last)?;
    push_taken_of_optional(names, &increment.step)
}

fn push_taken_of_control<'a>(
    names: &mut Vec<TakenName<'a>>,
    control: &'a NamedRepeatControl,
) -> Result<(), AllocError> {
    if let Some(increment) = &control.increment {
        push_taken_of_increment(names, increment)?;
    }
    push_taken_of_optional(names, &control.while_condition)?;
    push_taken_of_optional(names, &control.until_condition)
}
