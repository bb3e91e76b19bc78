//! Statements, written before what is there.
#![tactic(auto, using(crate::proofs::Places::keeps_then, crate::proofs::Places::keeps_all))]

ghost use Rattle.std.specs.Prelude.{◌≡◌, [], ◌∷◌, Some, None, IfSome, OnOk};
ghost use Rattle.std.specs.Option.{option_to_list};
ghost use Rattle.rp_code.specs.declared.tree.CaseAction.{roll-CaseAction};
ghost use Rattle.rp_code.specs.declared.tree.Expression.TheVariants as e;
ghost use Rattle.rp_code.specs.declared.tree.Statement.TheVariants as st;
ghost use Rattle.rp_code.specs.Denoted.{actions_of, expressions_of, increment, statement_of, statements_of};
ghost use Rattle.rp_code.specs.Written.{Keeps};

use crate::copies::boxed_type;
use crate::expressions::{push_expression, push_expressions, push_item};
use crate::instruction::Instruction;
use crate::tree::{CaseAction, Control, Expression, Increment, Operation, Statement};
use crate::written::Written;
use ex_named::NamedDataType;
use std::alloc::{AllocError, Global};

/// Writes a list of an expression, or of none.
fn push_optional(
    alloc: Global,
    tree: &Option<Expression>,
    found: &mut Written,
) -> Result<(), AllocError>
    ensures tree { OnOk result (expressions_of found.new ≡ option_to_list tree.now) }
    ensures keeps { OnOk result (Keeps found.old found.new) }
{
    found.push(Instruction::End)?;
    match tree {
        None => Ok(()),
        Some(tree) => push_item(alloc, tree, found),
    }
}

fn push_bounds(alloc: Global, tree: &Increment, found: &mut Written) -> Result<(), AllocError>
    ensures tree { OnOk result (expressions_of found.new ≡ tree.now.first ∷ tree.now.last ∷ option_to_list tree.now.step) }
    ensures keeps { OnOk result (Keeps found.old found.new) }
{
    push_optional(alloc, &tree.step, found)?;
    push_item(alloc, &tree.last, found)?;
    push_item(alloc, &tree.first, found)?;
    Ok(())
}

/// Writes the list of an increment's expressions.
#[tactic(auto, using(crate::proofs::Parts::increment_of))]
fn push_increment(
    alloc: Global,
    tree: &Option<Increment>,
    found: &mut Written,
) -> Result<(), AllocError>
    ensures tree { OnOk result (increment (expressions_of found.new) ≡ tree.now) }
    ensures keeps { OnOk result (Keeps found.old found.new) }
{
    match tree {
        None => found.push(Instruction::End),
        Some(tree) => push_bounds(alloc, tree, found),
    }
}

/// Writes a REPEAT whose statements are there.
#[tactic(auto, using(crate::proofs::Places::keeps_then, crate::proofs::Places::keeps_all, crate::proofs::Parts::condition_of))]
fn push_control(alloc: Global, control: &Control, found: &mut Written) -> Result<(), AllocError>
    ensures tree { OnOk result (statement_of found.new ≡ st.Repeat control.now (statements_of found.old)) }
    ensures keeps { OnOk result (Keeps found.old found.new) }
{
    let body_begun = found.len();
    push_optional(alloc, &control.until_condition, found)?;
    let until_begun = found.len();
    push_optional(alloc, &control.while_condition, found)?;
    let while_begun = found.len();
    push_increment(alloc, &control.increment, found)?;
    let while_condition = found.since(while_begun);
    let until_condition = found.since(until_begun);
    let body = found.since(body_begun);
    found.push(Instruction::Repeat {
        while_condition,
        until_condition,
        body,
    })?;
    Ok(())
}

/// Writes a statement.
#[cycle(statements)]
fn push_statement(alloc: Global, tree: &Statement, found: &mut Written) -> Result<(), AllocError>
    ensures tree { OnOk result (statement_of found.new ≡ tree.now) }
    ensures keeps { OnOk result (Keeps found.old found.new) }
{
    match tree {
        Statement::Null => found.push(Instruction::Null),
        Statement::Assignment(slot, data_type, value) => {
            push_assignment(alloc, value, *slot, data_type, found)
        }
        Statement::Case(selector, actions) => push_case(alloc, selector, actions.as_slice(), found),
        Statement::Compound(statements) => push_compound(alloc, statements.as_slice(), found),
        Statement::Escape => found.push(Instruction::Escape),
        Statement::If(condition, then_part, else_part) => push_if(
            alloc,
            condition,
            then_part.as_slice(),
            else_part.as_slice(),
            found,
        ),
        Statement::Repeat(control, body) => {
            push_repeat(alloc, control.get(), body.as_slice(), found)
        }
        Statement::Return(value) => push_return(alloc, value, found),
        Statement::Skip => found.push(Instruction::Skip),
    }
}

/// The operation, where an expression has the variable of a slot as its first operand, and one operation.
fn growth(value: &Expression, slot: usize) -> Option<&Operation>
    ensures { IfSome result (λ operation. value.now ≡ e.Chain (e.Variable slot) (operation.now ∷ [])) }
{
    let Expression::Chain(first, operations) = value else {
        return None;
    };
    match (first.get(), operations.as_slice()) {
        (Expression::Variable(variable), [operation]) if *variable == slot => Some(operation),
        _ => None,
    }
}

fn push_growth(
    alloc: Global,
    operation: &Operation,
    slot: usize,
    data_type: &NamedDataType,
    found: &mut Written,
) -> Result<(), AllocError>
    ensures tree { OnOk result (statement_of found.new ≡ st.Assignment slot data_type.now (e.Chain (e.Variable slot) (operation.now ∷ []))) }
    ensures keeps { OnOk result (Keeps found.old found.new) }
{
    push_expression(alloc, &operation.right, found)?;
    let data_type = boxed_type(alloc, data_type)?;
    found.push(Instruction::Growth(slot, operation.operator, data_type))?;
    Ok(())
}

fn push_assignment(
    alloc: Global,
    value: &Expression,
    slot: usize,
    data_type: &NamedDataType,
    found: &mut Written,
) -> Result<(), AllocError>
    ensures tree { OnOk result (statement_of found.new ≡ st.Assignment slot data_type.now value.now) }
    ensures keeps { OnOk result (Keeps found.old found.new) }
{
    if let Some(operation) = growth(value, slot) {
        return push_growth(alloc, operation, slot, data_type, found);
    }
    push_expression(alloc, value, found)?;
    found.push(Instruction::Assignment(slot, boxed_type(alloc, data_type)?))?;
    Ok(())
}

fn push_return(alloc: Global, value: &Expression, found: &mut Written) -> Result<(), AllocError>
    ensures tree { OnOk result (statement_of found.new ≡ st.Return value.now) }
    ensures keeps { OnOk result (Keeps found.old found.new) }
{
    push_expression(alloc, value, found)?;
    found.push(Instruction::Return)?;
    Ok(())
}

#[cycle(statements)]
fn push_compound(
    alloc: Global,
    statements: &[Statement],
    found: &mut Written,
) -> Result<(), AllocError>
    ensures tree { OnOk result (statement_of found.new ≡ st.Compound statements.now) }
    ensures keeps { OnOk result (Keeps found.old found.new) }
{
    push_statements(alloc, statements, found)?;
    found.push(Instruction::Compound)?;
    Ok(())
}

#[cycle(statements)]
fn push_if(
    alloc: Global,
    condition: &Expression,
    then_part: &[Statement],
    else_part: &[Statement],
    found: &mut Written,
) -> Result<(), AllocError>
    ensures tree { OnOk result (statement_of found.new ≡ st.If condition.now then_part.now else_part.now) }
    ensures keeps { OnOk result (Keeps found.old found.new) }
{
    push_statements(alloc, else_part, found)?;
    let else_begun = found.len();
    push_statements(alloc, then_part, found)?;
    let then_begun = found.len();
    push_expression(alloc, condition, found)?;
    let then_part = found.since(then_begun);
    let else_part = found.since(else_begun);
    found.push(Instruction::If {
        then_part,
        else_part,
    })?;
    Ok(())
}

#[cycle(statements)]
fn push_repeat(
    alloc: Global,
    control: &Control,
    body: &[Statement],
    found: &mut Written,
) -> Result<(), AllocError>
    ensures tree { OnOk result (statement_of found.new ≡ st.Repeat control.now body.now) }
    ensures keeps { OnOk result (Keeps found.old found.new) }
{
    push_statements(alloc, body, found)?;
    push_control(alloc, control, found)?;
    Ok(())
}

#[cycle(statements)]
fn push_case(
    alloc: Global,
    selector: &Expression,
    actions: &[CaseAction],
    found: &mut Written,
) -> Result<(), AllocError>
    ensures tree { OnOk result (statement_of found.new ≡ st.Case selector.now actions.now) }
    ensures keeps { OnOk result (Keeps found.old found.new) }
{
    push_actions(alloc, actions, found)?;
    let begun = found.len();
    push_expression(alloc, selector, found)?;
    let actions = found.since(begun);
    found.push(Instruction::Case(actions))?;
    Ok(())
}

#[cycle(statements)]
fn push_labelled(
    alloc: Global,
    labels: &[Expression],
    statement: &Statement,
    found: &mut Written,
) -> Result<(), AllocError>
    ensures tree { OnOk result (actions_of found.new ≡ roll-CaseAction (record { labels = Some labels.now; statement = statement.now }) ∷ actions_of found.old) }
    ensures keeps { OnOk result (Keeps found.old found.new) }
{
    let next_begun = found.len();
    push_statement(alloc, statement, found)?;
    let statement_begun = found.len();
    push_expressions(alloc, labels, found)?;
    let statement = found.since(statement_begun);
    let next = found.since(next_begun);
    found.push(Instruction::Labels { statement, next })?;
    Ok(())
}

#[cycle(statements)]
fn push_otherwise(
    alloc: Global,
    statement: &Statement,
    found: &mut Written,
) -> Result<(), AllocError>
    ensures tree { OnOk result (actions_of found.new ≡ roll-CaseAction (record { labels = None; statement = statement.now }) ∷ actions_of found.old) }
    ensures keeps { OnOk result (Keeps found.old found.new) }
{
    let begun = found.len();
    push_statement(alloc, statement, found)?;
    let next = found.since(begun);
    found.push(Instruction::Otherwise(next))?;
    Ok(())
}

#[cycle(statements)]
fn push_action(alloc: Global, action: &CaseAction, found: &mut Written) -> Result<(), AllocError>
    ensures tree { OnOk result (actions_of found.new ≡ action.now ∷ actions_of found.old) }
    ensures keeps { OnOk result (Keeps found.old found.new) }
{
    match &action.labels {
        None => push_otherwise(alloc, &action.statement, found),
        Some(labels) => push_labelled(alloc, labels.as_slice(), &action.statement, found),
    }
}

#[cycle(statements)]
fn push_actions(
    alloc: Global,
    actions: &[CaseAction],
    found: &mut Written,
) -> Result<(), AllocError>
    ensures tree { OnOk result (actions_of found.new ≡ actions.now) }
    ensures keeps { OnOk result (Keeps found.old found.new) }
{
    found.push(Instruction::End)?;
    let mut count = actions.len();
    while 0 < count {
        count -= 1;
        push_action(alloc, &actions[count], found)?;
    }
    Ok(())
}

/// Writes a statement and a node before it, by which it is the first of a list whose others are there.
#[cycle(statements)]
fn push_next(alloc: Global, tree: &Statement, found: &mut Written) -> Result<(), AllocError>
    ensures tree { OnOk result (statements_of found.new ≡ tree.now ∷ statements_of found.old) }
    ensures keeps { OnOk result (Keeps found.old found.new) }
{
    let begun = found.len();
    push_statement(alloc, tree, found)?;
    let next = found.since(begun);
    found.push(Instruction::Item(next))?;
    Ok(())
}

/// Writes a list of statements.
#[cycle(statements)]
pub(crate) fn push_statements(
    alloc: Global,
    trees: &[Statement],
    found: &mut Written,
) -> Result<(), AllocError>
    ensures tree { OnOk result (statements_of found.new ≡ trees.now) }
    ensures keeps { OnOk result (Keeps found.old found.new) }
{
    found.push(Instruction::End)?;
    let mut count = trees.len();
    while 0 < count {
        count -= 1;
        push_next(alloc, &trees[count], found)?;
    }
    Ok(())
}
