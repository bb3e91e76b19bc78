//! Statements.

ghost use Rattle.std.specs.Prelude.{◌≡◌, map, Some, IfOk, slice_index_or};
ghost use Rattle.ex_named.specs.declared.expression.NamedDataType.TheVariants as types_of;
ghost use Rattle.ex_typing_statements.specs.Statements.{in_turn};
ghost use Rattle.rp_meaning.specs.CompiledExpressions as expressions_spec;
ghost use Rattle.rp_meaning.specs.CompiledStatements as spec;
ghost use Rattle.rp_compile_trees.specs.Parts as parts;
ghost use Rattle.rp_code.specs.declared.tree.Statement.TheVariants as statement_of;

use crate::control::control;
use crate::declared::Declared;
use crate::made::{both, push_made};
use crate::trees::{expression, expressions};
use ex_kinds::{Sort, ValueKind};
use ex_named::{
    NamedCase, NamedCaseAction, NamedDataType, NamedExpression, NamedRepeatControl, NamedStatement,
};
use ex_typing::TypingScope;
use plain_data::{Boxed, Items};
use rp_code::{CaseAction, Expression, Statement, copied_type};
use std::alloc::{AllocError, Global};

/// What the variable of a REPEAT may be.
static VARIABLE: [ValueKind; 1] = [ValueKind {
    depth: 0,
    sort: Sort::Integer,
}];

/// The declared type of the variable of a slot.
fn type_at(
    alloc: Global,
    types: &[&NamedDataType],
    slot: usize,
) -> Result<NamedDataType, AllocError>
    ensures { IfOk result (λ found. found ≡ slice_index_or (map (λ t. t.now) types.now) slot types_of.Generic) }
{
    match types.get(slot) {
        Some(found) => copied_type(alloc, found),
        None => Ok(NamedDataType::Generic),
    }
}

fn assignment(
    alloc: Global,
    schema: &Declared<'_>,
    types: &[&NamedDataType],
    scope: &TypingScope<'_>,
    slot: usize,
    value: &NamedExpression,
) -> Result<Statement, AllocError>
    ensures { IfOk result (λ found. found ≡ statement_of.Assignment slot (slice_index_or (map (λ t. t.now) types.now) slot types_of.Generic) (expressions_spec.expression schema.now scope.now value.now)) }
{
    let (data_type, value) = both(
        type_at(alloc, types, slot),
        expression(alloc, schema, scope, value),
    )?;
    Ok(Statement::Assignment(slot, data_type, value))
}

/// The labels of an action.
fn labels(
    alloc: Global,
    schema: &Declared<'_>,
    scope: &TypingScope<'_>,
    list: &[NamedExpression],
) -> Result<Items<Expression>, AllocError>
    ensures { IfOk result (λ found. found ≡ map (expressions_spec.expression schema.now scope.now) list.now) }
{
    expressions(alloc, schema, scope, list)
}

/// Statements as they are executed, where variables are declared with these types.
pub fn statements(
    alloc: Global,
    schema: &Declared<'_>,
    scope: &TypingScope<'_>,
    list: &[NamedStatement],
    types: &[&NamedDataType],
) -> Result<Items<Statement>, AllocError>
    ensures { IfOk result (λ found. found ≡ spec.statements (expressions_spec.expression schema.now) (map (λ t. t.now) types.now) scope.now list.now) }
{
    block(alloc, schema, scope, list, types)
}

#[cycle(statements)]
fn block(
    alloc: Global,
    schema: &Declared<'_>,
    scope: &TypingScope<'_>,
    list: &[NamedStatement],
    types: &[&NamedDataType],
) -> Result<Items<Statement>, AllocError>
    ensures { IfOk result (λ found. found ≡ parts.statements schema.now (map (λ t. t.now) types.now) scope.now list.now) }
{
    let mut found = Items::new(alloc);
    for tree in list {
        push_made(&mut found, statement(alloc, schema, scope, tree, types))?;
    }
    Ok(found)
}

#[tactic(auto, unfolding(rp_meaning::specs::CompiledStatements::compiled_statement, rp_meaning::specs::CompiledTrees::compiled_case, rp_meaning::specs::CompiledTrees::compiled_case_action))]
#[cycle(statements)]
fn statement(
    alloc: Global,
    schema: &Declared<'_>,
    scope: &TypingScope<'_>,
    tree: &NamedStatement,
    types: &[&NamedDataType],
) -> Result<Statement, AllocError>
    ensures { IfOk result (λ found. found ≡ parts.statement schema.now (map (λ t. t.now) types.now) scope.now tree.now) }
{
    match tree {
        NamedStatement::Null => Ok(Statement::Null),
        NamedStatement::Assignment(slot, _, value) => {
            assignment(alloc, schema, types, scope, *slot, value)
        }
        NamedStatement::Case(case) => case_statement(alloc, schema, scope, case.get(), types),
        NamedStatement::Compound(body) => {
            let body = block(alloc, schema, scope, body.as_slice(), types)?;
            Ok(Statement::Compound(body))
        }
        NamedStatement::Escape => Ok(Statement::Escape),
        NamedStatement::If(condition, then_part, else_part) => {
            let branches = both(
                block(alloc, schema, scope, then_part.as_slice(), types),
                block(alloc, schema, scope, else_part.as_slice(), types),
            );
            let condition = expression(alloc, schema, scope, condition);
            let (condition, (then_part, else_part)) = both(condition, branches)?;
            Ok(Statement::If(condition, then_part, else_part))
        }
        NamedStatement::Repeat(control, body) => {
            repeat(alloc, schema, scope, control.get(), body, types)
        }
        NamedStatement::Return(_, value) => {
            let value = expression(alloc, schema, scope, value)?;
            Ok(Statement::Return(value))
        }
        NamedStatement::Skip => Ok(Statement::Skip),
    }
}

#[tactic(auto, unfolding(rp_meaning::specs::CompiledStatements::compiled_statement, rp_meaning::specs::CompiledTrees::compiled_case, rp_meaning::specs::CompiledTrees::compiled_case_action))]
#[cycle(statements)]
fn case_statement(
    alloc: Global,
    schema: &Declared<'_>,
    scope: &TypingScope<'_>,
    tree: &NamedCase,
    types: &[&NamedDataType],
) -> Result<Statement, AllocError>
    ensures { IfOk result (λ found. found ≡ parts.case_statement schema.now (map (λ t. t.now) types.now) scope.now tree.now) }
{
    let (mut actions, others) = both(
        case_actions(alloc, schema, scope, tree.actions.as_slice(), types),
        otherwise(alloc, schema, scope, &tree.otherwise, types),
    )?;
    actions.append(others)?;
    let selector = expression(alloc, schema, scope, &tree.selector)?;
    Ok(Statement::Case(selector, actions))
}

/// The actions of a CASE, in order.
#[cycle(statements)]
fn case_actions(
    alloc: Global,
    schema: &Declared<'_>,
    scope: &TypingScope<'_>,
    list: &[NamedCaseAction],
    types: &[&NamedDataType],
) -> Result<Items<CaseAction>, AllocError>
    ensures { IfOk result (λ found. found ≡ parts.case_actions schema.now (map (λ t. t.now) types.now) scope.now list.now) }
{
    let mut found = Items::new(alloc);
    for tree in list {
        push_made(&mut found, case_action(alloc, schema, scope, tree, types))?;
    }
    Ok(found)
}

#[tactic(auto, unfolding(rp_meaning::specs::CompiledStatements::compiled_statement, rp_meaning::specs::CompiledTrees::compiled_case_action))]
#[cycle(statements)]
fn case_action(
    alloc: Global,
    schema: &Declared<'_>,
    scope: &TypingScope<'_>,
    tree: &NamedCaseAction,
    types: &[&NamedDataType],
) -> Result<CaseAction, AllocError>
    ensures { IfOk result (λ found. found ≡ parts.case_action schema.now (map (λ t. t.now) types.now) scope.now tree.now) }
{
    let (labels, statement) = both(
        labels(alloc, schema, scope, tree.labels.as_slice()),
        statement(alloc, schema, scope, &tree.statement, types),
    )?;
    Ok(CaseAction {
        labels: Some(labels),
        statement,
    })
}

/// What follows OTHERWISE, if it is there.
#[cycle(statements)]
fn otherwise(
    alloc: Global,
    schema: &Declared<'_>,
    scope: &TypingScope<'_>,
    tree: &Option<Boxed<NamedStatement>>,
    types: &[&NamedDataType],
) -> Result<Items<CaseAction>, AllocError>
    ensures { IfOk result (λ found. found ≡ parts.otherwise schema.now (map (λ t. t.now) types.now) scope.now tree.now) }
{
    let mut found = Items::new(alloc);
    if let Some(tree) = tree {
        let statement = statement(alloc, schema, scope, tree.get(), types)?;
        found.push(CaseAction {
            labels: None,
            statement,
        })?;
    }
    Ok(found)
}

#[cycle(statements)]
fn repeat(
    alloc: Global,
    schema: &Declared<'_>,
    scope: &TypingScope<'_>,
    tree: &NamedRepeatControl,
    body: &Items<NamedStatement>,
    types: &[&NamedDataType],
) -> Result<Statement, AllocError>
    ensures { IfOk result (λ found. found ≡ parts.repeat schema.now (map (λ t. t.now) types.now) scope.now tree.now body.now) }
{
    match &tree.increment {
        Some(_) => {
            let turn = scope.within(alloc, &VARIABLE)?;
            repeat_in(alloc, schema, scope, &turn, tree, body, types)
        }
        None => repeat_in(alloc, schema, scope, scope, tree, body, types),
    }
}

/// A REPEAT in this scope, whose turns stand in the second one.
#[cycle(statements)]
fn repeat_in<'a>(
    alloc: Global,
    schema: &Declared<'_>,
    scope: &TypingScope<'a>,
    turn: &TypingScope<'a>,
    tree: &NamedRepeatControl,
    body: &Items<NamedStatement>,
    types: &[&NamedDataType],
) -> Result<Statement, AllocError>
    requires { turn.now ≡ in_turn scope.now tree.now.increment }
    ensures { IfOk result (λ found. found ≡ parts.repeat schema.now (map (λ t. t.now) types.now) scope.now tree.now body.now) }
{
    let (control, body) = both(
        control(alloc, schema, scope, turn, tree),
        block(alloc, schema, turn, body.as_slice(), types),
    )?;
    Ok(Statement::Repeat(control, body))
}
