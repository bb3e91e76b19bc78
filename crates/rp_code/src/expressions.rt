//! Expressions, written before what is there.
#![tactic(auto, using(crate::proofs::Places::keeps_then, crate::proofs::Places::keeps_all))]

ghost use Rattle.std.specs.Prelude.{◌≡◌, ◌∷◌, OnOk};
ghost use Rattle.rp_code.specs.declared.tree.Expression.TheVariants as e;
ghost use Rattle.rp_code.specs.declared.tree.Operation.{roll-Operation};
ghost use Rattle.rp_code.specs.declared.tree.Qualifier.TheVariants as q;
ghost use Rattle.rp_code.specs.Denoted.{expression_of, expressions_of, operations_of, qualifiers_of};
ghost use Rattle.rp_code.specs.Written.{Keeps};

use crate::copies::boxed_role;
use crate::instruction::Instruction;
use crate::role::Role;
use crate::tree::{Expression, Interval, Operation, Qualifier, Query};
use crate::written::Written;
use ex_tree::{BinaryOperator, BuiltInFunction, UnaryOperator};
use plain_data::Items;
use std::alloc::{AllocError, Global};

/// Writes an expression.
#[cycle(expressions)]
pub(crate) fn push_expression(
    alloc: Global,
    tree: &Expression,
    found: &mut Written,
) -> Result<(), AllocError>
    ensures tree { OnOk result (expression_of found.new ≡ tree.now) }
    ensures keeps { OnOk result (Keeps found.old found.new) }
{
    match tree {
        Expression::Literal(value) => found.push(Instruction::Literal(value.copy()?)),
        Expression::Itself => found.push(Instruction::Itself),
        Expression::Variable(slot) => found.push(Instruction::Variable(*slot)),
        Expression::Attribute(attribute) => found.push(Instruction::Attribute(*attribute)),
        Expression::Constant(number) => found.push(Instruction::Constant(*number)),
        Expression::Population(entity) => found.push(Instruction::Population(*entity)),
        Expression::Call(number, arguments) => {
            push_call(alloc, arguments.as_slice(), *number, found)
        }
        Expression::BuiltIn(function, arguments) => {
            push_built_in(alloc, arguments.as_slice(), *function, found)
        }
        Expression::UsedIn(instance, role) => push_used_in(alloc, instance.get(), role, found),
        Expression::Qualified(base, qualifiers) => {
            push_qualified(alloc, base.get(), qualifiers.as_slice(), found)
        }
        Expression::Unary(operator, right) => push_unary(alloc, right.get(), *operator, found),
        Expression::Chain(first, operations) => {
            push_chain(alloc, first.get(), operations.as_slice(), found)
        }
        Expression::Interval(interval) => push_interval(alloc, interval.get(), found),
        Expression::Query(query) => push_query(alloc, query.get(), found),
        Expression::Initializer(elements) => push_initializer(alloc, elements.as_slice(), found),
    }
}

#[cycle(expressions)]
fn push_call(
    alloc: Global,
    arguments: &[Expression],
    number: usize,
    found: &mut Written,
) -> Result<(), AllocError>
    ensures tree { OnOk result (expression_of found.new ≡ e.Call number arguments.now) }
    ensures keeps { OnOk result (Keeps found.old found.new) }
{
    push_expressions(alloc, arguments, found)?;
    found.push(Instruction::Call(number))?;
    Ok(())
}

#[cycle(expressions)]
fn push_built_in(
    alloc: Global,
    arguments: &[Expression],
    function: BuiltInFunction,
    found: &mut Written,
) -> Result<(), AllocError>
    ensures tree { OnOk result (expression_of found.new ≡ e.BuiltIn function arguments.now) }
    ensures keeps { OnOk result (Keeps found.old found.new) }
{
    push_expressions(alloc, arguments, found)?;
    found.push(Instruction::BuiltIn(function))?;
    Ok(())
}

#[cycle(expressions)]
fn push_initializer(
    alloc: Global,
    elements: &[Expression],
    found: &mut Written,
) -> Result<(), AllocError>
    ensures tree { OnOk result (expression_of found.new ≡ e.Initializer elements.now) }
    ensures keeps { OnOk result (Keeps found.old found.new) }
{
    push_expressions(alloc, elements, found)?;
    found.push(Instruction::Initializer)?;
    Ok(())
}

#[cycle(expressions)]
fn push_used_in(
    alloc: Global,
    instance: &Expression,
    role: &Option<Role>,
    found: &mut Written,
) -> Result<(), AllocError>
    ensures tree { OnOk result (expression_of found.new ≡ e.UsedIn instance.now role.now) }
    ensures keeps { OnOk result (Keeps found.old found.new) }
{
    push_expression(alloc, instance, found)?;
    found.push(Instruction::UsedIn(boxed_role(alloc, role)?))?;
    Ok(())
}

#[cycle(expressions)]
fn push_unary(
    alloc: Global,
    right: &Expression,
    operator: UnaryOperator,
    found: &mut Written,
) -> Result<(), AllocError>
    ensures tree { OnOk result (expression_of found.new ≡ e.Unary operator right.now) }
    ensures keeps { OnOk result (Keeps found.old found.new) }
{
    push_expression(alloc, right, found)?;
    found.push(Instruction::Unary(operator))?;
    Ok(())
}

#[cycle(expressions)]
fn push_qualified(
    alloc: Global,
    base: &Expression,
    qualifiers: &[Qualifier],
    found: &mut Written,
) -> Result<(), AllocError>
    ensures tree { OnOk result (expression_of found.new ≡ e.Qualified base.now qualifiers.now) }
    ensures keeps { OnOk result (Keeps found.old found.new) }
{
    push_qualifiers(alloc, qualifiers, found)?;
    match base {
        Expression::Variable(slot) => found.push(Instruction::QualifiedVariable(*slot)),
        Expression::Itself => found.push(Instruction::QualifiedItself),
        Expression::Attribute(attribute) => {
            found.push(Instruction::QualifiedAttribute(*attribute))
        }
        _ => push_base(alloc, base, found),
    }
}

/// Writes a value whose qualifiers are there.
#[cycle(expressions)]
fn push_base(alloc: Global, base: &Expression, found: &mut Written) -> Result<(), AllocError>
    ensures tree { OnOk result (expression_of found.new ≡ e.Qualified base.now (qualifiers_of found.old)) }
    ensures keeps { OnOk result (Keeps found.old found.new) }
{
    let begun = found.len();
    push_expression(alloc, base, found)?;
    let distance = found.since(begun);
    found.push(Instruction::Qualified(distance))?;
    Ok(())
}

#[cycle(expressions)]
fn push_chain(
    alloc: Global,
    first: &Expression,
    operations: &[Operation],
    found: &mut Written,
) -> Result<(), AllocError>
    ensures tree { OnOk result (expression_of found.new ≡ e.Chain first.now operations.now) }
    ensures keeps { OnOk result (Keeps found.old found.new) }
{
    push_operations(alloc, operations, found)?;
    let begun = found.len();
    push_expression(alloc, first, found)?;
    let distance = found.since(begun);
    found.push(Instruction::Chain(distance))?;
    Ok(())
}

#[cycle(expressions)]
fn push_interval(alloc: Global, interval: &Interval, found: &mut Written) -> Result<(), AllocError>
    ensures tree { OnOk result (expression_of found.new ≡ e.Interval interval.now) }
    ensures keeps { OnOk result (Keeps found.old found.new) }
{
    push_expression(alloc, &interval.high, found)?;
    let high_begun = found.len();
    push_expression(alloc, &interval.item, found)?;
    let item_begun = found.len();
    push_expression(alloc, &interval.low, found)?;
    let item = found.since(item_begun);
    let high = found.since(high_begun);
    found.push(Instruction::Interval {
        low_operator: interval.low_operator,
        item,
        high_operator: interval.high_operator,
        high,
    })?;
    Ok(())
}

#[cycle(expressions)]
fn push_query(alloc: Global, query: &Query, found: &mut Written) -> Result<(), AllocError>
    ensures tree { OnOk result (expression_of found.new ≡ e.Query query.now) }
    ensures keeps { OnOk result (Keeps found.old found.new) }
{
    push_expression(alloc, &query.condition, found)?;
    let begun = found.len();
    push_expression(alloc, &query.source, found)?;
    let condition = found.since(begun);
    found.push(Instruction::Query(condition))?;
    Ok(())
}

/// Writes an expression and a node before it, by which it is the first of a list whose others are there.
#[cycle(expressions)]
pub(crate) fn push_item(
    alloc: Global,
    tree: &Expression,
    found: &mut Written,
) -> Result<(), AllocError>
    ensures tree { OnOk result (expressions_of found.new ≡ tree.now ∷ expressions_of found.old) }
    ensures keeps { OnOk result (Keeps found.old found.new) }
{
    let begun = found.len();
    push_expression(alloc, tree, found)?;
    let next = found.since(begun);
    found.push(Instruction::Item(next))?;
    Ok(())
}

/// Writes a list of expressions.
#[cycle(expressions)]
pub(crate) fn push_expressions(
    alloc: Global,
    trees: &[Expression],
    found: &mut Written,
) -> Result<(), AllocError>
    ensures tree { OnOk result (expressions_of found.new ≡ trees.now) }
    ensures keeps { OnOk result (Keeps found.old found.new) }
{
    found.push(Instruction::End)?;
    let mut count = trees.len();
    while 0 < count {
        count -= 1;
        push_item(alloc, &trees[count], found)?;
    }
    Ok(())
}

#[cycle(expressions)]
fn push_operation(
    alloc: Global,
    operation: &Operation,
    found: &mut Written,
) -> Result<(), AllocError>
    ensures tree { OnOk result (operations_of found.new ≡ operation.now ∷ operations_of found.old) }
    ensures keeps { OnOk result (Keeps found.old found.new) }
{
    let operator = operation.operator;
    match &operation.right {
        Expression::Literal(value) => {
            found.push(Instruction::OperationBy(operator, value.copy()?))
        }
        Expression::Variable(slot) => {
            found.push(Instruction::OperationByVariable(operator, *slot))
        }
        right => push_right(alloc, right, operator, found),
    }
}

/// Writes an operation whose right operand has parts.
#[cycle(expressions)]
fn push_right(
    alloc: Global,
    right: &Expression,
    operator: BinaryOperator,
    found: &mut Written,
) -> Result<(), AllocError>
    ensures tree { OnOk result (operations_of found.new ≡ roll-Operation (record { operator = operator; right = right.now }) ∷ operations_of found.old) }
    ensures keeps { OnOk result (Keeps found.old found.new) }
{
    let begun = found.len();
    push_expression(alloc, right, found)?;
    let next = found.since(begun);
    found.push(Instruction::Operation(operator, next))?;
    Ok(())
}

#[cycle(expressions)]
fn push_operations(
    alloc: Global,
    operations: &[Operation],
    found: &mut Written,
) -> Result<(), AllocError>
    ensures tree { OnOk result (operations_of found.new ≡ operations.now) }
    ensures keeps { OnOk result (Keeps found.old found.new) }
{
    found.push(Instruction::End)?;
    let mut count = operations.len();
    while 0 < count {
        count -= 1;
        push_operation(alloc, &operations[count], found)?;
    }
    Ok(())
}

#[cycle(expressions)]
fn push_index(alloc: Global, index: &Expression, found: &mut Written) -> Result<(), AllocError>
    ensures tree { OnOk result (qualifiers_of found.new ≡ q.Index index.now ∷ qualifiers_of found.old) }
    ensures keeps { OnOk result (Keeps found.old found.new) }
{
    let begun = found.len();
    push_expression(alloc, index, found)?;
    let next = found.since(begun);
    found.push(Instruction::Index(next))?;
    Ok(())
}

#[cycle(expressions)]
fn push_range(
    alloc: Global,
    first: &Expression,
    last: &Expression,
    found: &mut Written,
) -> Result<(), AllocError>
    ensures tree { OnOk result (qualifiers_of found.new ≡ q.Range first.now last.now ∷ qualifiers_of found.old) }
    ensures keeps { OnOk result (Keeps found.old found.new) }
{
    let next_begun = found.len();
    push_expression(alloc, last, found)?;
    let last_begun = found.len();
    push_expression(alloc, first, found)?;
    let last = found.since(last_begun);
    let next = found.since(next_begun);
    found.push(Instruction::Range { last, next })?;
    Ok(())
}

#[cycle(expressions)]
fn push_qualifier(
    alloc: Global,
    qualifier: &Qualifier,
    found: &mut Written,
) -> Result<(), AllocError>
    ensures tree { OnOk result (qualifiers_of found.new ≡ qualifier.now ∷ qualifiers_of found.old) }
    ensures keeps { OnOk result (Keeps found.old found.new) }
{
    match qualifier {
        Qualifier::Attribute(attributes) => {
            let attributes = Items::from_slice(alloc, attributes.as_slice())?;
            found.push(Instruction::OfAttribute(attributes))
        }
        Qualifier::Group(entity) => found.push(Instruction::Group(*entity)),
        Qualifier::Index(index) => push_index(alloc, index, found),
        Qualifier::Range(first, last) => push_range(alloc, first.get(), last.get(), found),
    }
}

#[cycle(expressions)]
fn push_qualifiers(
    alloc: Global,
    qualifiers: &[Qualifier],
    found: &mut Written,
) -> Result<(), AllocError>
    ensures tree { OnOk result (qualifiers_of found.new ≡ qualifiers.now) }
    ensures keeps { OnOk result (Keeps found.old found.new) }
{
    found.push(Instruction::End)?;
    let mut count = qualifiers.len();
    while 0 < count {
        count -= 1;
        push_qualifier(alloc, &qualifiers[count], found)?;
    }
    Ok(())
}
