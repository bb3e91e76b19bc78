//! Expressions. A fault in a part doesn't end the walk: of all faults the least is told.
#![tactic(auto, unfolding(crate::specs::Expressions::typed_expression, crate::specs::Trees::typed_qualifier, crate::specs::Trees::typed_interval, crate::specs::Trees::typed_operation, crate::specs::Trees::typed_query))]

ghost use Rattle.std.specs.Prelude.{◌≡◌, IfOk};
ghost use Rattle.ex_operators.specs.Operators.{comparison as comparison_by};
ghost use Rattle.ex_typing.specs.Expressions as spec;
ghost use Rattle.ex_typing.specs.Trees as trees;

use crate::known::Known;
use crate::leaves::{
    aggregate_of_one, ambiguous, attribute, binary_at, built_in_at, called, compared, initializer,
    known_kinds, literal_value, unary_at, value_of_one,
};
use crate::scope::TypingScope;
use crate::taken::{attribute_taken, group_taken, index_taken, range_taken};
use ex_kinds::{Kinds, Sort, TypeFault, Typed, ValueKind, either, ruled};
use ex_named::{NamedExpression, NamedInterval, NamedOperation, NamedQualifier, NamedQuery};
use ex_operators::{comparison, elements_of, queried};
use ex_tree::{BuiltInFunction, UnaryOperator};
use plain_data::{Items, Rows};
use std::alloc::{AllocError, Global};

/// What the value of an expression may be, and the fault that is told of it.
#[cycle(trees)]
pub fn expression(
    alloc: Global,
    schema: &Known,
    scope: &TypingScope<'_>,
    tree: &NamedExpression,
) -> Result<Typed, AllocError>
    ensures { IfOk result (λ typed. typed ≡ spec.expression schema.now scope.now tree.now) }
{
    match tree {
        NamedExpression::Literal(value) => literal_value(alloc, value),
        NamedExpression::Itself => known_kinds(alloc, scope.itself()),
        NamedExpression::Indeterminate => Ok(Typed::fine(Kinds::new(alloc))),
        NamedExpression::Variable(slot) => known_kinds(alloc, scope.variable(*slot)),
        NamedExpression::Attribute(name) => attribute(alloc, schema, scope, name),
        NamedExpression::Constant(number) => known_kinds(alloc, schema.constant(*number)),
        NamedExpression::Population(entity) => aggregate_of_one(alloc, Sort::Entity(*entity)),
        NamedExpression::Item(item) => value_of_one(alloc, Sort::Enumeration(item.type_number)),
        NamedExpression::AmbiguousItem(at) => Ok(ambiguous(alloc, *at)),
        NamedExpression::Call(number, at, list) => call(alloc, schema, scope, *number, *at, list),
        NamedExpression::BuiltIn(function, at, arguments) => {
            call_built_in(alloc, schema, scope, *function, *at, arguments.as_slice())
        },
        NamedExpression::Qualified(base, taken) => {
            let base = expression(alloc, schema, scope, base.get())?;
            qualifiers(alloc, schema, scope, base, taken.as_slice())
        },
        NamedExpression::Unary(operator, at, operand) => {
            signed(alloc, schema, scope, *operator, *at, operand.get())
        },
        NamedExpression::Chain(left, operators) => {
            let left = expression(alloc, schema, scope, left.get())?;
            operations(alloc, schema, scope, left, operators.as_slice())
        },
        NamedExpression::Interval(tree) => interval(alloc, schema, scope, tree.get()),
        NamedExpression::Query(tree) => query(alloc, schema, scope, tree.get()),
        NamedExpression::Initializer(elements) => initialized(alloc, schema, scope, elements),
    }
}

/// What the values of several expressions may be, each by itself, and the fault that is told of them.
#[cycle(trees)]
pub fn expressions(
    alloc: Global,
    schema: &Known,
    scope: &TypingScope<'_>,
    list: &[NamedExpression],
) -> Result<(Rows<Kinds>, Option<TypeFault>), AllocError>
    ensures { IfOk result (λ typed. typed ≡ trees.expressions schema.now scope.now list.now) }
{
    let mut kinds = Rows::new(alloc);
    let mut fault = None;
    for tree in list {
        let typed = expression(alloc, schema, scope, tree)?;
        kinds.push(typed.kinds)?;
        fault = either(fault, typed.fault);
    }
    Ok((kinds, fault))
}

#[cycle(trees)]
fn call(
    alloc: Global,
    schema: &Known,
    scope: &TypingScope<'_>,
    function: usize,
    at: usize,
    arguments: &Items<NamedExpression>,
) -> Result<Typed, AllocError>
    ensures { IfOk result (λ typed. typed ≡ trees.call schema.now scope.now function at arguments.now) }
{
    let (arguments, fault) = expressions(alloc, schema, scope, arguments.as_slice())?;
    let typed = called(alloc, schema, function, at, arguments.as_slice())?;
    Ok(typed.behind(fault))
}

#[cycle(trees)]
fn call_built_in(
    alloc: Global,
    schema: &Known,
    scope: &TypingScope<'_>,
    function: BuiltInFunction,
    at: usize,
    arguments: &[NamedExpression],
) -> Result<Typed, AllocError>
    ensures { IfOk result (λ typed. typed ≡ trees.call_built_in schema.now scope.now function at arguments.now) }
{
    let (arguments, fault) = expressions(alloc, schema, scope, arguments)?;
    let typed = built_in_at(alloc, schema, function, at, arguments.as_slice())?;
    Ok(typed.behind(fault))
}

/// An aggregate of these elements.
#[cycle(trees)]
fn initialized(
    alloc: Global,
    schema: &Known,
    scope: &TypingScope<'_>,
    elements: &Items<NamedExpression>,
) -> Result<Typed, AllocError>
    ensures { IfOk result (λ typed. typed ≡ trees.initialized schema.now scope.now elements.now) }
{
    let (elements, fault) = expressions(alloc, schema, scope, elements.as_slice())?;
    initializer(alloc, elements.as_slice(), fault)
}

#[cycle(trees)]
fn signed(
    alloc: Global,
    schema: &Known,
    scope: &TypingScope<'_>,
    operator: UnaryOperator,
    at: usize,
    operand: &NamedExpression,
) -> Result<Typed, AllocError>
    ensures { IfOk result (λ typed. typed ≡ trees.signed schema.now scope.now operator at operand.now) }
{
    let operand = expression(alloc, schema, scope, operand)?;
    let typed = unary_at(alloc, schema, operator, at, operand.kinds.as_slice())?;
    Ok(typed.behind(operand.fault))
}

/// What is taken of a value, one after the other.
#[cycle(trees)]
fn qualifiers(
    alloc: Global,
    schema: &Known,
    scope: &TypingScope<'_>,
    base: Typed,
    list: &[NamedQualifier],
) -> Result<Typed, AllocError>
    ensures { IfOk result (λ typed. typed ≡ trees.qualifiers schema.now scope.now base list.now) }
{
    let mut found = base;
    for tree in list {
        found = qualifier(alloc, schema, scope, found, tree)?;
    }
    Ok(found)
}

/// What is taken of a value of these kinds by `.a`, `\e`, `[i]` or `[i:j]`, and the fault that is told of it.
#[cycle(trees)]
pub fn qualifier(
    alloc: Global,
    schema: &Known,
    scope: &TypingScope<'_>,
    base: Typed,
    tree: &NamedQualifier,
) -> Result<Typed, AllocError>
    ensures { IfOk result (λ typed. typed ≡ trees.qualifier schema.now scope.now base tree.now) }
{
    match tree {
        NamedQualifier::Attribute(at, name) => attribute_taken(alloc, schema, base, *at, name),
        NamedQualifier::Group(at, entity) => group_taken(alloc, schema, base, *at, *entity),
        NamedQualifier::Index(at, index) => {
            let index = expression(alloc, schema, scope, index)?;
            index_taken(alloc, schema, base, *at, index)
        },
        NamedQualifier::Range(at, low, high) => {
            let low = expression(alloc, schema, scope, low.get())?;
            let high = expression(alloc, schema, scope, high.get())?;
            range_taken(alloc, schema, base, *at, low, high)
        },
    }
}

/// Operators of one level, from left to right.
#[cycle(trees)]
fn operations(
    alloc: Global,
    schema: &Known,
    scope: &TypingScope<'_>,
    left: Typed,
    list: &[NamedOperation],
) -> Result<Typed, AllocError>
    ensures { IfOk result (λ typed. typed ≡ trees.operations schema.now scope.now left list.now) }
{
    let mut found = left;
    for tree in list {
        found = operation(alloc, schema, scope, found, tree)?;
    }
    Ok(found)
}

#[cycle(trees)]
fn operation(
    alloc: Global,
    schema: &Known,
    scope: &TypingScope<'_>,
    left: Typed,
    tree: &NamedOperation,
) -> Result<Typed, AllocError>
    ensures { IfOk result (λ typed. typed ≡ trees.operation schema.now scope.now left tree.now) }
{
    let right = expression(alloc, schema, scope, &tree.right)?;
    let typed = binary_at(
        alloc,
        schema,
        tree.operator,
        tree.at,
        left.kinds.as_slice(),
        right.kinds.as_slice(),
    )?;
    Ok(typed.behind(either(left.fault, right.fault)))
}

#[cycle(trees)]
fn interval(
    alloc: Global,
    schema: &Known,
    scope: &TypingScope<'_>,
    tree: &NamedInterval,
) -> Result<Typed, AllocError>
    ensures { IfOk result (λ typed. typed ≡ trees.interval schema.now scope.now tree.now) }
{
    let low = expression(alloc, schema, scope, &tree.low)?;
    let item = expression(alloc, schema, scope, &tree.item)?;
    let high = expression(alloc, schema, scope, &tree.high)?;
    let (first, second) = comparisons(alloc, schema, tree, &low, &item, &high)?;
    let parts = either(either(low.fault, item.fault), high.fault);
    compared(alloc, either(parts, either(first, second)))
}

/// The faults of an interval's two comparisons.
fn comparisons(
    alloc: Global,
    schema: &Known,
    tree: &NamedInterval,
    low: &Typed,
    item: &Typed,
    high: &Typed,
) -> Result<(Option<TypeFault>, Option<TypeFault>), AllocError>
    ensures first { IfOk result (λ faults. faults.0 ≡ (spec.binary_at schema.now (comparison_by tree.now.low_operator) tree.now.low_at low.now.kinds item.now.kinds).fault) }
    ensures second { IfOk result (λ faults. faults.1 ≡ (spec.binary_at schema.now (comparison_by tree.now.high_operator) tree.now.high_at item.now.kinds high.now.kinds).fault) }
{
    let (low, item, high) = (
        low.kinds.as_slice(),
        item.kinds.as_slice(),
        high.kinds.as_slice(),
    );
    let operator = comparison(tree.low_operator);
    let first = binary_at(alloc, schema, operator, tree.low_at, low, item)?;
    let operator = comparison(tree.high_operator);
    let second = binary_at(alloc, schema, operator, tree.high_at, item, high)?;
    Ok((first.fault, second.fault))
}

/// The variable, which stands in the condition, is one of the source's elements.
#[cycle(trees)]
fn query(
    alloc: Global,
    schema: &Known,
    scope: &TypingScope<'_>,
    tree: &NamedQuery,
) -> Result<Typed, AllocError>
    ensures { IfOk result (λ typed. typed ≡ trees.query schema.now scope.now tree.now) }
{
    let source = expression(alloc, schema, scope, &tree.source)?;
    let elements = elements_of(alloc, schema.types(), source.kinds.as_slice())?;
    let condition = condition(alloc, schema, scope, elements.as_slice(), &tree.condition)?;
    let rule = queried(alloc, schema.types(), source.kinds.as_slice());
    Ok(ruled(alloc, tree.at, rule)?.behind(either(source.fault, condition)))
}

/// The fault of a condition in which a variable of these kinds stands.
#[cycle(trees)]
fn condition(
    alloc: Global,
    schema: &Known,
    scope: &TypingScope<'_>,
    variable: &[ValueKind],
    tree: &NamedExpression,
) -> Result<Option<TypeFault>, AllocError>
    ensures { IfOk result (λ fault. fault ≡ trees.condition schema.now scope.now variable.now tree.now) }
{
    // Lent again, for as long as the variable.
    let within = (&*scope).within(alloc, variable)?;
    let typed = expression(alloc, schema, &within, tree)?;
    Ok(typed.fault)
}
