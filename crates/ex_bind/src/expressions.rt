//! Expressions with their names bound. Of faults the one of least offset is told, so that each part of a tree is bound
//! before any fault is returned.
#![tactic(auto, unfolding(ex_named::specs::Expressions::bound_expression, crate::specs::Trees::bound_qualifier, crate::specs::Trees::bound_interval, crate::specs::Trees::bound_operation, crate::specs::Trees::bound_query))]

ghost use Rattle.ex_named.specs.Outcomes.{Binds};
ghost use Rattle.ex_named.specs.Expressions as spec;
ghost use Rattle.ex_bind.specs.Trees as trees;

use crate::copies::{copy_literal, copy_name};
use crate::qualified::{item, taken_of};
use ex_named::{
    Binding, Gathered, NamedExpression, NamedInterval, NamedOperation, NamedQualifier, NamedQuery,
    both,
};
use ex_scopes::{Declarations, Scope};
use ex_tree::{Expression, Interval, Name, Operation, Qualifier, Query, UnaryOperator};
use plain_data::{Boxed, Items};
use std::alloc::Global;

/// An expression with its names bound.
#[cycle(expressions)]
pub fn expression(
    alloc: Global,
    declarations: &Declarations<'_>,
    scope: &Scope<'_>,
    tree: &Expression,
) -> Binding<NamedExpression>
    ensures { Binds result (spec.expression declarations.now scope.now tree.now) }
{
    match tree {
        Expression::Literal(value) => Ok(NamedExpression::Literal(copy_literal(alloc, value)?)),
        Expression::Name(name) => declarations.name(alloc, scope, name),
        Expression::Itself(at) => scope.itself(*at),
        Expression::Indeterminate => Ok(NamedExpression::Indeterminate),
        Expression::Call(name, arguments) => {
            call(alloc, declarations, scope, name, arguments.as_slice())
        },
        Expression::BuiltIn(function, at, arguments) => {
            let arguments = expressions(alloc, declarations, scope, arguments.as_slice())?;
            Ok(NamedExpression::BuiltIn(*function, *at, arguments))
        },
        Expression::Qualified(base, taken) => {
            qualified(alloc, declarations, scope, base.get(), taken.as_slice())
        },
        Expression::Unary(operator, at, operand) => {
            unary(alloc, declarations, scope, *operator, *at, operand.get())
        },
        Expression::Chain(left, operators) => {
            chain(alloc, declarations, scope, left.get(), operators.as_slice())
        },
        Expression::Interval(tree) => interval(alloc, declarations, scope, tree.get()),
        Expression::Query(tree) => query(alloc, declarations, scope, tree.get()),
        Expression::Initializer(elements) => {
            let elements = expressions(alloc, declarations, scope, elements.as_slice())?;
            Ok(NamedExpression::Initializer(elements))
        },
    }
}

#[cycle(expressions)]
fn expressions(
    alloc: Global,
    declarations: &Declarations<'_>,
    scope: &Scope<'_>,
    list: &[Expression],
) -> Binding<Items<NamedExpression>>
    ensures { Binds result (trees.expressions declarations.now scope.now list.now) }
{
    let mut gathered = Gathered::new(alloc, list.len())?;
    for tree in list {
        gathered.push(expression(alloc, declarations, scope, tree))?;
    }
    gathered.finish()
}

/// A function of the schema, and its arguments.
#[cycle(expressions)]
fn call(
    alloc: Global,
    declarations: &Declarations<'_>,
    scope: &Scope<'_>,
    name: &Name,
    arguments: &[Expression],
) -> Binding<NamedExpression>
    ensures { Binds result (trees.call declarations.now scope.now name.now arguments.now) }
{
    let function = declarations.function(alloc, scope, name);
    let arguments = expressions(alloc, declarations, scope, arguments);
    let (function, arguments) = both(function, arguments)?;
    Ok(NamedExpression::Call(function, name.at, arguments))
}

/// What is taken of a value; or an item, where `type.item` begins it.
#[cycle(expressions)]
fn qualified(
    alloc: Global,
    declarations: &Declarations<'_>,
    scope: &Scope<'_>,
    base: &Expression,
    taken: &[Qualifier],
) -> Binding<NamedExpression>
    ensures { Binds result (trees.qualified declarations.now scope.now base.now taken.now) }
{
    if let Some((first, others)) = taken.split_first() {
        if let Some(item) = item(alloc, declarations, scope, base, first).transpose() {
            if others.is_empty() {
                return item;
            }
            let others = qualifiers(alloc, declarations, scope, others);
            return taken_of(alloc, item, others);
        }
    }
    let base = expression(alloc, declarations, scope, base);
    let taken = qualifiers(alloc, declarations, scope, taken);
    taken_of(alloc, base, taken)
}

#[cycle(expressions)]
fn qualifiers(
    alloc: Global,
    declarations: &Declarations<'_>,
    scope: &Scope<'_>,
    list: &[Qualifier],
) -> Binding<Items<NamedQualifier>>
    ensures { Binds result (trees.qualifiers declarations.now scope.now list.now) }
{
    let mut gathered = Gathered::new(alloc, list.len())?;
    for tree in list {
        gathered.push(qualifier(alloc, declarations, scope, tree))?;
    }
    gathered.finish()
}

#[cycle(expressions)]
fn qualifier(
    alloc: Global,
    declarations: &Declarations<'_>,
    scope: &Scope<'_>,
    tree: &Qualifier,
) -> Binding<NamedQualifier>
    ensures { Binds result (trees.qualifier declarations.now scope.now tree.now) }
{
    Ok(match tree {
        Qualifier::Attribute(at, name) => {
            NamedQualifier::Attribute(*at, copy_name(alloc, name)?)
        },
        Qualifier::Group(at, name) => NamedQualifier::Group(*at, declarations.entity(name)?),
        Qualifier::Index(at, index) => {
            NamedQualifier::Index(*at, expression(alloc, declarations, scope, index)?)
        },
        Qualifier::Range(at, low, high) => {
            let low = expression(alloc, declarations, scope, low.get());
            let high = expression(alloc, declarations, scope, high.get());
            let (low, high) = both(low, high)?;
            NamedQualifier::Range(*at, Boxed::new(alloc, low)?, Boxed::new(alloc, high)?)
        },
    })
}

/// An operator before its operand.
#[cycle(expressions)]
fn unary(
    alloc: Global,
    declarations: &Declarations<'_>,
    scope: &Scope<'_>,
    operator: UnaryOperator,
    at: usize,
    operand: &Expression,
) -> Binding<NamedExpression>
    ensures { Binds result (trees.unary declarations.now scope.now operator at operand.now) }
{
    let operand = expression(alloc, declarations, scope, operand)?;
    Ok(NamedExpression::Unary(operator, at, Boxed::new(alloc, operand)?))
}

#[cycle(expressions)]
fn interval(
    alloc: Global,
    declarations: &Declarations<'_>,
    scope: &Scope<'_>,
    tree: &Interval,
) -> Binding<NamedExpression>
    ensures { Binds result (trees.interval declarations.now scope.now tree.now) }
{
    let low = expression(alloc, declarations, scope, &tree.low);
    let item = expression(alloc, declarations, scope, &tree.item);
    let high = expression(alloc, declarations, scope, &tree.high);
    let ((low, item), high) = both(both(low, item), high)?;
    let interval = NamedInterval {
        low,
        low_operator: tree.low_operator,
        low_at: tree.low_at,
        item,
        high_operator: tree.high_operator,
        high_at: tree.high_at,
        high,
    };
    Ok(NamedExpression::Interval(Boxed::new(alloc, interval)?))
}

/// Operators of one level.
#[cycle(expressions)]
fn chain(
    alloc: Global,
    declarations: &Declarations<'_>,
    scope: &Scope<'_>,
    left: &Expression,
    operators: &[Operation],
) -> Binding<NamedExpression>
    ensures { Binds result (trees.chain declarations.now scope.now left.now operators.now) }
{
    let left = expression(alloc, declarations, scope, left);
    let operators = operations(alloc, declarations, scope, operators);
    let (left, operators) = both(left, operators)?;
    Ok(NamedExpression::Chain(Boxed::new(alloc, left)?, operators))
}

#[cycle(expressions)]
fn operations(
    alloc: Global,
    declarations: &Declarations<'_>,
    scope: &Scope<'_>,
    list: &[Operation],
) -> Binding<Items<NamedOperation>>
    ensures { Binds result (trees.operations declarations.now scope.now list.now) }
{
    let mut gathered = Gathered::new(alloc, list.len())?;
    for tree in list {
        gathered.push(operation(alloc, declarations, scope, tree))?;
    }
    gathered.finish()
}

#[cycle(expressions)]
fn operation(
    alloc: Global,
    declarations: &Declarations<'_>,
    scope: &Scope<'_>,
    tree: &Operation,
) -> Binding<NamedOperation>
    ensures { Binds result (trees.operation declarations.now scope.now tree.now) }
{
    Ok(NamedOperation {
        operator: tree.operator,
        at: tree.at,
        right: expression(alloc, declarations, scope, &tree.right)?,
    })
}

/// The source stands outside of the scope that the query opens, and the condition within.
#[cycle(expressions)]
fn query(
    alloc: Global,
    declarations: &Declarations<'_>,
    scope: &Scope<'_>,
    tree: &Query,
) -> Binding<NamedExpression>
    ensures { Binds result (trees.query declarations.now scope.now tree.now) }
{
    let source = expression(alloc, declarations, scope, &tree.source);
    // Lent again, for as long as the variable.
    let within = (&*scope).within(alloc, &tree.variable)?;
    let condition = expression(alloc, declarations, &within, &tree.condition);
    let (source, condition) = both(source, condition)?;
    let query = NamedQuery {
        at: tree.at,
        source,
        condition,
    };
    Ok(NamedExpression::Query(Boxed::new(alloc, query)?))
}
