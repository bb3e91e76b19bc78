//! Expressions.

ghost use Rattle.std.specs.Prelude.{◌≡◌, [], ◌∷◌, ◌++◌, IfOk, OnOk};
ghost use Rattle.ex_typing.specs.Expressions.{within};
ghost use Rattle.rp_code.specs.declared.tree.Expression.TheVariants as tree_of;
ghost use Rattle.rp_meaning.specs.CompiledExpressions as spec;
ghost use Rattle.rp_compile_trees.specs.Parts as parts;

use crate::declared::Declared;
use crate::leaves::{built_in, indeterminate, item, literal, meant, own_attribute};
use crate::made::{both, push_made};
use ex_kinds::{Kinds, Typed};
use ex_named::{NamedExpression, NamedInterval, NamedOperation, NamedQualifier, NamedQuery};
use ex_operators::elements_of;
use ex_tree::BuiltInFunction;
use ex_typing::TypingScope;
use plain_data::{Boxed, Items};
use rp_code::{Expression, Interval, Operation, Qualifier, Query};
use rp_meaning::compiled_as_typed;
use std::alloc::{AllocError, Global};

/// What is said of an expression's value.
fn typed(
    alloc: Global,
    schema: &Declared<'_>,
    scope: &TypingScope<'_>,
    tree: &NamedExpression,
) -> Result<Typed, AllocError>
    ensures { IfOk result (λ typed. typed ≡ parts.typed schema.now scope.now tree.now) }
{
    compiled_as_typed();
    ex_typing::expression(alloc, schema.known(), scope, tree)
}

/// What the elements of an expression's value may be.
fn elements(
    alloc: Global,
    schema: &Declared<'_>,
    scope: &TypingScope<'_>,
    tree: &NamedExpression,
) -> Result<Kinds, AllocError>
    ensures { IfOk result (λ kinds. kinds ≡ parts.elements schema.now scope.now tree.now) }
{
    let typed = typed(alloc, schema, scope, tree)?;
    elements_of(alloc, schema.known().types(), typed.kinds.as_slice())
}

/// What is said of what a qualifier takes of a value of which this is said.
fn behind(
    alloc: Global,
    schema: &Declared<'_>,
    scope: &TypingScope<'_>,
    base: Typed,
    tree: &NamedQualifier,
) -> Result<Typed, AllocError>
    ensures { IfOk result (λ typed. typed ≡ parts.behind schema.now scope.now base tree.now) }
{
    compiled_as_typed();
    ex_typing::qualifier(alloc, schema.known(), scope, base, tree)
}

/// An expression as it is evaluated.
#[tactic(auto, unfolding(rp_meaning::specs::CompiledExpressions::compiled_expression, rp_meaning::specs::CompiledTrees::compiled_qualifier, rp_meaning::specs::CompiledTrees::compiled_interval, rp_meaning::specs::CompiledTrees::compiled_operation, rp_meaning::specs::CompiledTrees::compiled_query))]
#[cycle(trees)]
pub fn expression(
    alloc: Global,
    schema: &Declared<'_>,
    scope: &TypingScope<'_>,
    tree: &NamedExpression,
) -> Result<Expression, AllocError>
    ensures { IfOk result (λ found. found ≡ spec.expression schema.now scope.now tree.now) }
{
    match tree {
        NamedExpression::Literal(value) => literal(alloc, value),
        NamedExpression::Itself => Ok(Expression::Itself),
        NamedExpression::Indeterminate => Ok(indeterminate()),
        NamedExpression::Variable(slot) => Ok(Expression::Variable(*slot)),
        NamedExpression::Attribute(name) => Ok(own_attribute(name.meaning)),
        NamedExpression::Constant(number) => Ok(Expression::Constant(*number)),
        NamedExpression::Population(entity) => Ok(Expression::Population(*entity)),
        NamedExpression::Item(found) => Ok(item(*found)),
        NamedExpression::AmbiguousItem(_) => Ok(indeterminate()),
        NamedExpression::Call(function, _, list) => call(alloc, schema, scope, *function, list),
        NamedExpression::BuiltIn(function, _, list) => {
            call_built_in(alloc, schema, scope, *function, list)
        }
        NamedExpression::Qualified(base, list) => qualified(alloc, schema, scope, base, list),
        NamedExpression::Unary(operator, _, operand) => {
            Ok(Expression::Unary(*operator, boxed(alloc, schema, scope, operand)?))
        }
        NamedExpression::Chain(left, list) => chain(alloc, schema, scope, left, list),
        NamedExpression::Interval(tree) => interval(alloc, schema, scope, tree.get()),
        NamedExpression::Query(tree) => query(alloc, schema, scope, tree.get()),
        NamedExpression::Initializer(list) => initializer(alloc, schema, scope, list),
    }
}

/// An expression that stands in another.
#[cycle(trees)]
fn boxed(
    alloc: Global,
    schema: &Declared<'_>,
    scope: &TypingScope<'_>,
    tree: &Boxed<NamedExpression>,
) -> Result<Boxed<Expression>, AllocError>
    ensures { IfOk result (λ found. found ≡ spec.expression schema.now scope.now tree.now) }
{
    let tree = expression(alloc, schema, scope, tree.get())?;
    Boxed::new(alloc, tree)
}

/// Several expressions.
#[cycle(trees)]
pub(crate) fn expressions(
    alloc: Global,
    schema: &Declared<'_>,
    scope: &TypingScope<'_>,
    list: &[NamedExpression],
) -> Result<Items<Expression>, AllocError>
    ensures { IfOk result (λ found. found ≡ parts.expressions schema.now scope.now list.now) }
{
    let mut found = Items::new(alloc);
    for tree in list {
        push_made(&mut found, expression(alloc, schema, scope, tree))?;
    }
    Ok(found)
}

#[cycle(trees)]
fn call(
    alloc: Global,
    schema: &Declared<'_>,
    scope: &TypingScope<'_>,
    function: usize,
    arguments: &Items<NamedExpression>,
) -> Result<Expression, AllocError>
    ensures { IfOk result (λ found. found ≡ tree_of.Call function (parts.expressions schema.now scope.now arguments.now)) }
{
    let arguments = expressions(alloc, schema, scope, arguments.as_slice())?;
    Ok(Expression::Call(function, arguments))
}

#[cycle(trees)]
fn call_built_in(
    alloc: Global,
    schema: &Declared<'_>,
    scope: &TypingScope<'_>,
    function: BuiltInFunction,
    arguments: &Items<NamedExpression>,
) -> Result<Expression, AllocError>
    ensures { IfOk result (λ found. found ≡ spec.built_in schema.now function (parts.expressions schema.now scope.now arguments.now)) }
{
    let arguments = expressions(alloc, schema, scope, arguments.as_slice())?;
    built_in(alloc, schema, function, arguments)
}

#[cycle(trees)]
fn initializer(
    alloc: Global,
    schema: &Declared<'_>,
    scope: &TypingScope<'_>,
    elements: &Items<NamedExpression>,
) -> Result<Expression, AllocError>
    ensures { IfOk result (λ found. found ≡ tree_of.Initializer (parts.expressions schema.now scope.now elements.now)) }
{
    let elements = expressions(alloc, schema, scope, elements.as_slice())?;
    Ok(Expression::Initializer(elements))
}

/// What qualifiers take of a value.
#[cycle(trees)]
fn qualified(
    alloc: Global,
    schema: &Declared<'_>,
    scope: &TypingScope<'_>,
    base: &Boxed<NamedExpression>,
    list: &Items<NamedQualifier>,
) -> Result<Expression, AllocError>
    ensures { IfOk result (λ found. found ≡ tree_of.Qualified (spec.expression schema.now scope.now base.now) (parts.qualifiers schema.now scope.now (parts.typed schema.now scope.now base.now) list.now)) }
{
    let typed = typed(alloc, schema, scope, base.get())?;
    let (base, list) = both(
        boxed(alloc, schema, scope, base),
        qualifiers(alloc, schema, scope, typed, list.as_slice()),
    )?;
    Ok(Expression::Qualified(base, list))
}

#[cycle(trees)]
fn chain(
    alloc: Global,
    schema: &Declared<'_>,
    scope: &TypingScope<'_>,
    left: &Boxed<NamedExpression>,
    list: &Items<NamedOperation>,
) -> Result<Expression, AllocError>
    ensures { IfOk result (λ found. found ≡ tree_of.Chain (spec.expression schema.now scope.now left.now) (parts.operations schema.now scope.now list.now)) }
{
    let (left, list) = both(
        boxed(alloc, schema, scope, left),
        operations(alloc, schema, scope, list.as_slice()),
    )?;
    Ok(Expression::Chain(left, list))
}

/// What is taken one after the other of a value of which this is said.
#[cycle(trees)]
fn qualifiers(
    alloc: Global,
    schema: &Declared<'_>,
    scope: &TypingScope<'_>,
    base: Typed,
    list: &[NamedQualifier],
) -> Result<Items<Qualifier>, AllocError>
    ensures { IfOk result (λ found. found ≡ parts.qualifiers schema.now scope.now base list.now) }
{
    let mut found = Items::new(alloc);
    let mut typed = base;
    for tree in list {
        typed = push_qualifier(alloc, schema, scope, &mut found, typed, tree)?;
    }
    Ok(found)
}

/// Puts a qualifier behind the others, and gives what is said of what it takes.
#[cycle(trees)]
fn push_qualifier(
    alloc: Global,
    schema: &Declared<'_>,
    scope: &TypingScope<'_>,
    found: &mut Items<Qualifier>,
    base: Typed,
    tree: &NamedQualifier,
) -> Result<Typed, AllocError>
    ensures pushed { OnOk result (found.new ≡ found.old ++ parts.qualifier schema.now scope.now base tree.now ∷ []) }
    ensures taken { IfOk result (λ typed. typed ≡ parts.behind schema.now scope.now base tree.now) }
{
    push_made(found, qualifier(alloc, schema, scope, &base, tree))?;
    behind(alloc, schema, scope, base, tree)
}

#[tactic(auto, unfolding(rp_meaning::specs::CompiledExpressions::compiled_expression, rp_meaning::specs::CompiledTrees::compiled_qualifier))]
#[cycle(trees)]
fn qualifier(
    alloc: Global,
    schema: &Declared<'_>,
    scope: &TypingScope<'_>,
    base: &Typed,
    tree: &NamedQualifier,
) -> Result<Qualifier, AllocError>
    ensures { IfOk result (λ found. found ≡ parts.qualifier schema.now scope.now base.now tree.now) }
{
    match tree {
        NamedQualifier::Attribute(_, name) => {
            let places = meant(alloc, schema, name.text.as_str(), base.kinds.as_slice())?;
            Ok(Qualifier::Attribute(places))
        }
        NamedQualifier::Group(_, entity) => Ok(Qualifier::Group(*entity)),
        NamedQualifier::Index(_, index) => {
            let index = expression(alloc, schema, scope, index)?;
            Ok(Qualifier::Index(index))
        }
        NamedQualifier::Range(_, low, high) => {
            let (low, high) = both(
                boxed(alloc, schema, scope, low),
                boxed(alloc, schema, scope, high),
            )?;
            Ok(Qualifier::Range(low, high))
        }
    }
}

#[tactic(auto, unfolding(rp_meaning::specs::CompiledExpressions::compiled_expression, rp_meaning::specs::CompiledTrees::compiled_operation))]
#[cycle(trees)]
fn operations(
    alloc: Global,
    schema: &Declared<'_>,
    scope: &TypingScope<'_>,
    list: &[NamedOperation],
) -> Result<Items<Operation>, AllocError>
    ensures { IfOk result (λ found. found ≡ parts.operations schema.now scope.now list.now) }
{
    let mut found = Items::new(alloc);
    for tree in list {
        let right = expression(alloc, schema, scope, &tree.right)?;
        found.push(Operation {
            operator: tree.operator,
            right,
        })?;
    }
    Ok(found)
}

#[tactic(auto, unfolding(rp_meaning::specs::CompiledExpressions::compiled_expression, rp_meaning::specs::CompiledTrees::compiled_interval))]
#[cycle(trees)]
fn interval(
    alloc: Global,
    schema: &Declared<'_>,
    scope: &TypingScope<'_>,
    tree: &NamedInterval,
) -> Result<Expression, AllocError>
    ensures { IfOk result (λ found. found ≡ tree_of.Interval (parts.interval schema.now scope.now tree.now)) }
{
    let ends = both(
        expression(alloc, schema, scope, &tree.low),
        expression(alloc, schema, scope, &tree.high),
    );
    let ((low, high), item) = both(ends, expression(alloc, schema, scope, &tree.item))?;
    let interval = Interval {
        low,
        low_operator: tree.low_operator,
        item,
        high_operator: tree.high_operator,
        high,
    };
    Ok(Expression::Interval(Boxed::new(alloc, interval)?))
}

/// The variable, which stands in the condition, is one of the source's elements.
#[tactic(auto, unfolding(rp_meaning::specs::CompiledExpressions::compiled_expression, rp_meaning::specs::CompiledTrees::compiled_query))]
#[cycle(trees)]
fn query(
    alloc: Global,
    schema: &Declared<'_>,
    scope: &TypingScope<'_>,
    tree: &NamedQuery,
) -> Result<Expression, AllocError>
    ensures { IfOk result (λ found. found ≡ tree_of.Query (parts.query schema.now scope.now tree.now)) }
{
    let elements = elements(alloc, schema, scope, &tree.source)?;
    let (source, condition) = both(
        expression(alloc, schema, scope, &tree.source),
        condition(alloc, schema, scope, elements, &tree.condition),
    )?;
    let query = Query { source, condition };
    Ok(Expression::Query(Boxed::new(alloc, query)?))
}

/// A condition in which a variable of these kinds stands.
#[cycle(trees)]
fn condition(
    alloc: Global,
    schema: &Declared<'_>,
    scope: &TypingScope<'_>,
    variable: Kinds,
    tree: &NamedExpression,
) -> Result<Expression, AllocError>
    ensures { IfOk result (λ found. found ≡ spec.expression schema.now (within scope.now variable) tree.now) }
{
    // Lent again, for as long as the variable.
    let within = (&*scope).within(alloc, variable.as_slice())?;
    expression(alloc, schema, &within, tree)
}
