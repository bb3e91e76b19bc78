//! The names of attributes that expressions take of values, each as often as it is taken. Nothing rests on this list: it
//! only decides what is kept.

use ex_named::{NamedExpression, NamedInterval, NamedOperation, NamedQualifier, NamedQuery};
use std::alloc::AllocError;

/// The name of an attribute that is taken of a value.
#[derive(Clone, Copy)]
pub struct TakenName<'a> {
    pub name: &'a str,
    /// The name of the attribute that the value is, if it is one itself.
    pub of: Option<&'a str>,
}

/// Puts the names that an expression takes behind the others.
#[cycle(taken)]
pub fn push_taken<'a>(
    names: &mut Vec<TakenName<'a>>,
    tree: &'a NamedExpression,
) -> Result<(), AllocError> {
    match tree {
        NamedExpression::Call(_, _, list) => push_taken_of_all(names, list.as_slice()),
        NamedExpression::BuiltIn(_, _, list) => push_taken_of_all(names, list.as_slice()),
        NamedExpression::Initializer(list) => push_taken_of_all(names, list.as_slice()),
        NamedExpression::Qualified(base, list) => {
            push_taken(names, base.get())?;
            push_taken_of_qualifiers(names, list.as_slice())
        },
        NamedExpression::Unary(_, _, operand) => push_taken(names, operand.get()),
        NamedExpression::Chain(left, list) => {
            push_taken(names, left.get())?;
            push_taken_of_operations(names, list.as_slice())
        },
        NamedExpression::Interval(interval) => push_taken_of_interval(names, interval.get()),
        NamedExpression::Query(query) => push_taken_of_query(names, query.get()),
        _ => Ok(()),
    }
}

/// Puts the names that expressions take behind the others.
#[cycle(taken)]
pub fn push_taken_of_all<'a>(
    names: &mut Vec<TakenName<'a>>,
    list: &'a [NamedExpression],
) -> Result<(), AllocError> {
    for tree in list {
        push_taken(names, tree)?;
    }
    Ok(())
}

/// The name, where an attribute is taken by it.
fn attribute_of(tree: &NamedQualifier) -> Option<&str> {
    match tree {
        NamedQualifier::Attribute(_, name) => Some(name.text.as_str()),
        _ => None,
    }
}

#[cycle(taken)]
fn push_taken_of_qualifiers<'a>(
    names: &mut Vec<TakenName<'a>>,
    list: &'a [NamedQualifier],
) -> Result<(), AllocError> {
    let mut of = None;
    for tree in list {
        push_taken_of_qualifier(names, of, tree)?;
        of = attribute_of(tree);
    }
    Ok(())
}

#[cycle(taken)]
fn push_taken_of_qualifier<'a>(
    names: &mut Vec<TakenName<'a>>,
    of: Option<&'a str>,
    tree: &'a NamedQualifier,
) -> Result<(), AllocError> {
    match tree {
        NamedQualifier::Attribute(_, name) => {
            let name = name.text.as_str();
            Ok(names.push(TakenName { name, of })?)
        },
        NamedQualifier::Group(_, _) => Ok(()),
        NamedQualifier::Index(_, index) => push_taken(names, index),
        NamedQualifier::Range(_, low, high) => {
            push_taken(names, low.get())?;
            push_taken(names, high.get())
        },
    }
}

#[cycle(taken)]
fn push_taken_of_operations<'a>(
    names: &mut Vec<TakenName<'a>>,
    list: &'a [NamedOperation],
) -> Result<(), AllocError> {
    for tree in list {
        push_taken(names, &tree.right)?;
    }
    Ok(())
}

#[cycle(taken)]
fn push_taken_of_interval<'a>(
    names: &mut Vec<TakenName<'a>>,
    tree: &'a NamedInterval,
) -> Result<(), AllocError> {
    push_taken(names, &tree.low)?;
    push_taken(names, &tree.item)?;
    push_taken(names, &tree.high)
}

#[cycle(taken)]
fn push_taken_of_query<'a>(
    names: &mut Vec<TakenName<'a>>,
    tree: &'a NamedQuery,
) -> Result<(), AllocError> {
    push_taken(names, &tree.source)?;
    push_taken(names, &tree.condition)
}
