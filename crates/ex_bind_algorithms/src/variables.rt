//! Parameters, locals and labels: their names, and what they are with their names bound.

ghost use Rattle.std.specs.Prelude.{◌≡◌, map, ◌++◌, OnOk, IfOk};
ghost use Rattle.ex_named.specs.Expressions.{expression as bound};
ghost use Rattle.ex_named.specs.Outcomes.{Binds, each, optional};
ghost use Rattle.ex_bind_algorithms.specs.Algorithms as spec;
ghost use Rattle.ex_bind.specs.Rules.{labels};

use ex_bind::{copy_names, data_type, expression};
use ex_named::{Binding, Gathered, NamedExpression, NamedLocal, NamedParameter, both};
use ex_scopes::{Declarations, Scope};
use ex_tree::{DomainRule, Expression, LocalVariable, Name, Parameter};
use name_tables::{NameTable, SortedNames};
use plain_data::Items;
use std::alloc::{AllocError, Global};

fn push_names<'a>(names: &mut Vec<&'a Name>, more: &'a [Name]) -> Result<(), AllocError>
    ensures { OnOk result (map (λ n. n.now) names.new.items ≡ map (λ n. n.now) names.old.items ++ more.now) }
{
    for name in more {
        names.push(name)?;
    }
    Ok(())
}

/// Puts the parameters' names behind others.
pub(crate) fn push_parameter_names<'a>(
    names: &mut Vec<&'a Name>,
    parameters: &'a [Parameter],
) -> Result<(), AllocError>
    ensures { OnOk result (map (λ n. n.now) names.new.items ≡ map (λ n. n.now) names.old.items ++ spec.parameter_names parameters.now) }
{
    for parameter in parameters {
        push_names(names, parameter.names.as_slice())?;
    }
    Ok(())
}

/// Puts the locals' names behind others.
pub(crate) fn push_local_names<'a>(
    names: &mut Vec<&'a Name>,
    locals: &'a [LocalVariable],
) -> Result<(), AllocError>
    ensures { OnOk result (map (λ n. n.now) names.new.items ≡ map (λ n. n.now) names.old.items ++ spec.local_names locals.now) }
{
    for local in locals {
        push_names(names, local.names.as_slice())?;
    }
    Ok(())
}

/// Puts the labels of rules behind other names.
pub(crate) fn push_labels<'a>(
    names: &mut Vec<&'a Name>,
    rules: &'a [DomainRule],
) -> Result<(), AllocError>
    ensures { OnOk result (map (λ n. n.now) names.new.items ≡ map (λ n. n.now) names.old.items ++ labels (λ x. x.label) rules.now) }
{
    for rule in rules {
        if let Some(label) = &rule.label {
            names.push(label)?;
        }
    }
    Ok(())
}

/// The frame of these variables.
pub(crate) fn frame_of<'a>(alloc: Global, names: &[&'a Name]) -> Result<SortedNames<'a>, AllocError>
    ensures { IfOk result (λ frame. frame ≡ map (λ n. n.text) (map (λ n. n.now) names.now)) }
{
    let mut table = NameTable::new(alloc);
    for name in names {
        table.push(name.text.as_bytes())?;
    }
    SortedNames::new(alloc, table)
}

/// Parameters with their names bound, in order.
pub(crate) fn parameters(
    alloc: Global,
    declarations: &Declarations<'_>,
    parameters: &[Parameter],
) -> Binding<Items<NamedParameter>>
    ensures { Binds result (each (spec.parameter declarations.now) parameters.now) }
{
    let mut found = Gathered::new(alloc, parameters.len())?;
    for item in parameters {
        found.push(parameter(alloc, declarations, item))?;
    }
    found.finish()
}

#[tactic(auto, unfolding(crate::specs::Algorithms::parameter))]
fn parameter(
    alloc: Global,
    declarations: &Declarations<'_>,
    parameter: &Parameter,
) -> Binding<NamedParameter>
    ensures { Binds result (spec.parameter declarations.now parameter.now) }
{
    let data_type = data_type(alloc, declarations, &parameter.data_type)?;
    Ok(NamedParameter {
        names: copy_names(alloc, parameter.names.as_slice())?,
        data_type,
    })
}

/// Locals with their names bound, in order.
pub(crate) fn local_variables(
    alloc: Global,
    declarations: &Declarations<'_>,
    scope: &Scope<'_>,
    locals: &[LocalVariable],
) -> Binding<Items<NamedLocal>>
    ensures { Binds result (each (spec.local_variable declarations.now scope.now) locals.now) }
{
    let mut found = Gathered::new(alloc, locals.len())?;
    for local in locals {
        found.push(local_variable(alloc, declarations, scope, local))?;
    }
    found.finish()
}

#[tactic(auto, unfolding(crate::specs::Algorithms::local_variable))]
fn local_variable(
    alloc: Global,
    declarations: &Declarations<'_>,
    scope: &Scope<'_>,
    local: &LocalVariable,
) -> Binding<NamedLocal>
    ensures { Binds result (spec.local_variable declarations.now scope.now local.now) }
{
    let data_type = data_type(alloc, declarations, &local.data_type);
    let value = initial_value(alloc, declarations, scope, &local.value);
    let (data_type, value) = both(data_type, value)?;
    Ok(NamedLocal {
        names: copy_names(alloc, local.names.as_slice())?,
        data_type,
        value,
    })
}

fn initial_value(
    alloc: Global,
    declarations: &Declarations<'_>,
    scope: &Scope<'_>,
    value: &Option<Expression>,
) -> Binding<Option<NamedExpression>>
    ensures { Binds result (optional (bound declarations.now scope.now) value.now) }
{
    match value {
        Some(value) => Ok(Some(expression(alloc, declarations, scope, value)?)),
        None => Ok(None),
    }
}
