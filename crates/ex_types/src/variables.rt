//! Parameters and local variables.

ghost use Rattle.std.specs.Prelude.{◌≡◌, ◌++◌, Some, IfOk, OnOk};
ghost use Rattle.ex_kinds.specs.Kinds.{of_type};
ghost use Rattle.ex_types.specs.Declarations as spec;

use ex_kinds::{Kinds, TypeFault, copied, either, kinds_of};
use ex_named::{NamedDataType, NamedExpression, NamedLocal, NamedParameter};
use ex_operators::fits;
use ex_tree::Name;
use ex_typing::{Known, TypingScope, expression};
use ex_typing_statements::assign_unless;
use plain_data::Rows;
use std::alloc::{AllocError, Global};

/// Puts the kinds of a declared type behind the others, for each of its names.
fn push_for_each(
    alloc: Global,
    found: &mut Rows<Kinds>,
    names: &[Name],
    data_type: &NamedDataType,
) -> Result<(), AllocError>
    ensures { OnOk result (found.new ≡ found.old ++ spec.for_each names.now (of_type data_type.now)) }
{
    let kinds = kinds_of(alloc, data_type)?;
    for _name in names {
        found.push(copied(alloc, kinds.as_slice())?)?;
    }
    Ok(())
}

/// What the parameters may be.
pub fn parameters(alloc: Global, list: &[NamedParameter]) -> Result<Rows<Kinds>, AllocError>
    ensures { IfOk result (λ found. found ≡ spec.parameters list.now) }
{
    let mut found = Rows::new(alloc);
    for parameter in list {
        push_for_each(
            alloc,
            &mut found,
            parameter.names.as_slice(),
            &parameter.data_type,
        )?;
    }
    Ok(found)
}

/// Puts what the local variables may be behind the others.
pub fn push_locals(
    alloc: Global,
    found: &mut Rows<Kinds>,
    list: &[NamedLocal],
) -> Result<(), AllocError>
    ensures { OnOk result (found.new ≡ found.old ++ spec.locals list.now) }
{
    for local in list {
        push_for_each(alloc, found, local.names.as_slice(), &local.data_type)?;
    }
    Ok(())
}

/// The fault of a value that doesn't fit, at the first of the names that are given it.
#[tactic(auto, unfolding(crate::specs::Declarations::each_unless))]
fn each_unless(fine: bool, names: &[Name]) -> Option<TypeFault>
    ensures { result ≡ spec.each_unless fine names.now }
{
    let mut found = None;
    for name in names {
        found = either(found, assign_unless(fine, name.at));
    }
    found
}

/// The fault of a local variable's initial value.
fn initial(
    alloc: Global,
    schema: &Known,
    scope: &TypingScope<'_>,
    local: &NamedLocal,
    value: &NamedExpression,
) -> Result<Option<TypeFault>, AllocError>
    ensures { IfOk result (λ told. told ≡ spec.local_by schema.now scope.now local.now (Some value.now)) }
{
    let value = expression(alloc, schema, scope, value)?;
    let place = kinds_of(alloc, &local.data_type)?;
    let fine = fits(
        alloc,
        schema.types(),
        value.kinds.as_slice(),
        place.as_slice(),
    )?;
    Ok(either(value.fault, each_unless(fine, local.names.as_slice())))
}

fn local_variable(
    alloc: Global,
    schema: &Known,
    scope: &TypingScope<'_>,
    local: &NamedLocal,
) -> Result<Option<TypeFault>, AllocError>
    ensures { IfOk result (λ told. told ≡ spec.local schema.now scope.now local.now) }
{
    match &local.value {
        Some(value) => initial(alloc, schema, scope, local, value),
        None => Ok(None),
    }
}

/// The fault that is told of local variables.
pub fn locals(
    alloc: Global,
    schema: &Known,
    scope: &TypingScope<'_>,
    list: &[NamedLocal],
) -> Result<Option<TypeFault>, AllocError>
    ensures { IfOk result (λ told. told ≡ spec.told (spec.local schema.now scope.now) list.now) }
{
    let mut found = None;
    for local in list {
        let told = local_variable(alloc, schema, scope, local)?;
        found = either(found, told);
    }
    Ok(found)
}
