//! Values that are given to places.

ghost use Rattle.std.specs.Prelude.{◌≡◌, IfOk};
ghost use Rattle.ex_typing.specs.Expressions as expressions;
ghost use Rattle.ex_typing_statements.specs.Statements as spec;

use ex_kinds::{TypeFault, TypeFaultKind, ValueKind, either, fault_at};
use ex_named::NamedExpression;
use ex_operators::fits;
use ex_typing::{Known, TypingScope, expression};
use std::alloc::{AllocError, Global};

/// The fault that is told of a tree, if there is one.
pub(crate) type Told = Result<Option<TypeFault>, AllocError>;

/// The fault that is told of an expression.
pub(crate) fn fault_of(
    alloc: Global,
    schema: &Known,
    scope: &TypingScope<'_>,
    value: &NamedExpression,
) -> Told
    ensures { IfOk result (λ told. told ≡ (expressions.expression schema.now scope.now value.now).fault) }
{
    let value = expression(alloc, schema, scope, value)?;
    Ok(value.fault)
}

/// The fault of a value that doesn't fit its place, whose name stands there.
pub fn assign_unless(fine: bool, at: usize) -> Option<TypeFault>
    ensures { result ≡ spec.assign_unless fine at }
{
    if fine {
        None
    } else {
        fault_at(TypeFaultKind::Assign, at)
    }
}

/// The fault that is told of a value that is given to a place of these kinds, whose name stands there.
#[tactic(auto, unfolding(crate::specs::Statements::assigned))]
pub fn assigned(
    alloc: Global,
    schema: &Known,
    scope: &TypingScope<'_>,
    place: &[ValueKind],
    at: usize,
    value: &NamedExpression,
) -> Result<Option<TypeFault>, AllocError>
    ensures { IfOk result (λ told. told ≡ spec.assigned schema.now scope.now place.now at value.now) }
{
    let value = expression(alloc, schema, scope, value)?;
    let fine = fits(alloc, schema.types(), value.kinds.as_slice(), place)?;
    Ok(either(value.fault, assign_unless(fine, at)))
}
