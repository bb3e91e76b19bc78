//! Rules of WHERE clauses.

ghost use Rattle.std.specs.Prelude.{◌≡◌, IfOk};
ghost use Rattle.ex_types.specs.Declarations as spec;

use ex_kinds::{TypeFault, either};
use ex_named::NamedDomainRule;
use ex_typing::{Known, TypingScope, expression};
use std::alloc::{AllocError, Global};

/// The fault that is told of the conditions of a WHERE clause.
pub fn domain_rules(
    alloc: Global,
    schema: &Known,
    scope: &TypingScope<'_>,
    list: &[NamedDomainRule],
) -> Result<Option<TypeFault>, AllocError>
    ensures { IfOk result (λ told. told ≡ spec.domain_rules schema.now scope.now list.now) }
{
    let mut found = None;
    for rule in list {
        let condition = expression(alloc, schema, scope, &rule.condition)?;
        found = either(found, condition.fault);
    }
    Ok(found)
}
