//! What gives values, and the conditions of WHERE clauses.

ghost use Rattle.std.specs.Prelude.{◌≡◌, map, IfOk};
ghost use Rattle.rp_meaning.specs.CompiledExpressions as expressions;
ghost use Rattle.rp_compile.specs.Declarations as spec;

use ex_named::{NamedConstant, NamedDataType, NamedDomainRule, NamedExpression};
use ex_typing::TypingScope;
use plain_data::Items;
use rp_code::{Code, copied_type};
use rp_compile_trees::{Declared, both, expression, push_made};
use rp_meaning::Given;
use std::alloc::{AllocError, Global};

/// The instructions of an expression, whose tree is dropped once they are written.
fn code(
    alloc: Global,
    schema: &Declared<'_>,
    scope: &TypingScope<'_>,
    tree: &NamedExpression,
) -> Result<Code, AllocError>
    ensures { IfOk result (λ code. code ≡ expressions.expression schema.now scope.now tree.now) }
{
    let tree = expression(alloc, schema, scope, tree)?;
    Code::of(alloc, &tree)
}

/// What gives a value to a constant, an attribute or variables of this type.
pub(crate) fn given(
    alloc: Global,
    schema: &Declared<'_>,
    scope: &TypingScope<'_>,
    data_type: &NamedDataType,
    value: &NamedExpression,
) -> Result<Given, AllocError>
    ensures { IfOk result (λ found. found ≡ spec.given schema.now scope.now data_type.now value.now) }
{
    let (data_type, value) = both(
        copied_type(alloc, data_type),
        code(alloc, schema, scope, value),
    )?;
    Ok(Given { data_type, value })
}

/// The conditions of a WHERE clause.
pub(crate) fn conditions(
    alloc: Global,
    schema: &Declared<'_>,
    scope: &TypingScope<'_>,
    rules: &[NamedDomainRule],
) -> Result<Items<Code>, AllocError>
    ensures { IfOk result (λ found. found ≡ spec.conditions schema.now scope.now rules.now) }
{
    let mut found = Items::new(alloc);
    for rule in rules {
        push_made(&mut found, code(alloc, schema, scope, &rule.condition))?;
    }
    Ok(found)
}

/// What gives the constants their values.
pub(crate) fn constants(
    alloc: Global,
    schema: &Declared<'_>,
    list: &[NamedConstant],
) -> Result<Items<Given>, AllocError>
    ensures { IfOk result (λ found. found ≡ map (spec.constant schema.now) list.now) }
{
    let scope = TypingScope::new(alloc, None, &[], &[], &[]);
    let mut found = Items::new(alloc);
    for constant in list {
        let given = given(alloc, schema, &scope, &constant.data_type, &constant.value);
        push_made(&mut found, given)?;
    }
    Ok(found)
}
