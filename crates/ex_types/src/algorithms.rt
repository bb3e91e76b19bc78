//! Functions and rules.

ghost use Rattle.std.specs.Prelude.{◌≡◌, IfOk};
ghost use Rattle.ex_types.specs.Declarations as spec;

use crate::rules::domain_rules;
use crate::variables::{locals, parameters, push_locals};
use ex_kinds::{TypeFault, either, kinds_of};
use ex_named::{NamedFunction, NamedRule};
use ex_typing::{Known, TypingScope};
use ex_typing_statements::statements;
use plain_data::Rows;
use std::alloc::{AllocError, Global};

#[tactic(auto, unfolding(crate::specs::Declarations::function))]
fn function(
    alloc: Global,
    schema: &Known,
    function: &NamedFunction,
) -> Result<Option<TypeFault>, AllocError>
    ensures { IfOk result (λ told. told ≡ spec.function schema.now function.now) }
{
    let mut frame = parameters(alloc, function.parameters.as_slice())?;
    push_locals(alloc, &mut frame, function.locals.as_slice())?;
    let result_kinds = kinds_of(alloc, &function.result)?;
    let scope = TypingScope::new(alloc, None, &[], frame.as_slice(), result_kinds.as_slice());
    let variables = locals(alloc, schema, &scope, function.locals.as_slice())?;
    let body = statements(alloc, schema, &scope, function.statements.as_slice())?;
    Ok(either(variables, body))
}

/// The fault that is told of functions.
pub fn all_functions(
    alloc: Global,
    schema: &Known,
    functions: &[NamedFunction],
) -> Result<Option<TypeFault>, AllocError>
    ensures { IfOk result (λ told. told ≡ spec.told (spec.function schema.now) functions.now) }
{
    let mut found = None;
    for each in functions {
        let told = function(alloc, schema, each)?;
        found = either(found, told);
    }
    Ok(found)
}

#[tactic(auto, unfolding(crate::specs::Declarations::rule))]
fn rule(alloc: Global, schema: &Known, rule: &NamedRule) -> Result<Option<TypeFault>, AllocError>
    ensures { IfOk result (λ told. told ≡ spec.rule schema.now rule.now) }
{
    let mut frame = Rows::new(alloc);
    push_locals(alloc, &mut frame, rule.locals.as_slice())?;
    let scope = TypingScope::new(alloc, None, &[], frame.as_slice(), &[]);
    let variables = locals(alloc, schema, &scope, rule.locals.as_slice())?;
    let body = statements(alloc, schema, &scope, rule.statements.as_slice())?;
    let conditions = domain_rules(alloc, schema, &scope, rule.domain_rules.as_slice())?;
    Ok(either(either(variables, body), conditions))
}

/// The fault that is told of rules.
pub fn all_rules(
    alloc: Global,
    schema: &Known,
    rules: &[NamedRule],
) -> Result<Option<TypeFault>, AllocError>
    ensures { IfOk result (λ told. told ≡ spec.told (spec.rule schema.now) rules.now) }
{
    let mut found = None;
    for each in rules {
        let told = rule(alloc, schema, each)?;
        found = either(found, told);
    }
    Ok(found)
}
