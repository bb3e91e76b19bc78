//! Functions and rules.

ghost use Rattle.std.specs.Prelude.{◌≡◌, ◌+◌, ◌++◌, map, length, IfOk, OnOk};
ghost use Rattle.ex_kinds.specs.Kinds.{of_type};
ghost use Rattle.rp_meaning.specs.Compiled as compiled;
ghost use Rattle.rp_meaning.specs.CompiledExpressions as expressions;
ghost use Rattle.rp_meaning.specs.CompiledStatements as statements_spec;
ghost use Rattle.rp_compile.specs.Declarations as spec;

use crate::expressions::{conditions, given};
use ex_kinds::{Kinds, kinds_of};
use ex_named::{
    NamedDataType, NamedFunction, NamedLocal, NamedParameter, NamedRule, NamedStatement,
};
use ex_tree::Name;
use ex_typing::TypingScope;
use plain_data::{Items, Rows};
use rp_code::{Routine, copied_type};
use rp_compile_trees::{Declared, both, push_made, statements};
use rp_meaning::{Algorithm, Function, GlobalRule, Initial};
use std::alloc::{AllocError, Global};

/// Puts a type behind the others, for each of these names.
fn push_for_each<'s>(
    found: &mut Vec<&'s NamedDataType>,
    names: &[Name],
    data_type: &'s NamedDataType,
) -> Result<(), AllocError>
    ensures types { OnOk result (map (λ t. t.now) found.new.items ≡ map (λ t. t.now) found.old.items ++ map (λ _. data_type.now) names.now) }
    ensures count { OnOk result (length found.new.items ≡ length found.old.items + length names.now) }
{
    for _name in names {
        found.push(data_type)?;
    }
    Ok(())
}

/// The types of parameters.
fn parameter_types(
    alloc: Global,
    list: &[NamedParameter],
) -> Result<Vec<&NamedDataType>, AllocError>
    ensures { IfOk result (λ found. map (λ t. t.now) found.items ≡ compiled.of_parameters list.now) }
{
    let mut found = Vec::new(alloc);
    for parameter in list {
        push_for_each(&mut found, parameter.names.as_slice(), &parameter.data_type)?;
    }
    Ok(found)
}

/// The types of local variables.
fn local_types(alloc: Global, list: &[NamedLocal]) -> Result<Vec<&NamedDataType>, AllocError>
    ensures types { IfOk result (λ found. map (λ t. t.now) found.items ≡ compiled.of_locals list.now) }
    ensures count { IfOk result (λ found. length found.items ≡ length (compiled.of_locals list.now)) }
{
    let mut found = Vec::new(alloc);
    for local in list {
        push_for_each(&mut found, local.names.as_slice(), &local.data_type)?;
    }
    Ok(found)
}

/// These types, and others behind them.
fn joined_types<'s>(
    alloc: Global,
    types: &[&'s NamedDataType],
    others: &[&'s NamedDataType],
) -> Result<Vec<&'s NamedDataType>, AllocError>
    ensures { IfOk result (λ found. map (λ t. t.now) found.items ≡ map (λ t. t.now) types.now ++ map (λ t. t.now) others.now) }
{
    let mut found = Vec::from_slice(alloc, types)?;
    found.extend_from_slice(others)?;
    Ok(found)
}

/// What variables of these types may be.
fn frame(alloc: Global, types: &[&NamedDataType]) -> Result<Rows<Kinds>, AllocError>
    ensures { IfOk result (λ found. found ≡ map of_type (map (λ t. t.now) types.now)) }
{
    let mut found = Rows::new(alloc);
    for data_type in types {
        found.push(kinds_of(alloc, data_type)?)?;
    }
    Ok(found)
}

/// Copies of these types.
fn copied_types(alloc: Global, types: &[&NamedDataType]) -> Result<Items<NamedDataType>, AllocError>
    ensures { IfOk result (λ found. found ≡ map (λ t. t.now) types.now) }
{
    let mut found = Items::new(alloc);
    for data_type in types {
        push_made(&mut found, copied_type(alloc, data_type))?;
    }
    Ok(found)
}

/// Puts the initial value of locals behind the others, if they have one.
fn push_initial(
    alloc: Global,
    schema: &Declared<'_>,
    scope: &TypingScope<'_>,
    found: &mut Items<Initial>,
    slot: usize,
    local: &NamedLocal,
) -> Result<(), AllocError>
    ensures { OnOk result (found.new ≡ found.old ++ spec.initial schema.now scope.now slot local.now) }
{
    if let Some(value) = &local.value {
        let given = given(alloc, schema, scope, &local.data_type, value)?;
        let count = local.names.len();
        found.push(Initial { slot, count, given })?;
    }
    Ok(())
}

/// The locals behind these parameters that have an initial value.
fn initials<'s>(
    alloc: Global,
    schema: &Declared<'_>,
    scope: &TypingScope<'_>,
    parameters: &[&'s NamedDataType],
    list: &'s [NamedLocal],
) -> Result<Items<Initial>, AllocError>
    ensures { IfOk result (λ found. found ≡ spec.initial_from schema.now scope.now (length parameters.now) list.now) }
{
    let mut variables = Vec::from_slice(alloc, parameters)?;
    let mut found = Items::new(alloc);
    for local in list {
        push_initial(alloc, schema, scope, &mut found, variables.len(), local)?;
        push_for_each(&mut variables, local.names.as_slice(), &local.data_type)?;
    }
    Ok(found)
}

/// The instructions of statements, where variables are declared with these types. The trees are dropped once they are written.
fn routine(
    alloc: Global,
    schema: &Declared<'_>,
    scope: &TypingScope<'_>,
    list: &[NamedStatement],
    types: &[&NamedDataType],
) -> Result<Routine, AllocError>
    ensures { IfOk result (λ routine. routine ≡ statements_spec.statements (expressions.expression schema.now) (map (λ t. t.now) types.now) scope.now list.now) }
{
    let trees = statements(alloc, schema, scope, list, types)?;
    Routine::of(alloc, trees.as_slice())
}

/// So many locals behind these parameters, and statements, where variables are declared with these types.
fn algorithm(
    alloc: Global,
    schema: &Declared<'_>,
    scope: &TypingScope<'_>,
    types: &[&NamedDataType],
    parameters: &[&NamedDataType],
    count: usize,
    locals: &[NamedLocal],
    list: &[NamedStatement],
) -> Result<Algorithm, AllocError>
    ensures { IfOk result (λ found. found ≡ spec.algorithm_by schema.now scope.now (map (λ t. t.now) types.now) (length parameters.now) count locals.now list.now) }
{
    let (initial, statements) = both(
        initials(alloc, schema, scope, parameters, locals),
        routine(alloc, schema, scope, list, types),
    )?;
    Ok(Algorithm {
        locals: count,
        initial,
        statements,
    })
}

/// What a function runs.
fn function_body(
    alloc: Global,
    schema: &Declared<'_>,
    function: &NamedFunction,
    parameters: &[&NamedDataType],
) -> Result<Algorithm, AllocError>
    requires { map (λ t. t.now) parameters.now ≡ compiled.of_parameters function.now.parameters }
    ensures { IfOk result (λ found. found ≡ spec.function_body schema.now function.now) }
{
    let locals = local_types(alloc, function.locals.as_slice())?;
    let types = joined_types(alloc, parameters, &locals)?;
    let frame = frame(alloc, &types)?;
    let result_kinds = kinds_of(alloc, &function.result)?;
    let scope = TypingScope::new(alloc, None, &[], frame.as_slice(), result_kinds.as_slice());
    algorithm(
        alloc,
        schema,
        &scope,
        &types,
        parameters,
        locals.len(),
        function.locals.as_slice(),
        function.statements.as_slice(),
    )
}

fn function(
    alloc: Global,
    schema: &Declared<'_>,
    function: &NamedFunction,
) -> Result<Function, AllocError>
    ensures { IfOk result (λ found. found ≡ spec.function schema.now function.now) }
{
    let types = parameter_types(alloc, function.parameters.as_slice())?;
    let copies = both(
        copied_types(alloc, &types),
        copied_type(alloc, &function.result),
    );
    let body = function_body(alloc, schema, function, &types);
    let ((parameters, result), algorithm) = both(copies, body)?;
    Ok(Function {
        parameters,
        result,
        algorithm,
    })
}

pub(crate) fn functions(
    alloc: Global,
    schema: &Declared<'_>,
    list: &[NamedFunction],
) -> Result<Items<Function>, AllocError>
    ensures { IfOk result (λ found. found ≡ map (spec.function schema.now) list.now) }
{
    let mut found = Items::new(alloc);
    for declared in list {
        push_made(&mut found, function(alloc, schema, declared))?;
    }
    Ok(found)
}

fn rule(alloc: Global, schema: &Declared<'_>, rule: &NamedRule) -> Result<GlobalRule, AllocError>
    ensures { IfOk result (λ found. found ≡ spec.rule schema.now rule.now) }
{
    let types = local_types(alloc, rule.locals.as_slice())?;
    let frame = frame(alloc, &types)?;
    let scope = TypingScope::new(alloc, None, &[], frame.as_slice(), &[]);
    let algorithm = algorithm(
        alloc,
        schema,
        &scope,
        &types,
        &[],
        types.len(),
        rule.locals.as_slice(),
        rule.statements.as_slice(),
    )?;
    let domain_rules = conditions(alloc, schema, &scope, rule.domain_rules.as_slice())?;
    Ok(GlobalRule {
        algorithm,
        domain_rules,
    })
}

pub(crate) fn rules(
    alloc: Global,
    schema: &Declared<'_>,
    list: &[NamedRule],
) -> Result<Items<GlobalRule>, AllocError>
    ensures { IfOk result (λ found. found ≡ map (spec.rule schema.now) list.now) }
{
    let mut found = Items::new(alloc);
    for declared in list {
        push_made(&mut found, rule(alloc, schema, declared))?;
    }
    Ok(found)
}
