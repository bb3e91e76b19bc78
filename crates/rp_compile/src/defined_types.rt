//! Defined types.

ghost use Rattle.std.specs.Prelude.{◌≡◌, IfOk};
ghost use Rattle.plain_data.specs.Numbers.{numbered};
ghost use Rattle.ex_renamings.specs.Renamings as renamings;
ghost use Rattle.rp_meaning.specs.CompiledTypes as types_spec;
ghost use Rattle.rp_compile.specs.Declarations as spec;

use crate::expressions::conditions;
use ex_kinds::{Sort, kinds_of_one};
use ex_named::{NamedDataType, NamedDomainRule, NamedType, NamedUnderlying, TypeName};
use ex_renamings::Renamings;
use ex_typing::TypingScope;
use plain_data::{Items, Rows};
use rp_code::{Code, copied_type};
use rp_compile_names::{choices, joined, selection, selects};
use rp_compile_trees::{Declared, both, push_made};
use rp_meaning::{DefinedType, Underlying};
use std::alloc::{AllocError, Global};

fn underlying_by(
    alloc: Global,
    number: usize,
    underlying: &NamedUnderlying,
) -> Result<Underlying, AllocError>
    ensures { IfOk result (λ found. found ≡ types_spec.underlying_by number underlying.now) }
{
    match underlying {
        NamedUnderlying::Enumeration(_) => Ok(Underlying::Enumeration(number)),
        NamedUnderlying::Select(_) => Ok(Underlying::Select),
        NamedUnderlying::Data(data_type) => Ok(Underlying::Data(copied_type(alloc, data_type)?)),
    }
}

/// What a defined type is behind all names.
fn underlying(alloc: Global, types: &Renamings<'_>, number: usize) -> Result<Underlying, AllocError>
    ensures { IfOk result (λ found. found ≡ types_spec.underlying types.now number) }
{
    let end = types.end(number);
    match types.types().get(end) {
        Some(declared) => underlying_by(alloc, end, &declared.underlying),
        None => Ok(Underlying::Select),
    }
}

/// The type that a type renames; itself, where it renames none.
fn renamed(types: &[NamedType], number: usize) -> usize
    ensures { result ≡ renamings.renamed types.now number }
{
    match types.get(number) {
        Some(declared) => renamed_by(number, &declared.underlying),
        None => number,
    }
}

fn renamed_by(number: usize, underlying: &NamedUnderlying) -> usize
    ensures { result ≡ renamings.renamed_by number underlying.now }
{
    match underlying {
        NamedUnderlying::Data(NamedDataType::Named(TypeName::Defined(other))) => *other,
        _ => number,
    }
}

/// The types that one renames, the nearest first.
fn beneath(alloc: Global, types: &[NamedType], number: usize) -> Result<Items<usize>, AllocError>
    ensures { IfOk result (λ found. found ≡ types_spec.beneath types.now number) }
{
    let mut found = Items::new(alloc);
    let mut last = number;
    for _turn in 0..types.len() {
        let next = renamed(types, last);
        if next == last {
            return Ok(found);
        }
        found.push(next)?;
        last = next;
    }
    Ok(found)
}

/// The conditions of a defined type's WHERE clause, in which SELF is of the type.
fn type_rules(
    alloc: Global,
    schema: &Declared<'_>,
    number: usize,
    rules: &[NamedDomainRule],
) -> Result<Items<Code>, AllocError>
    ensures { IfOk result (λ found. found ≡ spec.type_rules schema.now number rules.now) }
{
    let itself = kinds_of_one(alloc, Sort::Defined(number))?;
    let scope = TypingScope::new(alloc, None, itself.as_slice(), &[], &[]);
    conditions(alloc, schema, &scope, rules)
}

/// The SELECTs that a type is and has among its members, and what these choose from.
fn selected(
    alloc: Global,
    types: &Renamings<'_>,
    graph: &[Rows<usize>],
    number: usize,
) -> Result<(Items<usize>, Items<TypeName>), AllocError>
    requires { graph.now ≡ types_spec.selection types.now }
    ensures selects { IfOk result (λ found. found.0 ≡ types_spec.selects types.now number) }
    ensures choices { IfOk result (λ found. found.1 ≡ types_spec.choices types.now number) }
{
    let selects = selects(alloc, types, graph, number)?;
    let choices = choices(alloc, types, selects.as_slice())?;
    Ok((selects, choices))
}

fn defined_type(
    alloc: Global,
    schema: &Declared<'_>,
    schema_name: &str,
    types: &Renamings<'_>,
    graph: &[Rows<usize>],
    number: usize,
    declared: &NamedType,
) -> Result<DefinedType, AllocError>
    requires { graph.now ≡ types_spec.selection types.now }
    ensures { IfOk result (λ found. found ≡ spec.defined_type schema.now schema_name.now types.now number declared.now) }
{
    let name = joined(alloc, schema_name, declared.name.text.as_str());
    let renamed = both(
        beneath(alloc, types.types(), number),
        underlying(alloc, types, number),
    );
    let selected = selected(alloc, types, graph, number);
    let rules = type_rules(alloc, schema, number, declared.domain_rules.as_slice());
    let ((name, domain_rules), ((beneath, underlying), (selects, choices))) = both(
        both(name, rules),
        both(renamed, selected),
    )?;
    Ok(DefinedType {
        name,
        beneath,
        underlying,
        selects,
        choices,
        domain_rules,
    })
}

/// The defined types of a schema of this name.
pub(crate) fn defined_types(
    alloc: Global,
    schema: &Declared<'_>,
    schema_name: &str,
    list: &[NamedType],
) -> Result<Items<DefinedType>, AllocError>
    ensures { IfOk result (λ found. found ≡ numbered (spec.defined_type schema.now schema_name.now list.now) list.now) }
{
    let types = Renamings::of(alloc, list)?;
    let graph = selection(alloc, &types)?;
    let mut found = Items::new(alloc);
    for (number, declared) in list.iter().enumerate() {
        let compiled = defined_type(alloc, schema, schema_name, &types, &graph, number, declared);
        push_made(&mut found, compiled)?;
    }
    Ok(found)
}
