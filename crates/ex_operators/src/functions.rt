//! Calls of functions.

ghost use Rattle.std.specs.Prelude.{◌≡◌, [], ◌∷◌, IfOk};
ghost use Rattle.plain_data.specs.Gives.{Gives};
ghost use Rattle.ex_kinds.specs.Kinds as kinds;
ghost use Rattle.ex_kinds.specs.declared.fault.TypeFaultKind.TheVariants.{Arguments};
ghost use Rattle.ex_operators.specs.Operators as rules;
ghost use Rattle.ex_operators.specs.Taken as spec;

use crate::fitting::all_fit;
use crate::operand::Operand;
use crate::possibilities::{
    can_be_aggregate, can_be_binary, can_be_instance, can_be_integer, can_be_string,
};
use crate::ruling::{Ruling, logical, or_else_fault};
use crate::taken::elements_of;
use ex_kinds::{
    Kinds, Sort, TypeFaultKind, Types, ValueKind, aggregate_of, copied, join, kinds_of_one,
};
use ex_tree::BuiltInFunction;
use plain_data::Failure;
use std::alloc::{AllocError, Global};

/// What a built-in function gives for these arguments, in a schema with or without entities.
#[tactic(auto, unfolding(crate::specs::Taken::built_in))]
pub fn built_in(
    alloc: Global,
    types: &Types,
    has_entities: bool,
    function: BuiltInFunction,
    arguments: &[Kinds],
) -> Ruling
    ensures { Gives (λ kinds. kinds) result (spec.built_in types.now has_entities function arguments.now) }
{
    match arguments {
        [argument] => of_one(alloc, types, has_entities, function, argument.as_slice()),
        [first, second] => of_two(
            alloc,
            types,
            has_entities,
            function,
            first.as_slice(),
            second.as_slice(),
        ),
        _ => Err(Failure::Fault(TypeFaultKind::Arguments)),
    }
}

/// What a function of the schema gives for these arguments.
#[tactic(auto, unfolding(crate::specs::Taken::called))]
pub fn called(
    alloc: Global,
    types: &Types,
    parameters: &[Kinds],
    result_kinds: &[ValueKind],
    arguments: &[Kinds],
) -> Ruling
    ensures { Gives (λ kinds. kinds) result (spec.called types.now parameters.now result_kinds.now arguments.now) }
{
    let fine = all_fit(alloc, types, arguments, parameters)?;
    or_else_fault(fine, TypeFaultKind::Arguments, copied(alloc, result_kinds)?)
}

fn integer_if(alloc: Global, fine: bool) -> Ruling
    ensures { Gives (λ kinds. kinds) result (rules.or_else_fault fine Arguments spec.integer) }
{
    let integer = kinds_of_one(alloc, Sort::Integer)?;
    or_else_fault(fine, TypeFaultKind::Arguments, integer)
}

fn logical_if(alloc: Global, fine: bool) -> Ruling
    ensures { Gives (λ kinds. kinds) result (rules.or_else_fault fine Arguments rules.logical) }
{
    or_else_fault(fine, TypeFaultKind::Arguments, logical(alloc)?)
}

/// An aggregate whose elements are of one kind.
fn aggregate_of_one(alloc: Global, sort: Sort) -> Result<Kinds, AllocError>
    ensures { IfOk result (λ found. found ≡ kinds.aggregate_of (kinds.itself sort ∷ [])) }
{
    let element = kinds_of_one(alloc, sort)?;
    aggregate_of(alloc, element.as_slice())
}

/// A call with one argument.
#[tactic(auto, unfolding(crate::specs::Taken::built_in))]
fn of_one(
    alloc: Global,
    types: &Types,
    _has_entities: bool,
    function: BuiltInFunction,
    argument: &[ValueKind],
) -> Ruling
    ensures { Gives (λ kinds. kinds) result (spec.built_in types.now _has_entities function (argument.now ∷ [])) }
{
    let possible = Operand::of(types, argument);
    match function {
        BuiltInFunction::Abs => integer_if(alloc, can_be_integer(&possible)),
        BuiltInFunction::BLength => integer_if(alloc, can_be_binary(&possible)),
        BuiltInFunction::Exists => Ok(logical(alloc)?),
        BuiltInFunction::HiIndex | BuiltInFunction::LoIndex | BuiltInFunction::SizeOf => {
            integer_if(alloc, can_be_aggregate(&possible))
        }
        BuiltInFunction::Length => integer_if(alloc, can_be_string(&possible)),
        BuiltInFunction::Odd => logical_if(alloc, can_be_integer(&possible)),
        BuiltInFunction::TypeOf => Ok(aggregate_of_one(alloc, Sort::String)?),
        BuiltInFunction::Nvl | BuiltInFunction::UsedIn | BuiltInFunction::ValueIn => {
            Err(Failure::Fault(TypeFaultKind::Arguments))
        }
    }
}

/// A call with two arguments.
#[tactic(auto, unfolding(crate::specs::Taken::built_in))]
fn of_two(
    alloc: Global,
    types: &Types,
    has_entities: bool,
    function: BuiltInFunction,
    first: &[ValueKind],
    second: &[ValueKind],
) -> Ruling
    ensures { Gives (λ kinds. kinds) result (spec.built_in types.now has_entities function (first.now ∷ second.now ∷ [])) }
{
    match function {
        BuiltInFunction::Nvl => Ok(either(alloc, first, second)?),
        BuiltInFunction::UsedIn => used_in(alloc, types, has_entities, first, second),
        BuiltInFunction::ValueIn => value_in(alloc, types, first),
        BuiltInFunction::Abs
        | BuiltInFunction::BLength
        | BuiltInFunction::Exists
        | BuiltInFunction::HiIndex
        | BuiltInFunction::Length
        | BuiltInFunction::LoIndex
        | BuiltInFunction::Odd
        | BuiltInFunction::SizeOf
        | BuiltInFunction::TypeOf => Err(Failure::Fault(TypeFaultKind::Arguments)),
    }
}

fn either(alloc: Global, first: &[ValueKind], second: &[ValueKind]) -> Result<Kinds, AllocError>
    ensures { IfOk result (λ found. found ≡ kinds.joined first.now second.now) }
{
    let mut found = copied(alloc, first)?;
    join(&mut found, second)?;
    Ok(found)
}

/// The instances that use an instance: in a schema without entities they are of no kind.
fn users(alloc: Global, has_entities: bool) -> Result<Kinds, AllocError>
    ensures { IfOk result (λ found. found ≡ spec.users has_entities) }
{
    if has_entities {
        aggregate_of_one(alloc, Sort::Instance)
    } else {
        aggregate_of(alloc, &[])
    }
}

fn used_in(
    alloc: Global,
    types: &Types,
    has_entities: bool,
    first: &[ValueKind],
    second: &[ValueKind],
) -> Ruling
    ensures { Gives (λ kinds. kinds) result (spec.used_in types.now has_entities first.now second.now) }
{
    let instance = Operand::of(types, first);
    let role = Operand::of(types, second);
    let fine = can_be_instance(&instance) && can_be_string(&role);
    or_else_fault(fine, TypeFaultKind::Arguments, users(alloc, has_entities)?)
}

/// An aggregate of instances can be searched for no value by `=`.
fn value_in(alloc: Global, types: &Types, aggregate: &[ValueKind]) -> Ruling
    ensures { Gives (λ kinds. kinds) result (spec.value_in types.now aggregate.now) }
{
    let elements = elements_of(alloc, types, aggregate)?;
    if types.may_hold_instance(elements.as_slice()) {
        return Err(Failure::Fault(TypeFaultKind::EntityComparison));
    }
    let possible = Operand::of(types, aggregate);
    logical_if(alloc, can_be_aggregate(&possible))
}

/// What a built-in function gives whatever its arguments are.
pub fn built_in_anyway(
    alloc: Global,
    has_entities: bool,
    function: BuiltInFunction,
) -> Result<Kinds, AllocError>
    ensures { IfOk result (λ found. found ≡ spec.built_in_anyway has_entities function) }
{
    match function {
        BuiltInFunction::Exists | BuiltInFunction::Odd | BuiltInFunction::ValueIn => logical(alloc),
        BuiltInFunction::Nvl => Ok(Kinds::new(alloc)),
        BuiltInFunction::TypeOf => aggregate_of_one(alloc, Sort::String),
        BuiltInFunction::UsedIn => users(alloc, has_entities),
        _ => kinds_of_one(alloc, Sort::Integer),
    }
}
