//! References that lead out of the population, or to instances that declared types don't allow.

ghost use Rattle.std.specs.Prelude.{◌≡◌, slice_get};
ghost use Rattle.std.specs.List.{list_any};
ghost use Rattle.rp_meaning.specs.Faults as spec;
ghost use Rattle.rp_operations.specs.Seen.{holds_instance as spec_holds_instance};
ghost use Rattle.rp_operators.specs.Ends.{end_behind};
ghost use Rattle.rp_faults.specs.Tests.{allows_at, elements_astray_at, is_astray_at, named_astray_at};

use crate::faults::is_choice;
use ex_named::{NamedDataType, TypeName};
use rp_meaning::{DefinedType, Domain, Seen};
use rp_operations::holds_instance;
use rp_operators::{End, aggregate_type, behind_names, end_of, is_of};
use rp_value::{Elements, Value};

/// Whether an instance is of a choice of a SELECT.
pub fn allows_choice(instance: &Seen<'_>, choice: TypeName) -> bool
    ensures { result ≡ spec.allows_choice instance.now choice }
{
    match choice {
        TypeName::Entity(entity) => is_of(instance, entity),
        TypeName::Defined(_) => false,
    }
}

fn allows_one(instance: &Seen<'_>, choices: &[TypeName]) -> bool
    ensures { result ≡ list_any (spec.allows_choice instance.now) choices.now }
{
    for choice in choices {
        if allows_choice(instance, *choice) {
            return true;
        }
    }
    false
}

/// Whether a type allows an instance.
fn allows(instance: &Seen<'_>, end: End<'_>) -> bool
    ensures { result ≡ spec.allows instance.now (end_behind end.entry) }
{
    match end {
        End::Select(choices) => allows_one(instance, choices),
        End::Written(NamedDataType::Named(TypeName::Entity(entity))) => is_of(instance, *entity),
        _ => false,
    }
}

/// Whether a type allows what stands at a place.
fn allows_at<D: Domain>(domain: &D, place: usize, end: End<'_>) -> bool
    ensures { result ≡ allows_at (slice_get (D.population domain.now) place) (end_behind end.entry) }
{
    match domain.instance(place) {
        None => false,
        Some(instance) => allows(&instance, end),
    }
}

fn hold_instance(values: &[Value]) -> bool
    ensures { result ≡ list_any spec_holds_instance values.now }
{
    values.iter().any(|value| holds_instance(value))
}

/// Whether a reference in a value is at fault by a type.
#[cycle(astray)]
#[tactic(auto, using(crate::proofs::Astray::all_astray))]
fn is_astray_at<D: Domain>(value: &Value, types: &[DefinedType], domain: &D, end: End<'_>) -> bool
    ensures { result ≡ is_astray_at types.now (D.population domain.now) (end_behind end.entry) value.now }
{
    match value {
        Value::Inst(place) => !allows_at(domain, *place as usize, end),
        Value::Agg { kind: _, elements } => elements_astray(elements, types, domain, end),
        Value::Named {
            defined_type,
            value,
        } => named_astray(value.get(), *defined_type, types, domain, end),
        _ => false,
    }
}

/// Whether one is, in a value that is written under a defined type.
#[cycle(astray)]
fn named_astray<D: Domain>(
    value: &Value,
    number: usize,
    types: &[DefinedType],
    domain: &D,
    end: End<'_>,
) -> bool
    ensures { result ≡ named_astray_at types.now (D.population domain.now) (end_behind end.entry) number value.now }
{
    match end {
        End::Select(choices) => {
            if is_choice(choices, number) {
                is_astray_at(value, types, domain, end_of(types, number))
            } else {
                holds_instance(value)
            }
        }
        _ => is_astray_at(value, types, domain, end),
    }
}

/// Whether one in an aggregate is.
#[cycle(astray)]
fn elements_astray<D: Domain>(
    elements: &Elements<Value>,
    types: &[DefinedType],
    domain: &D,
    end: End<'_>,
) -> bool
    ensures { result ≡ elements_astray_at types.now (D.population domain.now) (end_behind end.entry) elements.now.items }
{
    match aggregate_type(end) {
        None => hold_instance(elements.as_slice()),
        Some(declared) => {
            let element = behind_names(types, declared.element);
            any_astray(elements.as_slice(), types, domain, element)
        }
    }
}

/// Whether one in some of the values is.
#[cycle(astray)]
fn any_astray<D: Domain>(values: &[Value], types: &[DefinedType], domain: &D, end: End<'_>) -> bool
    ensures { result ≡ list_any (is_astray_at types.now (D.population domain.now) (end_behind end.entry)) values.now }
{
    for value in values {
        if is_astray_at(value, types, domain, end) {
            return true;
        }
    }
    false
}

/// Whether a reference in a value is at fault by a declared type.
#[tactic(auto, unfolding(rp_meaning::specs::Faults::is_astray_by, crate::specs::Tests::is_astray_at))]
pub(crate) fn is_astray<D: Domain>(
    types: &[DefinedType],
    domain: &D,
    data_type: &NamedDataType,
    value: &Value,
) -> bool
    ensures { result ≡ spec.is_astray_by types.now (D.population domain.now) data_type.now value.now }
{
    is_astray_at(value, types, domain, behind_names(types, data_type))
}
