//! What values become by the types with which attributes, variables, parameters, results and constants are declared.

ghost use Rattle.std.specs.Prelude.{◌≡◌, ◌++◌, IfOk, OnOk, map, true, ℕ, ℤ, List};
ghost use Rattle.std.specs.Option.{option_map};
ghost use Rattle.ex_named.specs.declared.expression.NamedDataType.{out-NamedDataType};
ghost use Rattle.ex_named.specs.declared.expression.NamedDataType.TheVariants as d;
ghost use Rattle.rp_meaning.specs.Bare.{bare as spec_bare};
ghost use Rattle.rp_meaning.specs.Types as spec;
ghost use Rattle.rp_meaning.specs.declared.schema.DefinedType.{DefinedType};
ghost use Rattle.rp_numbers.specs.declared.Logical.{Logical};
ghost use Rattle.rp_operators.specs.Ends.{aggregate_type_behind, element_under, elements_under, inside, takes, under};
ghost use Rattle.rp_value.specs.declared.value.Value.{Value};
ghost use Rattle.rp_value.specs.declared.value.Value.TheOpen.{Value-F};
ghost use Rattle.rp_value.specs.declared.value.Value.TheVariants as v;

use crate::bare::{Bare, beneath_names, carried, is_indeterminate, without_names};
use crate::ends::{
    AggregateType, End, behind_names, changes_nothing, end_of, fits, inner_type, is_of_simple,
    is_of_some_choice,
};
use ex_named::{NamedDataType, TypeName};
use ex_tree::SimpleType;
use plain_data::Items;
use rp_meaning::DefinedType;
use rp_operations::aggregate_union;
use rp_value::{AggregateKind, Elements, Value};
use std::alloc::{AllocError, Global};

// ---- what stays as it is

/// Whether a value carries a defined type, and that one alone.
#[tactic(auto, using(crate::proofs::Sights::named_alone))]
fn carries_alone(value: &Value, number: usize) -> bool
    ensures { result ≡ true → v.Named number (spec_bare value.now) ≡ value.now }
{
    match value {
        Value::Named {
            defined_type,
            value: inner,
        } => *defined_type == number && carried(inner.get()).is_none(),
        _ => false,
    }
}

/// Whether a value that is read through a type carries what it did before.
#[tactic(auto, using(crate::proofs::Sights::bare_itself))]
fn keeps_names(types: &[DefinedType], data_type: &NamedDataType, value: &Value) -> bool
    ensures { result ≡ true → spec.named_in types.now (out-NamedDataType data_type.now) value.now ≡ value.now }
{
    let NamedDataType::Named(TypeName::Defined(number)) = data_type else {
        return true;
    };
    match end_of(types, *number) {
        End::Enumeration(declaring) if declaring == *number => carried(value).is_none(),
        End::Select(_) => true,
        _ => carries_alone(value, *number),
    }
}

/// Whether an aggregate of this kind keeps it.
fn keeps_kind(declared: Option<(AggregateKind, i64)>, kind: AggregateKind) -> bool
    ensures { result ≡ true → (low : ℤ) (items : List Value) → spec.as_aggregate declared kind low items ≡ v.Agg kind (record { low = low; items = items }) }
{
    match (declared, kind) {
        (Some(_), AggregateKind::Initializer) => false,
        _ => true,
    }
}

/// Whether a value of the kind of a type stays as it is.
#[cycle(staying)]
fn stays(value: &Value, types: &[DefinedType], data_type: &NamedDataType) -> bool
    ensures { result ≡ true → under types.now data_type.now value.now ≡ value.now }
{
    keeps_names(types, data_type, value)
        && inside_stays(value, types, inner_type(types, data_type, value))
}

/// Whether a value stays as it is once the type of the elements in it is said.
#[cycle(staying)]
#[tactic(auto, using(crate::proofs::Parts::parts))]
fn inside_stays(value: &Value, types: &[DefinedType], declared: Option<AggregateType<'_>>) -> bool
    ensures { result ≡ true → inside types.now (option_map aggregate_type_behind declared.entry) value.now ≡ value.now }
{
    match value {
        Value::Agg { kind, elements } => aggregate_stays(elements, *kind, types, declared),
        Value::Named {
            defined_type: _,
            value,
        } => inside_stays(value.get(), types, declared),
        _ => true,
    }
}

#[cycle(staying)]
fn aggregate_stays(
    elements: &Elements<Value>,
    kind: AggregateKind,
    types: &[DefinedType],
    declared: Option<AggregateType<'_>>,
) -> bool
    ensures { result ≡ true → elements_under types.now (option_map aggregate_type_behind declared.entry) kind elements.now ≡ v.Agg kind elements.now }
{
    match declared {
        None => true,
        Some(declared) => {
            keeps_kind(declared.kind, kind)
                && all_stay(elements.as_slice(), types, declared.element)
        }
    }
}

/// Whether all elements stay as they are.
#[cycle(staying)]
fn all_stay(values: &[Value], types: &[DefinedType], data_type: &NamedDataType) -> bool
    ensures { result ≡ true → map (element_under types.now data_type.now) values.now ≡ values.now }
{
    if changes_nothing(types, data_type) {
        return true;
    }
    for value in values {
        if !element_stays(value, types, data_type) {
            return false;
        }
    }
    true
}

#[cycle(staying)]
fn element_stays(value: &Value, types: &[DefinedType], data_type: &NamedDataType) -> bool
    ensures { result ≡ true → element_under types.now data_type.now value.now ≡ value.now }
{
    is_indeterminate(value) || !fits(types, data_type, value) || stays(value, types, data_type)
}

// ---- what doesn't

/// A value as it carries what it is read through.
fn named_in(
    alloc: Global,
    types: &[DefinedType],
    data_type: &NamedDataType,
    value: Value,
) -> Result<Value, AllocError>
    ensures { IfOk result (λ x. x ≡ spec.named_in types.now (out-NamedDataType data_type.now) value) }
{
    let NamedDataType::Named(TypeName::Defined(number)) = data_type else {
        return Ok(value);
    };
    match end_of(types, *number) {
        End::Enumeration(declaring) if declaring == *number => without_names(&value),
        End::Select(_) => Ok(value),
        _ => Value::named(alloc, *number, without_names(&value)?),
    }
}

/// The same values.
fn copies(alloc: Global, values: &[Value]) -> Result<Items<Value>, AllocError>
    ensures { IfOk result (λ found. found ≡ values.now) }
{
    let mut found = Items::new(alloc);
    for value in values {
        found.push(value.copy()?)?;
    }
    Ok(found)
}

/// An aggregate of a kind and from an index on. Of a SET each element stays once.
fn of_kind(
    alloc: Global,
    kind: AggregateKind,
    low: i64,
    items: Items<Value>,
) -> Result<Value, AllocError>
    ensures { IfOk result (λ x. x ≡ spec.of_kind (kind, low) items) }
{
    match kind {
        AggregateKind::Set => {
            let empty = Value::aggregate(alloc, AggregateKind::Set, low, Items::new(alloc))?;
            let found = Value::aggregate(alloc, AggregateKind::Initializer, 1, items)?;
            aggregate_union(alloc, &empty, &found)
        }
        _ => Value::aggregate(alloc, kind, low, items),
    }
}

/// An initialiser takes the kind of the type; what has a kind keeps it.
fn as_aggregate(
    alloc: Global,
    declared: Option<(AggregateKind, i64)>,
    kind: AggregateKind,
    low: i64,
    items: Items<Value>,
) -> Result<Value, AllocError>
    ensures { IfOk result (λ x. x ≡ spec.as_aggregate declared kind low items) }
{
    match (declared, kind) {
        (Some((kind, low)), AggregateKind::Initializer) => of_kind(alloc, kind, low, items),
        _ => Value::aggregate(alloc, kind, low, items),
    }
}

/// So it does with elements that are there. They are copied only for a SET, or where the index of the first is another.
fn with_elements(
    alloc: Global,
    declared: Option<(AggregateKind, i64)>,
    kind: AggregateKind,
    elements: &Elements<Value>,
) -> Result<Value, AllocError>
    ensures { IfOk result (λ x. x ≡ spec.as_aggregate declared kind elements.now.low elements.now.items) }
{
    let kind = match (declared, kind) {
        (Some((AggregateKind::Set, low)), AggregateKind::Initializer) => {
            return of_kind(
                alloc,
                AggregateKind::Set,
                low,
                copies(alloc, elements.as_slice())?,
            );
        }
        (Some((declared, low)), AggregateKind::Initializer) => {
            if low != elements.low() {
                return Value::aggregate(alloc, declared, low, copies(alloc, elements.as_slice())?);
            }
            declared
        }
        _ => kind,
    };
    Ok(Value::Agg {
        kind,
        elements: elements.share()?,
    })
}

/// A value of the kind of a type, as it is read through it.
#[cycle(declared)]
fn under(
    value: &Value,
    alloc: Global,
    types: &[DefinedType],
    data_type: &NamedDataType,
) -> Result<Value, AllocError>
    ensures { IfOk result (λ x. x ≡ under types.now data_type.now value.now) }
{
    if stays(value, types, data_type) {
        return value.copy();
    }
    let declared = inner_type(types, data_type, value);
    let found = inside(value, alloc, types, declared)?;
    named_in(alloc, types, data_type, found)
}

/// A value once the type of the elements in it is said.
#[cycle(declared)]
#[tactic(auto, using(crate::proofs::Parts::parts))]
fn inside(
    value: &Value,
    alloc: Global,
    types: &[DefinedType],
    declared: Option<AggregateType<'_>>,
) -> Result<Value, AllocError>
    ensures { IfOk result (λ x. x ≡ inside types.now (option_map aggregate_type_behind declared.entry) value.now) }
{
    match value {
        Value::Agg { kind, elements } => aggregate_under(elements, *kind, alloc, types, declared),
        Value::Named {
            defined_type,
            value,
        } => {
            let found = inside(value.get(), alloc, types, declared)?;
            Value::named(alloc, *defined_type, found)
        }
        _ => value.copy(),
    }
}

#[cycle(declared)]
fn aggregate_under(
    elements: &Elements<Value>,
    kind: AggregateKind,
    alloc: Global,
    types: &[DefinedType],
    declared: Option<AggregateType<'_>>,
) -> Result<Value, AllocError>
    ensures { IfOk result (λ x. x ≡ elements_under types.now (option_map aggregate_type_behind declared.entry) kind elements.now) }
{
    let Some(declared) = declared else {
        return with_elements(alloc, None, kind, elements);
    };
    if all_stay(elements.as_slice(), types, declared.element) {
        return with_elements(alloc, declared.kind, kind, elements);
    }
    let items = each_under(elements.as_slice(), alloc, types, declared.element)?;
    as_aggregate(alloc, declared.kind, kind, elements.low(), items)
}

/// The elements of an aggregate whose type says theirs. What doesn't fit stays as it is.
#[cycle(declared)]
fn each_under(
    values: &[Value],
    alloc: Global,
    types: &[DefinedType],
    data_type: &NamedDataType,
) -> Result<Items<Value>, AllocError>
    ensures { IfOk result (λ found. found ≡ map (element_under types.now data_type.now) values.now) }
{
    let mut found = Items::new(alloc);
    for value in values {
        found.push(element_under(value, alloc, types, data_type)?)?;
    }
    Ok(found)
}

#[cycle(declared)]
fn element_under(
    value: &Value,
    alloc: Global,
    types: &[DefinedType],
    data_type: &NamedDataType,
) -> Result<Value, AllocError>
    ensures { IfOk result (λ x. x ≡ element_under types.now data_type.now value.now) }
{
    if is_indeterminate(value) || !fits(types, data_type, value) {
        return value.copy();
    }
    under(value, alloc, types, data_type)
}

/// A value once it is declared with a simple type, which names nothing.
#[inline]
fn given_simple(simple: SimpleType, value: &Value) -> Result<Value, AllocError>
    ensures { (types : List DefinedType) → IfOk result (λ x. x ≡ spec.given types (d.Simple simple) value.now) }
{
    if is_of_simple(simple, beneath_names(value)) {
        return value.copy();
    }
    Ok(Value::Indet)
}

/// A value once it is declared with GENERIC, which takes all but `?`.
fn given_generic(value: &Value) -> Result<Value, AllocError>
    ensures { (types : List DefinedType) → IfOk result (λ x. x ≡ spec.given types d.Generic value.now) }
{
    if is_indeterminate(value) {
        return Ok(Value::Indet);
    }
    value.copy()
}

/// Whether an instance is of a SELECT, by which it stays as it is.
#[tactic(auto, using(crate::proofs::Staying::selected))]
fn is_selected(types: &[DefinedType], data_type: &NamedDataType, place: u64) -> bool
    ensures { result ≡ true → spec.given types.now data_type.now (v.Inst place) ≡ v.Inst place }
{
    match behind_names(types, data_type) {
        End::Select(choices) => is_of_some_choice(types, choices, Bare::Instance(place)),
        _ => false,
    }
}

#[tactic(auto, using(crate::proofs::Parts::under_part), unfolding(rp_meaning::specs::Types::given))]
fn given_by_name(
    alloc: Global,
    types: &[DefinedType],
    data_type: &NamedDataType,
    value: &Value,
) -> Result<Value, AllocError>
    ensures { IfOk result (λ x. x ≡ spec.given types.now data_type.now value.now) }
{
    if is_indeterminate(value) || !fits(types, data_type, value) {
        return Ok(Value::Indet);
    }
    under(value, alloc, types, data_type)
}

#[inline(never)]
fn given_any(
    alloc: Global,
    types: &[DefinedType],
    data_type: &NamedDataType,
    value: &Value,
) -> Result<Value, AllocError>
    ensures { IfOk result (λ x. x ≡ spec.given types.now data_type.now value.now) }
{
    match (data_type, value) {
        (NamedDataType::Simple(simple), _) => given_simple(*simple, value),
        (NamedDataType::Generic, _) => given_generic(value),
        (_, Value::Inst(place)) if is_selected(types, data_type, *place) => Ok(Value::Inst(*place)),
        _ => given_by_name(alloc, types, data_type, value),
    }
}

#[inline(always)]
fn takes_integers(data_type: &NamedDataType) -> bool
    ensures { (n : ℤ) → result ≡ takes (out-NamedDataType data_type.now) (Value-F.Int n) }
{
    match data_type {
        NamedDataType::Simple(SimpleType::Integer | SimpleType::Real | SimpleType::Number) => true,
        NamedDataType::Generic => true,
        _ => false,
    }
}

#[inline(always)]
fn takes_truths(data_type: &NamedDataType) -> bool
    ensures { (l : Logical) → result ≡ takes (out-NamedDataType data_type.now) (Value-F.Log l) }
{
    match data_type {
        NamedDataType::Simple(SimpleType::Boolean | SimpleType::Logical) => true,
        NamedDataType::Generic => true,
        _ => false,
    }
}

#[inline(always)]
fn takes_instances(data_type: &NamedDataType) -> bool
    ensures { (place : ℕ) → result ≡ takes (out-NamedDataType data_type.now) (Value-F.Inst place) }
{
    match data_type {
        NamedDataType::Named(TypeName::Entity(_)) | NamedDataType::Generic => true,
        _ => false,
    }
}

/// A value once it is declared with a type: `?` where its kind doesn't fit. What holds no block and is of a type without a name
/// stays as it is, without a call.
#[inline(always)]
pub fn given(
    alloc: Global,
    types: &[DefinedType],
    data_type: &NamedDataType,
    value: &Value,
) -> Result<Value, AllocError>
    ensures { IfOk result (λ x. x ≡ spec.given types.now data_type.now value.now) }
{
    match value {
        Value::Int(number) if takes_integers(data_type) => Ok(Value::Int(*number)),
        Value::Log(logical) if takes_truths(data_type) => Ok(Value::Log(*logical)),
        Value::Inst(place) if takes_instances(data_type) => Ok(Value::Inst(*place)),
        _ => given_any(alloc, types, data_type, value),
    }
}
