//! Declared types behind all names, and which values are of their kind.

ghost use Rattle.std.specs.Prelude.{◌≡◌, true};
ghost use Rattle.std.specs.List.{list_any};
ghost use Rattle.std.specs.Option.{option_map};
ghost use Rattle.ex_named.specs.declared.expression.NamedDataType.{out-NamedDataType};
ghost use Rattle.ex_named.specs.declared.expression.NamedDataType.TheVariants as d;
ghost use Rattle.rp_meaning.specs.Bare.{carried as spec_carried};
ghost use Rattle.rp_meaning.specs.Types as spec;
ghost use Rattle.rp_operators.specs.Ends.{aggregate_type_behind, an_aggregate, element_under, end_behind};
ghost use Rattle.rp_operators.specs.Sights.{opened};
ghost use Rattle.rp_value.specs.declared.value.Value.{Value};

use crate::bare::{Bare, beneath_names, carried};
use ex_named::{NamedDataType, TypeName};
use ex_tree::SimpleType;
use rp_meaning::{DefinedType, Underlying};
use rp_value::{AggregateKind, Value};

/// A type behind all names.
#[derive(Clone, Copy)]
pub enum End<'t> {
    /// By the number of the type that declares it.
    Enumeration(usize),
    /// By what it chooses from.
    Select(&'t [TypeName]),
    Written(&'t NamedDataType),
    /// A defined type that is not there.
    Absent(usize),
}

/// A type of aggregates: the kind and the first index that it says, and the type of its elements.
#[derive(Clone, Copy)]
pub struct AggregateType<'t> {
    pub kind: Option<(AggregateKind, i64)>,
    pub element: &'t NamedDataType,
}

/// What stands behind the names of a defined type, by its number.
#[tactic(auto, unfolding(rp_meaning::specs::Types::end_of))]
pub fn end_of(types: &[DefinedType], number: usize) -> End<'_>
    ensures { end_behind result ≡ spec.end_of types.now number }
{
    let Some(defined_type) = types.get(number) else {
        return End::Absent(number);
    };
    match &defined_type.underlying {
        Underlying::Enumeration(declaring) => End::Enumeration(*declaring),
        Underlying::Select => End::Select(defined_type.choices.as_slice()),
        Underlying::Data(data_type) => End::Written(data_type),
    }
}

/// What stands behind the names of a type.
pub fn behind_names<'t>(types: &'t [DefinedType], data_type: &'t NamedDataType) -> End<'t>
    ensures { end_behind result ≡ spec.end types.now data_type.now }
{
    match data_type {
        NamedDataType::Named(TypeName::Defined(number)) => end_of(types, *number),
        _ => End::Written(data_type),
    }
}

#[inline]
pub(crate) fn is_of_simple(simple: SimpleType, x: Bare<'_>) -> bool
    ensures { result ≡ spec.is_of_simple simple (opened x.entry) }
{
    match (simple, x) {
        (SimpleType::Integer, Bare::Integer(_)) => true,
        (SimpleType::Real | SimpleType::Number, Bare::Integer(_) | Bare::Real(_)) => true,
        (SimpleType::String(_), Bare::Text(_)) => true,
        (SimpleType::Binary(_), Bare::Bits(_)) => true,
        (SimpleType::Boolean | SimpleType::Logical, Bare::Truth(_)) => true,
        _ => false,
    }
}

fn is_instance(x: Bare<'_>) -> bool
    ensures { result ≡ spec.is_instance (opened x.entry) }
{
    match x {
        Bare::Instance(_) => true,
        _ => false,
    }
}

fn is_aggregate(x: Bare<'_>) -> bool
    ensures { result ≡ spec.is_aggregate (opened x.entry) }
{
    match x {
        Bare::Aggregate(_, _) => true,
        _ => false,
    }
}

fn is_item_of(number: usize, x: Bare<'_>) -> bool
    ensures { result ≡ spec.is_item_of number (opened x.entry) }
{
    match x {
        Bare::Item(enumeration, _) => enumeration == number,
        _ => false,
    }
}

fn is_of_written(data_type: &NamedDataType, x: Bare<'_>) -> bool
    ensures { result ≡ spec.is_of_written (out-NamedDataType data_type.now) (opened x.entry) }
{
    match data_type {
        NamedDataType::Simple(simple) => is_of_simple(*simple, x),
        NamedDataType::Named(TypeName::Entity(_)) => is_instance(x),
        NamedDataType::Named(TypeName::Defined(_)) => false,
        NamedDataType::Generic => true,
        _ => is_aggregate(x),
    }
}

/// Whether a value is of the kind of a type that is no SELECT.
fn is_of_end(end: End<'_>, x: Bare<'_>, types: &[DefinedType]) -> bool
    ensures { result ≡ spec.is_of_end types.now (end_behind end.entry) (opened x.entry) }
{
    match end {
        End::Enumeration(number) => is_item_of(number, x),
        End::Written(data_type) => is_of_written(data_type, x),
        End::Select(_) | End::Absent(_) => false,
    }
}

fn is_of_choice(types: &[DefinedType], x: Bare<'_>, choice: TypeName) -> bool
    ensures { result ≡ spec.is_of_choice types.now (opened x.entry) choice }
{
    match choice {
        TypeName::Entity(_) => is_instance(x),
        TypeName::Defined(number) => is_of_end(end_of(types, number), x, types),
    }
}

pub(crate) fn is_of_some_choice(types: &[DefinedType], choices: &[TypeName], x: Bare<'_>) -> bool
    ensures { result ≡ list_any (spec.is_of_choice types.now (opened x.entry)) choices.now }
{
    choices.iter().any(|choice| is_of_choice(types, x, *choice))
}

fn is_of_kind(types: &[DefinedType], end: End<'_>, x: Bare<'_>) -> bool
    ensures { result ≡ spec.is_of_kind types.now (end_behind end.entry) (opened x.entry) }
{
    match end {
        End::Select(choices) => is_of_some_choice(types, choices, x),
        _ => is_of_end(end, x, types),
    }
}

/// Whether a value, other than `?`, is of the kind of a type.
#[tactic(auto, unfolding(rp_meaning::specs::Types::fits))]
pub fn fits(types: &[DefinedType], data_type: &NamedDataType, value: &Value) -> bool
    ensures { result ≡ spec.fits types.now data_type.now value.now }
{
    is_of_kind(types, behind_names(types, data_type), beneath_names(value))
}

/// An index is a value of INTEGER.
fn array_from(low: u64, element: &NamedDataType) -> Option<AggregateType<'_>>
    ensures { option_map aggregate_type_behind result ≡ spec.array_from low element.now }
{
    let low = i64::try_from(low).ok()?;
    Some(AggregateType {
        kind: Some((AggregateKind::Array, low)),
        element,
    })
}

/// What a type that is written out says of aggregates.
fn aggregate_by(data_type: &NamedDataType) -> Option<AggregateType<'_>>
    ensures { option_map aggregate_type_behind result ≡ spec.aggregate_by (out-NamedDataType data_type.now) }
{
    let (kind, element) = match data_type {
        NamedDataType::Array {
            bounds,
            optional: _,
            unique: _,
            element,
        } => return array_from(bounds.low, element.get()),
        NamedDataType::List {
            bounds: _,
            unique: _,
            element,
        } => (Some((AggregateKind::List, 1)), element),
        NamedDataType::Bag { bounds: _, element } => (Some((AggregateKind::Bag, 1)), element),
        NamedDataType::Set { bounds: _, element } => (Some((AggregateKind::Set, 1)), element),
        NamedDataType::Aggregate(element) => (None, element),
        NamedDataType::Simple(_) | NamedDataType::Named(_) | NamedDataType::Generic => return None,
    };
    Some(AggregateType {
        kind,
        element: element.get(),
    })
}

/// What a type behind all names says of aggregates.
pub fn aggregate_type(end: End<'_>) -> Option<AggregateType<'_>>
    ensures { option_map aggregate_type_behind result ≡ spec.aggregate_type (end_behind end.entry) }
{
    match end {
        End::Written(data_type) => aggregate_by(data_type),
        End::Enumeration(_) | End::Select(_) | End::Absent(_) => None,
    }
}

/// What says the type of the elements in a value: in a SELECT the defined type that the value carries.
pub(crate) fn inner_type<'t>(
    types: &'t [DefinedType],
    data_type: &'t NamedDataType,
    value: &Value,
) -> Option<AggregateType<'t>>
    ensures { option_map aggregate_type_behind result ≡ spec.inner_by types.now (spec.end types.now data_type.now) (spec_carried value.now) }
{
    match behind_names(types, data_type) {
        End::Select(_) => aggregate_type(end_of(types, carried(value)?)),
        end => aggregate_type(end),
    }
}

/// Whether a type that is no SELECT takes aggregates.
fn takes_aggregates(types: &[DefinedType], end: End<'_>) -> bool
    ensures { result ≡ spec.is_of_end types.now (end_behind end.entry) an_aggregate }
{
    match end {
        End::Written(data_type) => match data_type {
            NamedDataType::Simple(_) | NamedDataType::Named(_) => false,
            _ => true,
        },
        End::Enumeration(_) | End::Select(_) | End::Absent(_) => false,
    }
}

fn is_choice_of_aggregates(types: &[DefinedType], choice: TypeName) -> bool
    ensures { result ≡ spec.is_of_choice types.now an_aggregate choice }
{
    match choice {
        TypeName::Entity(_) => false,
        TypeName::Defined(number) => takes_aggregates(types, end_of(types, number)),
    }
}

fn chooses_aggregates(types: &[DefinedType], choices: &[TypeName]) -> bool
    ensures { result ≡ list_any (spec.is_of_choice types.now an_aggregate) choices.now }
{
    choices
        .iter()
        .any(|choice| is_choice_of_aggregates(types, *choice))
}

fn name_changes_nothing(types: &[DefinedType], name: TypeName) -> bool
    ensures { result ≡ true → (x : Value) → element_under types.now (d.Named name) x ≡ x }
{
    match name {
        TypeName::Entity(_) => true,
        TypeName::Defined(number) => match end_of(types, number) {
            End::Select(choices) => !chooses_aggregates(types, choices),
            End::Enumeration(_) | End::Written(_) | End::Absent(_) => false,
        },
    }
}

/// Whether elements of a type stay as they are, whatever they are.
#[tactic(auto, using(crate::proofs::Staying::elements_stay))]
pub(crate) fn changes_nothing(types: &[DefinedType], data_type: &NamedDataType) -> bool
    ensures { result ≡ true → (x : Value) → element_under types.now data_type.now x ≡ x }
{
    match data_type {
        NamedDataType::Generic => true,
        NamedDataType::Simple(_) => true,
        NamedDataType::Named(name) => name_changes_nothing(types, *name),
        _ => false,
    }
}
