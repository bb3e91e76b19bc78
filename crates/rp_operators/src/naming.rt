//! The names of types and entities as texts, and those that TYPEOF tells of values.

ghost use Rattle.std.specs.Prelude.{◌≡◌, [], ◌∷◌, ◌++◌, filter, map, slice_get, Some, IfOk, OnOk};
ghost use Rattle.plain_data.specs.Numbers.{is_among};
ghost use Rattle.rp_meaning.specs.Attributes.{aggregate};
ghost use Rattle.rp_meaning.specs.TypeNames as meaning;
ghost use Rattle.rp_operators.specs.Naming as spec;
ghost use Rattle.rp_operators.specs.Sights.{opened};
ghost use Rattle.rp_value.specs.declared.value.AggregateKind.TheVariants as k;
ghost use Rattle.rp_value.specs.declared.value.Value.TheVariants as v;

use crate::bare::{Bare, beneath_names, carried};
use plain_data::{Items, Text};
use rp_meaning::{DefinedType, Domain, Entity, Schema};
use rp_value::{AggregateKind, Logical, Value};
use std::alloc::{AllocError, Global};

// ---- texts that all share

/// The names of the simple types of which TYPEOF tells.
#[derive(Drop)]
pub(crate) struct SimpleNames {
    integer: Value,
    real: Value,
    string: Value,
    binary: Value,
    boolean: Value,
    logical: Value,
}

/// The names of the aggregation types.
#[derive(Drop)]
pub(crate) struct AggregateNames {
    array: Value,
    bag: Value,
    set: Value,
    list: Value,
}

/// The names of the types and the entities of a schema, by their numbers, and of the types that are in all.
pub(crate) struct Names {
    types: Items<Value>,
    pub(crate) entities: Items<Value>,
    simple: SimpleNames,
    aggregates: AggregateNames,
}

impl Drop for Names {
    fn drop(self) {
        let Names {
            types,
            entities,
            simple,
            aggregates,
        } = self;
        drop(types);
        drop(entities);
        drop(simple);
        drop(aggregates);
    }
}

fn text(alloc: Global, name: &str) -> Result<Value, AllocError>
    ensures { IfOk result (λ x. x ≡ v.Str name.now) }
{
    let text = Text::from_str(alloc, name)?;
    Value::text(alloc, text)
}

fn simple_names(alloc: Global) -> Result<SimpleNames, AllocError>
    ensures { IfOk result (λ names. names ≡ spec.simple_names) }
{
    Ok(SimpleNames {
        integer: text(alloc, "INTEGER")?,
        real: text(alloc, "REAL")?,
        string: text(alloc, "STRING")?,
        binary: text(alloc, "BINARY")?,
        boolean: text(alloc, "BOOLEAN")?,
        logical: text(alloc, "LOGICAL")?,
    })
}

fn aggregate_names(alloc: Global) -> Result<AggregateNames, AllocError>
    ensures { IfOk result (λ names. names ≡ spec.aggregate_names) }
{
    Ok(AggregateNames {
        array: text(alloc, "ARRAY")?,
        bag: text(alloc, "BAG")?,
        set: text(alloc, "SET")?,
        list: text(alloc, "LIST")?,
    })
}

fn names_of_types(alloc: Global, types: &[DefinedType]) -> Result<Items<Value>, AllocError>
    ensures { IfOk result (λ texts. texts ≡ map (λ x. v.Str x.name) types.now) }
{
    let mut texts = Items::new(alloc);
    for defined_type in types {
        texts.push(text(alloc, defined_type.name.as_str())?)?;
    }
    Ok(texts)
}

fn names_of_entities(alloc: Global, entities: &[Entity]) -> Result<Items<Value>, AllocError>
    ensures { IfOk result (λ texts. texts ≡ map (λ x. v.Str x.name) entities.now) }
{
    let mut texts = Items::new(alloc);
    for entity in entities {
        texts.push(text(alloc, entity.name.as_str())?)?;
    }
    Ok(texts)
}

/// The names of types and entities of a schema.
pub(crate) fn names_of(alloc: Global, schema: &Schema) -> Result<Names, AllocError>
    ensures { IfOk result (λ names. names ≡ spec.names_of schema.now) }
{
    let types = names_of_types(alloc, schema.types.as_slice())?;
    let entities = names_of_entities(alloc, schema.entities.as_slice())?;
    let aggregates = aggregate_names(alloc)?;
    Ok(Names {
        types,
        entities,
        simple: simple_names(alloc)?,
        aggregates,
    })
}

// ---- those of a value

/// Adds one of the texts.
fn push_text(found: &mut Items<Value>, text: &Value) -> Result<(), AllocError>
    ensures { OnOk result (found.new ≡ found.old ++ text.now ∷ []) }
{
    found.push(text.copy()?)?;
    Ok(())
}

/// Adds the text of this number, if there is one.
fn push_number(
    found: &mut Items<Value>,
    texts: &Items<Value>,
    number: usize,
) -> Result<(), AllocError>
    ensures { OnOk result (found.new ≡ found.old ++ spec.texts_at texts.now (number ∷ [])) }
{
    match texts.get(number) {
        Some(text) => push_text(found, text),
        None => Ok(()),
    }
}

fn push_numbers(
    found: &mut Items<Value>,
    texts: &Items<Value>,
    numbers: &[usize],
) -> Result<(), AllocError>
    ensures { OnOk result (found.new ≡ found.old ++ spec.texts_at texts.now numbers.now) }
{
    for number in numbers {
        push_number(found, texts, *number)?;
    }
    Ok(())
}

/// The defined types that a defined type renames.
fn beneath(schema: &Schema, number: usize) -> &[usize]
    ensures { result.now ≡ spec.beneath schema.now number }
{
    match schema.types.as_slice().get(number) {
        Some(defined_type) => defined_type.beneath.as_slice(),
        None => &[],
    }
}

/// Adds the defined type that a value carries, and those beneath it.
fn push_carried(
    found: &mut Items<Value>,
    texts: &Items<Value>,
    schema: &Schema,
    carried: Option<usize>,
) -> Result<(), AllocError>
    ensures { OnOk result (found.new ≡ found.old ++ spec.texts_at texts.now (spec.defined_types schema.now carried)) }
{
    match carried {
        None => Ok(()),
        Some(number) => {
            push_number(found, texts, number)?;
            push_numbers(found, texts, beneath(schema, number))
        }
    }
}

fn is_one_of(numbers: &[usize], number: usize) -> bool
    ensures { result ≡ is_among numbers.now number }
{
    numbers.iter().any(|other| *other == number)
}

/// Whether a value that carries a defined type is of this one.
fn is_named(schema: &Schema, carried: Option<usize>, number: usize) -> bool
    ensures { result ≡ is_among (spec.defined_types schema.now carried) number }
{
    match carried {
        None => false,
        Some(own) => own == number || is_one_of(beneath(schema, own), number),
    }
}

/// Adds the type of an enumeration, where the value of it isn't of that already.
fn push_enumeration(
    found: &mut Items<Value>,
    texts: &Items<Value>,
    schema: &Schema,
    carried: Option<usize>,
    number: usize,
) -> Result<(), AllocError>
    ensures { OnOk result (found.new ≡ found.old ++ spec.texts_at texts.now (spec.unless_named (spec.defined_types schema.now carried) number)) }
{
    if is_named(schema, carried, number) {
        Ok(())
    } else {
        push_number(found, texts, number)
    }
}

/// Adds the type of the enumeration that a value is of, where it isn't of that already.
fn push_unnamed(
    found: &mut Items<Value>,
    texts: &Items<Value>,
    schema: &Schema,
    carried: Option<usize>,
    x: Bare<'_>,
) -> Result<(), AllocError>
    ensures { OnOk result (found.new ≡ found.old ++ spec.texts_at texts.now (spec.unnamed (spec.defined_types schema.now carried) (opened x.entry))) }
{
    match x {
        Bare::Item(enumeration, _) => push_enumeration(found, texts, schema, carried, enumeration),
        _ => Ok(()),
    }
}

/// Adds the texts of these entities, in an order of all.
pub(crate) fn push_entities(
    found: &mut Items<Value>,
    texts: &Items<Value>,
    entities: &[usize],
    order: &[usize],
) -> Result<(), AllocError>
    ensures { OnOk result (found.new ≡ found.old ++ spec.texts_at texts.now (filter (is_among entities.now) order.now)) }
{
    for number in order {
        if is_one_of(entities, *number) {
            push_number(found, texts, *number)?;
        }
    }
    Ok(())
}

/// Adds the types of the instance at a place.
fn push_instance<D: Domain>(
    found: &mut Items<Value>,
    names: &Names,
    schema: &Schema,
    domain: &D,
    place: u64,
) -> Result<(), AllocError>
    requires { names.now ≡ spec.names_of schema.now }
    ensures { OnOk result (found.new ≡ found.old ++ spec.texts schema.now (meaning.entity_names schema.now (D.population domain.now) (slice_get (D.population domain.now) place))) }
{
    match domain.instance(place as usize) {
        Some(instance) => {
            let order = schema.entity_order.as_slice();
            push_entities(found, &names.entities, instance.entities, order)
        }
        None => Ok(()),
    }
}

/// Adds the names of the types of a value that aren't defined.
fn push_undefined<D: Domain>(
    found: &mut Items<Value>,
    names: &Names,
    schema: &Schema,
    domain: &D,
    x: Bare<'_>,
) -> Result<(), AllocError>
    requires { names.now ≡ spec.names_of schema.now }
    ensures { OnOk result (found.new ≡ found.old ++ spec.texts schema.now (meaning.simple_names schema.now (D.population domain.now) (opened x.entry))) }
{
    let (simple, aggregates) = (&names.simple, &names.aggregates);
    match x {
        Bare::Indeterminate | Bare::Item(_, _) => Ok(()),
        Bare::Integer(_) => push_text(found, &simple.integer),
        Bare::Real(_) => push_text(found, &simple.real),
        Bare::Text(_) => push_text(found, &simple.string),
        Bare::Bits(_) => push_text(found, &simple.binary),
        Bare::Truth(Logical::Unknown) => push_text(found, &simple.logical),
        Bare::Truth(_) => {
            push_text(found, &simple.boolean)?;
            push_text(found, &simple.logical)
        }
        Bare::Instance(place) => push_instance(found, names, schema, domain, place),
        Bare::Aggregate(AggregateKind::Array, _) => push_text(found, &aggregates.array),
        Bare::Aggregate(AggregateKind::Bag, _) => push_text(found, &aggregates.bag),
        Bare::Aggregate(AggregateKind::Set, _) => push_text(found, &aggregates.set),
        Bare::Aggregate(_, _) => push_text(found, &aggregates.list),
    }
}

/// The names of the types of a value.
pub(crate) fn value_names<D: Domain>(
    alloc: Global,
    names: &Names,
    schema: &Schema,
    domain: &D,
    value: &Value,
) -> Result<Value, AllocError>
    requires { names.now ≡ spec.names_of schema.now }
    ensures { IfOk result (λ x. x ≡ aggregate k.Set (meaning.texts schema.now (D.population domain.now) (meaning.type_names schema.now (D.population domain.now) value.now))) }
{
    let (carried, x) = (carried(value), beneath_names(value));
    let texts = &names.types;
    let mut found = Items::new(alloc);
    push_carried(&mut found, texts, schema, carried)?;
    push_unnamed(&mut found, texts, schema, carried, x)?;
    push_undefined(&mut found, names, schema, domain, x)?;
    Value::aggregate(alloc, AggregateKind::Set, 1, found)
}
