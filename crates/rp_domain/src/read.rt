//! Instances as they are kept, with their values as they are read.

ghost use Rattle.std.specs.Prelude.{◌≡◌, IfOk, OnOk, map, length};
ghost use Rattle.std.specs.List.{zip};
ghost use Rattle.rp_meaning.specs.Populations.{stored};
ghost use Rattle.rp_meaning.specs.Reading as spec;
ghost use Rattle.rp_domain.specs.Combinations as combinations_spec;
ghost use Rattle.rp_domain.specs.Combinations.{values_of};
ghost use Rattle.rp_domain.specs.Rows.{IsReadAt, read_all};

use crate::combinations::Combinations;
use crate::instance::{KeptInstance, WrittenInstance, value_at};
use crate::others::push_other;
use crate::readings::Readings;
use crate::rows::with_room;
use ex_named::AttributePlace;
use plain_data::Items;
use rp_meaning::{ReadValue, Schema};
use rp_value::Value;
use std::alloc::{AllocError, Global};

/// What is read in place of the value at a place, which is an attribute's, if there is one and it is read otherwise.
fn read_at(
    alloc: Global,
    readings: &mut Readings<'_>,
    attribute: &AttributePlace,
    written: &[Value],
    at: usize,
) -> Result<Option<Value>, AllocError>
    ensures same { readings.new ≡ readings.old }
    ensures other { IfOk result (λ other. IsReadAt readings.old.0 readings.old.1 attribute.now written.now at other) }
{
    match value_at(written, at) {
        None => Ok(None),
        Some(value) => readings.other(alloc, attribute, value),
    }
}

/// Finds what is read in place of some values of attributes.
fn find_others(
    found: &mut Vec<ReadValue>,
    alloc: Global,
    readings: &mut Readings<'_>,
    attributes: &[AttributePlace],
    written: &[Value],
) -> Result<(), AllocError>
    ensures same { readings.new ≡ readings.old }
    ensures found { OnOk result (values_of attributes.now written.now found.new.items ≡ stored attributes.now written.now (read_all readings.old.0 readings.old.1 (zip attributes.now written.now))) }
{
    found.clear();
    for (at, attribute) in attributes.iter().enumerate() {
        let other = read_at(alloc, readings, attribute, written, at)?;
        push_other(found, at, other)?;
    }
    Ok(())
}

/// Makes the value at a place `?` if it is derived, and if there is one.
fn forget(values: &mut Items<Value>, at: usize, is_derived: bool)
    ensures { values.new ≡ combinations_spec.without_one is_derived values.old at }
{
    if is_derived && at < values.len() {
        values.set(at, Value::Indet);
    }
}

/// The values, without those of which it is said that they are derived.
fn without_derived(mut values: Items<Value>, derived: &[bool]) -> Items<Value>
    ensures { result ≡ combinations_spec.without_derived derived.now values }
{
    for (at, is_derived) in derived.iter().enumerate() {
        forget(&mut values, at, *is_derived);
    }
    values
}

/// An instance of a population of so many.
fn kept(
    alloc: Global,
    combinations: &mut Combinations<'_>,
    readings: &mut Readings<'_>,
    found: &mut Vec<ReadValue>,
    instance: WrittenInstance,
) -> Result<KeptInstance, AllocError>
    requires { combinations.old ≡ readings.old.0 }
    ensures combinations { combinations.new ≡ combinations.old }
    ensures readings { readings.new ≡ readings.old }
    ensures kept { IfOk result (λ i. i ≡ spec.instance_of readings.old.0 readings.old.1 instance.entities instance.values) }
{
    let WrittenInstance { entities, values } = instance;
    let combination = combinations.of(alloc, entities)?;
    let written = without_derived(values, combination.get().derived.as_slice());
    find_others(
        found,
        alloc,
        readings,
        combination.get().attributes.as_slice(),
        written.as_slice(),
    )?;
    let differing = combinations.shared(alloc, found)?;
    Ok(KeptInstance::new(combination, written, differing))
}

/// The instances of a population, in their order.
pub(crate) fn kept_instances(
    alloc: Global,
    schema: &Schema,
    instances: Vec<WrittenInstance>,
) -> Result<Items<KeptInstance>, AllocError>
    ensures { IfOk result (λ found. found ≡ map (λ i. spec.instance_of schema.now (length instances.items) i.entities i.values) instances.items) }
{
    let count = instances.len();
    let mut combinations = Combinations::new(alloc, schema);
    let mut readings = Readings::new(alloc, schema, count);
    let mut others = Vec::new(alloc);
    let mut found = with_room(alloc, count)?;
    for instance in instances {
        let instance = kept(
            alloc,
            &mut combinations,
            &mut readings,
            &mut others,
            instance,
        )?;
        found.push(instance)?;
    }
    Ok(found)
}
