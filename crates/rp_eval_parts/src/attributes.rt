//! Attributes of instances: which are meant, what gives their values, and what is stored of them.

ghost use Rattle.std.specs.Prelude.{◌≡◌, true, slice_get, IfOk, IfSome};
ghost use Rattle.std.specs.List.{find};
ghost use Rattle.std.specs.Option.{option_copied, unwrap_or};
ghost use Rattle.rp_meaning.specs.Attributes as spec;
ghost use Rattle.rp_meaning.specs.Populations as populations;
ghost use Rattle.rp_meaning.specs.Populations.{as_read};
ghost use Rattle.rp_value.specs.declared.value.Value.TheVariants as v;
ghost use Rattle.rp_eval_parts.specs.Counts as counts;

use crate::copies::copied;
use ex_named::AttributePlace;
use rp_meaning::{Derivation, Given, Inverse, NamedRole, ReadValue, Role, Schema, Seen};
use rp_operators::{is_of, same_attribute};
use rp_value::Value;
use std::alloc::AllocError;

/// Which of these attributes is meant in an instance: the first of which it has the entity.
pub fn chosen<'a>(
    attributes: &'a [AttributePlace],
    instance: &Seen<'_>,
) -> Option<&'a AttributePlace>
    ensures value { option_copied result ≡ spec.chosen attributes.now instance.now }
    ensures has { IfSome result (λ a. populations.is_of instance.now a.now.entity ≡ true) }
{
    for attribute in attributes {
        if is_of(instance, attribute.entity) {
            return Some(attribute);
        }
    }
    None
}

/// The value that is read at a place, where this one is written: the last of those that are read there.
fn last_read<'d>(written: &'d Value, differing: &'d [ReadValue], place: usize) -> &'d Value
    ensures { result.now ≡ counts.last_read written.now differing.now place }
{
    let mut found = written;
    for read in differing {
        if read.place == place {
            found = &read.value;
        }
    }
    found
}

fn value_at(values: &[Value], place: usize) -> Option<&Value>
    ensures { option_copied result ≡ slice_get values.now place }
{
    values.get(place)
}

/// The value that is read at a place.
fn read_at<'d>(written: &'d [Value], differing: &'d [ReadValue], place: usize) -> Option<&'d Value>
    ensures { unwrap_or (option_copied result) v.Indet ≡ counts.read_at written.now (as_read differing.now written.now) place }
{
    match value_at(written, place) {
        Some(value) => Some(last_read(value, differing, place)),
        None => None,
    }
}

/// The value of the first of these attributes that is the one, as it is read.
fn value_in<'d>(
    attributes: &[AttributePlace],
    written: &'d [Value],
    differing: &'d [ReadValue],
    attribute: &AttributePlace,
) -> Option<&'d Value>
    ensures { unwrap_or (option_copied result) v.Indet ≡ counts.value_in attribute.now attributes.now written.now (as_read differing.now written.now) }
{
    for place in 0..attributes.len() {
        if same_attribute(&attributes[place], attribute) {
            return read_at(written, differing, place);
        }
    }
    None
}

/// The value that is stored in an instance, as it is read.
pub fn stored_value(instance: &Seen<'_>, attribute: &AttributePlace) -> Result<Value, AllocError>
    ensures { IfOk result (λ value. value ≡ spec.stored_value instance.now attribute.now) }
{
    let found = value_in(
        instance.attributes,
        instance.written,
        instance.differing,
        attribute,
    );
    match found {
        Some(value) => copied(value),
        None => Ok(Value::Indet),
    }
}

/// What redeclares an explicit attribute in DERIVE.
pub fn explicit_derivations<'s>(schema: &'s Schema, attribute: &AttributePlace) -> &'s [Derivation]
    ensures { result.now ≡ spec.explicit_derivations schema.now attribute.now }
{
    let Some(entity) = schema.entities.get(attribute.entity) else {
        return &[];
    };
    match entity.explicit.get(attribute.place) {
        Some(explicit) => explicit.derivations.as_slice(),
        None => &[],
    }
}

/// What gives a derived attribute.
pub fn own_derivations<'s>(schema: &'s Schema, attribute: &AttributePlace) -> &'s [Derivation]
    ensures { result.now ≡ spec.own_derivations schema.now attribute.now }
{
    let Some(entity) = schema.entities.get(attribute.entity) else {
        return &[];
    };
    match entity.derived.get(attribute.place) {
        Some(derivations) => derivations.as_slice(),
        None => &[],
    }
}

/// Which of several gives an attribute in an instance: the first of which it has the entity.
pub fn derivation_in(derivations: &[Derivation], instance: &Seen<'_>) -> Option<Derivation>
    ensures { result ≡ find (λ x. populations.is_of instance.now x.entity) derivations.now }
{
    for derivation in derivations {
        if is_of(instance, derivation.entity) {
            return Some(*derivation);
        }
    }
    None
}

/// What a place in the DERIVE clause of an entity gives.
pub fn derivation(schema: &Schema, entity: usize, place: usize) -> Option<&Given>
    ensures { option_copied result ≡ spec.derivation schema.now entity place }
{
    schema.entities.get(entity)?.derivations.get(place)
}

/// An inverse attribute of an entity.
pub fn inverse_at(schema: &Schema, entity: usize, place: usize) -> Option<&Inverse>
    ensures { option_copied result ≡ spec.inverse_at schema.now entity place }
{
    schema.entities.get(entity)?.inverse.get(place)
}

/// The first role of a name.
pub fn named_role<'s>(roles: &'s [NamedRole], name: &str) -> Option<&'s Role>
    ensures { option_copied result ≡ counts.named_role roles.now name.now }
{
    for role in roles {
        if role.name.as_str() == name {
            return Some(&role.role);
        }
    }
    None
}
