//! The attributes of a population whose values are at fault.

ghost use Rattle.std.specs.Prelude.{◌≡◌, IfOk};
ghost use Rattle.std.specs.List.{flat_map};
ghost use Rattle.rp_meaning.specs.Faults as spec;
ghost use Rattle.rp_faults.specs.Held as held;

use crate::asked::Asked;
use crate::attributes::{explicit_at, is_derived, redeclarations};
use crate::faults::is_faulty;
use crate::references::is_astray;
use ex_named::AttributePlace;
use plain_data::Items;
use rp_meaning::{Culprit, Domain, Explicit, Redeclaration, Schema, Seen};
use rp_operators::{is_indeterminate, same_attribute};
use rp_value::Value;
use std::alloc::{AllocError, Global};

/// What is checked of the values of attributes.
#[derive(Clone, Copy)]
pub enum Fault {
    /// What is not OPTIONAL isn't set.
    Unset,
    /// Bounds or widths don't hold, or something stands twice that may not.
    Bounds,
    /// A reference leads out of the population, or to an instance that isn't allowed.
    Reference,
}

/// Those of some entities from the first that redeclares attributes on, which is few or none.
fn redeclaring<'d>(schema: &Schema, entities: &'d [usize]) -> &'d [usize]
    ensures { (a : AttributePlace) → flat_map (spec.redeclared_by schema.now a) result.now ≡ flat_map (spec.redeclared_by schema.now a) entities.now }
{
    for (place, entity) in entities.iter().enumerate() {
        if !redeclarations(schema, *entity).is_empty() {
            return &entities[place..];
        }
    }
    &[]
}

/// An instance whose values are checked.
#[derive(Drop)]
struct Checked<'a, 'd> {
    /// Where it stands.
    place: usize,
    instance: &'a Seen<'d>,
    /// Those of its entities that redeclare attributes, and maybe others.
    redeclaring: &'d [usize],
}

/// One check of the values of a population.
#[derive(Drop)]
struct Checking<'a, D> {
    alloc: Global,
    fault: Fault,
    schema: &'a Schema,
    domain: &'a D,
}

impl<'a, D: Domain> Checking<'a, D> {
    ghost use Rattle.std.specs.Prelude.{◌≡◌, ◌++◌, ◌∷◌, IfOk, OnOk};
    ghost use Rattle.std.specs.List.{flat_map, list_any};
    ghost use Rattle.rp_meaning.specs.Faults as spec;
    ghost use Rattle.rp_faults.specs.Held as held;

    /// Whether a value is at fault by a declaration.
    fn is_fault(&self, declaration: &Explicit, value: &Value) -> Result<bool, AllocError>
        ensures { IfOk result (λ b. b ≡ held.is_fault self.now.schema.now (D.population self.now.domain.now) self.now.fault declaration.now value.now) }
    {
        let types = self.schema.types.as_slice();
        let data_type = &declaration.data_type;
        match self.fault {
            Fault::Unset => {
                if !declaration.is_optional && is_indeterminate(value) {
                    return Ok(true);
                }
                is_faulty(self.alloc, types, Asked::Set, data_type, value)
            }
            Fault::Bounds => {
                let asked = Asked::Bounds(self.domain.count());
                is_faulty(self.alloc, types, asked, data_type, value)
            }
            Fault::Reference => Ok(is_astray(types, self.domain, data_type, value)),
        }
    }

    /// Whether a value is at fault by one of these redeclarations of its attribute.
    fn is_fault_again(
        &self,
        redeclarations: &[Redeclaration],
        attribute: AttributePlace,
        value: &Value,
    ) -> Result<bool, AllocError>
        ensures { IfOk result (λ b. b ≡ list_any (held.is_fault_again self.now.schema.now (D.population self.now.domain.now) self.now.fault attribute value.now) redeclarations.now) }
    {
        for redeclaration in redeclarations {
            if same_attribute(&redeclaration.attribute, &attribute)
                && self.is_fault(&redeclaration.declaration, value)?
            {
                return Ok(true);
            }
        }
        Ok(false)
    }

    /// Whether a value is at fault by the redeclarations of its attribute in entities.
    fn is_redeclared_fault(
        &self,
        entities: &[usize],
        attribute: AttributePlace,
        value: &Value,
    ) -> Result<bool, AllocError>
        ensures { IfOk result (λ b. b ≡ list_any (λ x. held.is_fault self.now.schema.now (D.population self.now.domain.now) self.now.fault x value.now) (flat_map (spec.redeclared_by self.now.schema.now attribute) entities.now)) }
    {
        for entity in entities {
            let redeclarations = redeclarations(self.schema, *entity);
            if self.is_fault_again(redeclarations, attribute, value)? {
                return Ok(true);
            }
        }
        Ok(false)
    }

    /// Whether a value is at fault by the declaration of its attribute, or by the redeclarations of it in entities.
    fn is_declared_fault(
        &self,
        declaration: &Explicit,
        entities: &[usize],
        attribute: AttributePlace,
        value: &Value,
    ) -> Result<bool, AllocError>
        ensures { IfOk result (λ b. b ≡ list_any (λ x. held.is_fault self.now.schema.now (D.population self.now.domain.now) self.now.fault x value.now) (declaration.now ∷ flat_map (spec.redeclared_by self.now.schema.now attribute) entities.now)) }
    {
        if self.is_fault(declaration, value)? {
            return Ok(true);
        }
        self.is_redeclared_fault(entities, attribute, value)
    }

    /// Whether the value of an attribute of an instance is at fault.
    fn is_culprit(
        &self,
        checked: &Checked<'_, '_>,
        attribute: AttributePlace,
        value: &Value,
    ) -> Result<bool, AllocError>
        ensures { IfOk result (λ b. b ≡ held.is_culprit self.now.schema.now (D.population self.now.domain.now) self.now.fault checked.now.instance.now checked.now.redeclaring.now attribute value.now) }
    {
        let Some(explicit) = explicit_at(self.schema, attribute) else {
            return self.is_redeclared_fault(checked.redeclaring, attribute, value);
        };
        if is_derived(explicit.derivations.as_slice(), checked.instance) {
            return Ok(false);
        }
        self.is_declared_fault(&explicit.declaration, checked.redeclaring, attribute, value)
    }

    /// Adds those of some attributes of an instance whose values are at fault.
    fn push_among(
        &self,
        checked: &Checked<'_, '_>,
        attributes: &[AttributePlace],
        written: &[Value],
        found: &mut Items<Culprit>,
    ) -> Result<(), AllocError>
        ensures { OnOk result (found.new ≡ found.old ++ held.culprits_among self.now.schema.now (D.population self.now.domain.now) self.now.fault checked.now.place checked.now.instance.now checked.now.redeclaring.now attributes.now written.now) }
    {
        for (at, attribute) in attributes.iter().enumerate() {
            let Some(value) = written.get(at) else {
                return Ok(());
            };
            if self.is_culprit(checked, *attribute, value)? {
                found.push(Culprit {
                    instance: checked.place,
                    attribute: Some(*attribute),
                })?;
            }
        }
        Ok(())
    }

    /// Adds the attributes of the instance at a place whose values are at fault.
    fn push_culprits(
        &self,
        place: usize,
        instance: &Seen<'_>,
        found: &mut Items<Culprit>,
    ) -> Result<(), AllocError>
        ensures { OnOk result (found.new ≡ found.old ++ held.culprits_in self.now.schema.now (D.population self.now.domain.now) self.now.fault place instance.now instance.now.values) }
    {
        let checked = Checked {
            place,
            instance,
            redeclaring: redeclaring(self.schema, instance.entities),
        };
        self.push_among(&checked, instance.attributes, instance.written, found)
    }

    /// The attributes whose values are at fault, in the order of the population.
    fn culprits(&self) -> Result<Items<Culprit>, AllocError>
        ensures { IfOk result (λ found. found ≡ held.culprits self.now.schema.now (D.population self.now.domain.now) self.now.fault) }
    {
        let mut found = Items::new(self.alloc);
        for place in 0..self.domain.count() {
            let Some(instance) = self.domain.instance(place) else {
                return Ok(found);
            };
            self.push_culprits(place, &instance, &mut found)?;
        }
        Ok(found)
    }
}

/// The attributes whose values are at fault, in the order of the population.
pub fn culprits<D: Domain>(
    alloc: Global,
    fault: Fault,
    schema: &Schema,
    domain: &D,
) -> Result<Items<Culprit>, AllocError>
    ensures { IfOk result (λ found. found ≡ held.culprits schema.now (D.population domain.now) fault) }
{
    let checking = Checking {
        alloc,
        fault,
        schema,
        domain,
    };
    checking.culprits()
}
