//! The values on which the rules of a defined type are tried.

ghost use Rattle.std.specs.Prelude.{◌≡◌, ◌++◌, OnOk};

use crate::choices::Choosing;
use ex_named::NamedDataType;
use plain_data::Items;
use rp_meaning::Domain;
use rp_operators::{aggregate_of, is_indeterminate};
use rp_value::{Elements, Value};
use std::alloc::{AllocError, Global};

/// A defined type, and what finds the values on which its rules are tried.
#[derive(Drop)]
pub(crate) struct Trying<'a, D> {
    pub(crate) alloc: Global,
    pub(crate) choosing: Choosing<'a, D>,
    pub(crate) number: usize,
}

impl<'a, D: Domain> Trying<'a, D> {
    ghost use Rattle.std.specs.Prelude.{◌≡◌, ◌++◌, OnOk};
    ghost use Rattle.rp_faults.specs.Declarations.{all_now};
    ghost use Rattle.rp_rules.specs.Tried as tried;

    /// Adds a value, if the rules are tried on it.
    fn push_itself(
        &self,
        written: &Value,
        read: &Value,
        declared: &[&NamedDataType],
        found: &mut Items<Value>,
    ) -> Result<(), AllocError>
        ensures { OnOk result (found.new ≡ found.old ++ tried.itself_at self.now.choosing.types.now (D.population self.now.choosing.domain.now) self.now.number (all_now declared.now) written.now read.now) }
    {
        if self.choosing.is_tried(written, read, declared, self.number) {
            found.push(read.copy()?)?;
        }
        Ok(())
    }

    /// Adds those in a value by declarations with these types: an aggregate before its elements.
    #[cycle(trying)]
    #[tactic(auto, using(crate::proofs::Values::parts))]
    pub(crate) fn push<'t>(
        &'t self,
        written: &Value,
        read: &Value,
        declared: &[&'t NamedDataType],
        found: &mut Items<Value>,
    ) -> Result<(), AllocError>
        ensures { OnOk result (found.new ≡ found.old ++ tried.values_at self.now.choosing.types.now (D.population self.now.choosing.domain.now) self.now.number (all_now declared.now) written.now read.now) }
    {
        if is_indeterminate(read) {
            return Ok(());
        }
        self.push_itself(written, read, declared, found)?;
        let Some((_, items)) = aggregate_of(read) else {
            return Ok(());
        };
        let inner = self
            .choosing
            .element_types(self.alloc, written, read, declared)?;
        match written {
            Value::Agg { kind: _, elements } => {
                self.push_elements(
                    elements.as_slice(),
                    items.as_slice(),
                    inner.as_slice(),
                    found,
                )
            }
            Value::Named {
                defined_type: _,
                value,
            } => self.push_inside(value.get(), items.as_slice(), inner.as_slice(), found),
            _ => Ok(()),
        }
    }

    /// Adds those among the elements of a value.
    #[cycle(trying)]
    #[tactic(auto, using(crate::proofs::Values::parts))]
    fn push_inside<'t>(
        &'t self,
        written: &Value,
        read: &[Value],
        declared: &[&'t NamedDataType],
        found: &mut Items<Value>,
    ) -> Result<(), AllocError>
        ensures { OnOk result (found.new ≡ found.old ++ tried.inside_at self.now.choosing.types.now (D.population self.now.choosing.domain.now) self.now.number (all_now declared.now) written.now read.now) }
    {
        match written {
            Value::Agg { kind: _, elements } => {
                self.push_elements(elements.as_slice(), read, declared, found)
            }
            Value::Named {
                defined_type: _,
                value,
            } => self.push_inside(value.get(), read, declared, found),
            _ => Ok(()),
        }
    }

    #[cycle(trying)]
    #[tactic(auto, using(crate::proofs::Values::parts))]
    fn push_elements<'t>(
        &'t self,
        written: &[Value],
        read: &[Value],
        declared: &[&'t NamedDataType],
        found: &mut Items<Value>,
    ) -> Result<(), AllocError>
        ensures { OnOk result (found.new ≡ found.old ++ tried.elements_at self.now.choosing.types.now (D.population self.now.choosing.domain.now) self.now.number (all_now declared.now) written.now read.now) }
    {
        for (place, value) in written.iter().enumerate() {
            let Some(element) = read.get(place) else {
                return Ok(());
            };
            self.push(value, element, declared, found)?;
        }
        Ok(())
    }
}
