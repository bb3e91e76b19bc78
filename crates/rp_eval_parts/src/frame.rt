//! What an expression stands in.

use crate::copies::copied;
use plain_data::Items;
use rp_value::Value;
use std::alloc::{AllocError, Global};
use std::marker::Model;

/// SELF, and the variables by their slots.
#[derive(Drop)]
pub struct Frame {
    itself: Value,
    variables: Items<Value>,
}

impl Model for Frame {
    ghost use Rattle.rp_meaning.specs.Expressions as spec;

    ghost Value = { spec.Scope };

    ghost view = { λ f. record { itself = f.itself; variables = f.variables } };

    ghost use Rattle.std.specs.Coded.{codes};
    ghost use Rattle.rp_value.specs.contracts.value.Value as value;

    ghost coded = { Prim.hlevel (codes, value.the_row.coded) };
}

impl Frame {
    ghost use Rattle.std.specs.Prelude.{◌≡◌, ◌++◌, IfOk, OnOk, slice_index_or, replicate};
    ghost use Rattle.std.specs.Option.{option_copied, unwrap_or};
    ghost use Rattle.rp_value.specs.declared.value.Value.TheVariants as v;
    ghost use Rattle.rp_meaning.specs.Expressions as spec;
    ghost use Rattle.rp_meaning.specs.Levels.{alone};
    ghost use Rattle.rp_meaning.specs.Statements as statements;

    /// SELF, and no variables.
    pub fn alone(alloc: Global, itself: Value) -> Frame
        ensures { result ≡ alone itself }
    {
        Frame {
            itself,
            variables: Items::new(alloc),
        }
    }

    /// No SELF, and parameters with so many locals behind them, which have no value.
    pub fn of_locals(parameters: Items<Value>, locals: usize) -> Result<Frame, AllocError>
        ensures { IfOk result (λ frame. frame ≡ record { itself = v.Indet; variables = parameters ++ replicate locals v.Indet }) }
    {
        let mut variables = parameters;
        for _local in 0..locals {
            variables.push(Value::Indet)?;
        }
        Ok(Frame {
            itself: Value::Indet,
            variables,
        })
    }

    /// SELF.
    pub fn itself(&self) -> &Value
        ensures { result.now ≡ self.now.itself }
    {
        &self.itself
    }

    /// The variable of a slot.
    pub fn variable(&self, slot: usize) -> Result<Value, AllocError>
        ensures { IfOk result (λ value. value ≡ slice_index_or self.now.variables slot v.Indet) }
    {
        match self.variables.as_slice().get(slot) {
            Some(value) => copied(value),
            None => Ok(Value::Indet),
        }
    }

    /// The variable of a slot, where it is kept. None means `?`.
    pub fn variable_at(&self, slot: usize) -> Option<&Value>
        ensures { unwrap_or (option_copied result) v.Indet ≡ slice_index_or self.now.variables slot v.Indet }
    {
        self.variables.as_slice().get(slot)
    }

    /// Opens one variable more.
    pub fn open(&mut self, value: Value) -> Result<(), AllocError>
        ensures { OnOk result (self.new ≡ spec.with_variable self.old value) }
    {
        self.variables.push(value)?;
        Ok(())
    }

    /// Closes the last variable.
    pub fn close(&mut self)
        ensures opened { (s : spec.Scope) (x : _) → self.old ≡ spec.with_variable s x → self.new ≡ s }
        ensures exact { self.new ≡ statements.without_last self.old }
    {
        let _ = self.variables.pop();
    }

    /// Gives a variable its value, where there is one of this slot.
    pub fn assign(&mut self, slot: usize, value: Value)
        ensures { self.new ≡ statements.assigned self.old slot value }
    {
        if slot < self.variables.len() {
            self.variables.set(slot, value);
        }
    }

    /// Gives the last variable its value.
    pub fn assign_last(&mut self, value: Value)
        ensures { self.new ≡ statements.with_last self.old value }
    {
        let count = self.variables.len();
        if 0 < count {
            self.variables.set(count - 1, value);
        }
    }

    /// Gives as many variables from a slot on this value.
    pub fn assign_all(&mut self, slot: usize, count: usize, value: &Value) -> Result<(), AllocError>
        ensures { OnOk result (self.new ≡ statements.all_assigned slot count value.now self.old) }
    {
        let mut at = slot;
        for _name in 0..count {
            if self.variables.len() <= at {
                return Ok(());
            }
            self.variables.set(at, value.copy()?);
            at += 1;
        }
        Ok(())
    }
}
