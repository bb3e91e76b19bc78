//! What an evaluation reads of a world.

ghost use Rattle.std.specs.Prelude.{◌≡◌, slice_index_or, if◌then◌else◌};
ghost use Rattle.std.specs.Option.{option_copied};
ghost use Rattle.rp_meaning.specs.Attributes.{role_named};
ghost use Rattle.rp_meaning.specs.Expressions as spec;
ghost use Rattle.rp_value.specs.declared.value.Value.TheVariants as v;
ghost use Rattle.rp_eval_parts.specs.Charges.{charged};
ghost use Rattle.rp_eval_parts.specs.Written.{RunsInto};

use crate::attributes::named_role;
use crate::frame::Frame;
use crate::setting::Setting;
use crate::steps::{charge, charge_operator};
use crate::users::{inverse_users, of_users};
use ex_tree::BinaryOperator;
use plain_data::Items;
use rp_meaning::{Counter, Inverse, Role, Stop};
use rp_operators::{applied, is_of, place_of};
use rp_value::{AggregateKind, Value};
use std::alloc::{AllocError, Global};

/// What an evaluation reads of a world, and what it does with values. It needs no bodies.
pub struct Lookup<'a, W> {
    pub alloc: Global,
    pub world: &'a W,
}

impl<'a, W> Clone for Lookup<'a, W> {
    fn clone(&self) -> Result<Self, AllocError> {
        Ok(*self)
    }
}

impl<'a, W> Copy for Lookup<'a, W> {}

impl<'a, W: Setting> Lookup<'a, W> {
    /// The users of what stands at a place.
    #[inline(never)]
    #[tactic(auto, using(crate::proofs::Found::instances_count, crate::proofs::Found::users_give))]
    pub fn inverse_by(
        &self,
        inverse: Option<&Inverse>,
        place: u64,
        counter: &mut Counter,
        into: &mut Value,
    ) -> Result<(), Stop>
        ensures { (below : _) → RunsInto (spec.inverse_by (W.world self.now.world.now) below (option_copied inverse.entry) place counter.old) result into.new counter.new }
    {
        let Some(inverse) = inverse else {
            *into = Value::Indet;
            return Ok(());
        };
        let users = inverse_users(self.alloc, self.world, inverse, place as usize)?;
        charge(counter, users.len())?;
        *into = of_users(self.alloc, inverse.aggregate, users)?;
        Ok(())
    }

    /// Whether the instance that is there is of the entity.
    pub fn is_of_entity(&self, entity: usize, value: &Value) -> bool
        ensures { (below : _) → spec.group (W.world self.now.world.now) below entity value.now ≡ if result then value.now else v.Indet }
    {
        let Some(place) = place_of(value) else {
            return false;
        };
        match self.world.instance(place as usize) {
            Some(instance) => is_of(&instance, entity),
            None => false,
        }
    }

    /// The instance that is there stays, if it is of the entity.
    #[inline(never)]
    pub fn group(&self, entity: usize, into: &mut Value)
        ensures { (below : _) → into.new ≡ spec.group (W.world self.now.world.now) below entity into.old }
    {
        if !self.is_of_entity(entity, into) {
            *into = Value::Indet;
        }
    }

    /// The instances of an entity, for a step and one for each.
    #[inline(never)]
    pub fn extent(&self, entity: usize, counter: &mut Counter, into: &mut Value) -> Result<(), Stop>
        ensures { (below : _) → RunsInto (charged 1 (spec.extent_value (W.world self.now.world.now) below entity) counter.old) result into.new counter.new }
    {
        charge(counter, 1)?;
        let found = self.world.extent(self.alloc, entity)?;
        charge(counter, found.len())?;
        *into = Value::aggregate(self.alloc, AggregateKind::Set, 1, found)?;
        Ok(())
    }

    /// The users of an instance in a role; in what is no role there are none.
    #[inline(never)]
    pub fn used_in_role(
        &self,
        role: Option<&Role>,
        place: Option<u64>,
        counter: &mut Counter,
        into: &mut Value,
    ) -> Result<(), Stop>
        ensures { (below : _) → RunsInto (spec.used_in_role (W.world self.now.world.now) below (option_copied role.entry) place counter.old) result into.new counter.new }
    {
        let Some(place) = place else {
            *into = Value::Indet;
            return Ok(());
        };
        let found = match role {
            Some(role) => self.world.users(self.alloc, place as usize, role)?,
            None => Items::new(self.alloc),
        };
        charge(counter, found.len())?;
        *into = Value::aggregate(self.alloc, AggregateKind::Bag, 1, found)?;
        Ok(())
    }

    /// The users of an instance in the role of a name.
    #[tactic(auto, using(crate::proofs::Found::role_of_name))]
    pub fn used_in_named(
        &self,
        name: &str,
        place: Option<u64>,
        counter: &mut Counter,
        into: &mut Value,
    ) -> Result<(), Stop>
        ensures { (below : _) → RunsInto (spec.used_in_role (W.world self.now.world.now) below (role_named (W.world self.now.world.now).schema.roles name.now) place counter.old) result into.new counter.new }
    {
        if name.is_empty() {
            self.used_in_role(Some(&Role::Every), place, counter, into)
        } else {
            let role = named_role(self.world.schema().roles.as_slice(), name);
            self.used_in_role(role, place, counter, into)
        }
    }

    /// What an operator gives of the value that is there and of another.
    #[inline(never)]
    pub fn operate(
        &self,
        operator: BinaryOperator,
        right: &Value,
        counter: &mut Counter,
        into: &mut Value,
    ) -> Result<(), Stop>
        ensures { RunsInto (spec.operated operator into.old right.now counter.old) result into.new counter.new }
    {
        charge_operator(counter, operator, into, right)?;
        *into = applied(self.alloc, operator, into, right)?;
        Ok(())
    }

    /// The same, with the steps of the operator and of its right operand.
    pub fn operation_by(
        &self,
        operator: BinaryOperator,
        right: &Value,
        counter: &mut Counter,
        into: &mut Value,
    ) -> Result<(), Stop>
        ensures { RunsInto (charged 1 (charged 1 (spec.operated operator into.old right.now)) counter.old) result into.new counter.new }
    {
        charge(counter, 1)?;
        charge(counter, 1)?;
        self.operate(operator, right, counter, into)
    }

    /// The same, with the variable of a slot as the right operand.
    pub fn operation_by_variable(
        &self,
        operator: BinaryOperator,
        slot: usize,
        frame: &Frame,
        counter: &mut Counter,
        into: &mut Value,
    ) -> Result<(), Stop>
        ensures { RunsInto (charged 1 (charged 1 (spec.operated operator into.old (slice_index_or frame.now.variables slot v.Indet))) counter.old) result into.new counter.new }
    {
        match frame.variable_at(slot) {
            Some(right) => self.operation_by(operator, right, counter, into),
            None => self.operation_by(operator, &Value::Indet, counter, into),
        }
    }
}
