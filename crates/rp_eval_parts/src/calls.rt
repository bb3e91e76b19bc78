//! What is done with the values of arguments.

ghost use Rattle.rp_meaning.specs.Expressions as spec;
ghost use Rattle.rp_eval_parts.specs.Callings as callings;
ghost use Rattle.rp_eval_parts.specs.Written.{RunsInto};
ghost use Rattle.ex_tree.specs.declared.expression.BuiltInFunction.TheVariants as f;

use crate::lookup::Lookup;
use crate::setting::Setting;
use crate::steps::{charge, charge_initializer};
use ex_tree::BuiltInFunction;
use plain_data::Items;
use rp_meaning::{Counter, Stop};
use rp_operators::{
    absolute, binary_length, count, exists, high_index, initializer, low_index, null_value, odd,
    place_of, size_of, text_length, text_of, value_in,
};
use rp_value::Value;

impl<'a, W: Setting> Lookup<'a, W> {
    /// The names of the types of the value that is there.
    #[tactic(auto, using(crate::proofs::Found::names_count))]
    pub fn type_names_value(&self, counter: &mut Counter, into: &mut Value) -> Result<(), Stop>
        ensures { (below : _) → RunsInto (spec.type_names_value (W.world self.now.world.now) below into.old counter.old) result into.new counter.new }
    {
        let names = self.world.type_names(self.alloc, into)?;
        charge(counter, count(&names))?;
        *into = names;
        Ok(())
    }

    /// The users of the instance that is there in the role that a text names.
    pub fn used_in_by(
        &self,
        role: &Value,
        counter: &mut Counter,
        into: &mut Value,
    ) -> Result<(), Stop>
        ensures { (below : _) → RunsInto (spec.of_two (W.world self.now.world.now) below f.UsedIn into.old role.now counter.old) result into.new counter.new }
    {
        match text_of(role) {
            Some(name) => self.used_in_named(name.as_str(), place_of(into), counter, into),
            None => {
                *into = Value::Indet;
                Ok(())
            }
        }
    }

    /// Whether a value is an element of the aggregate that is there, for a step of each element.
    pub fn value_in(
        &self,
        value: &Value,
        counter: &mut Counter,
        into: &mut Value,
    ) -> Result<(), Stop>
        ensures { (below : _) → RunsInto (spec.of_two (W.world self.now.world.now) below f.ValueIn into.old value.now counter.old) result into.new counter.new }
    {
        charge(counter, count(into))?;
        *into = value_in(into, value);
        Ok(())
    }

    /// A function of the language of the one argument that is there.
    #[inline(never)]
    pub fn of_one(
        &self,
        function: BuiltInFunction,
        counter: &mut Counter,
        into: &mut Value,
    ) -> Result<(), Stop>
        ensures { (below : _) → RunsInto (spec.of_one (W.world self.now.world.now) below function into.old counter.old) result into.new counter.new }
    {
        *into = match function {
            BuiltInFunction::Abs => absolute(into),
            BuiltInFunction::BLength => binary_length(into),
            BuiltInFunction::Exists => exists(into),
            BuiltInFunction::HiIndex => high_index(into),
            BuiltInFunction::Length => text_length(into),
            BuiltInFunction::LoIndex => low_index(into),
            BuiltInFunction::Odd => odd(into),
            BuiltInFunction::SizeOf => size_of(into),
            BuiltInFunction::TypeOf => return self.type_names_value(counter, into),
            BuiltInFunction::Nvl | BuiltInFunction::UsedIn | BuiltInFunction::ValueIn => {
                Value::Indet
            }
        };
        Ok(())
    }

    /// A function of the language of the argument that is there and of a second one.
    #[inline(never)]
    pub fn of_two(
        &self,
        function: BuiltInFunction,
        second: &Value,
        counter: &mut Counter,
        into: &mut Value,
    ) -> Result<(), Stop>
        ensures { (below : _) → RunsInto (spec.of_two (W.world self.now.world.now) below function into.old second.now counter.old) result into.new counter.new }
    {
        match function {
            BuiltInFunction::Nvl => {
                *into = null_value(into, second)?;
                Ok(())
            }
            BuiltInFunction::UsedIn => self.used_in_by(second, counter, into),
            BuiltInFunction::ValueIn => self.value_in(second, counter, into),
            _ => {
                *into = Value::Indet;
                Ok(())
            }
        }
    }

    /// A function of the language, with the values of its arguments.
    #[inline(never)]
    pub fn of_values(
        &self,
        function: BuiltInFunction,
        values: &[Value],
        counter: &mut Counter,
        into: &mut Value,
    ) -> Result<(), Stop>
        ensures { (below : _) → RunsInto (spec.built_in (W.world self.now.world.now) below function values.now counter.old) result into.new counter.new }
    {
        match values {
            [value] => {
                *into = value.copy()?;
                self.of_one(function, counter, into)
            }
            [first, second] => {
                *into = first.copy()?;
                self.of_two(function, second, counter, into)
            }
            _ => {
                *into = Value::Indet;
                Ok(())
            }
        }
    }

    /// An initialiser of these elements.
    #[inline(never)]
    pub fn initialized(
        &self,
        values: Items<Value>,
        counter: &mut Counter,
        into: &mut Value,
    ) -> Result<(), Stop>
        ensures { RunsInto (callings.initialized values counter.old) result into.new counter.new }
    {
        *into = initializer(self.alloc, values)?;
        charge_initializer(counter, into)
    }
}
