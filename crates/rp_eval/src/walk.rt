//! One level of bodies. What the bodies beneath do is a parameter, so that a level is proved by itself.

ghost use Rattle.std.specs.Prelude.{◌≡◌, [], ◌∷◌, Some};
ghost use Rattle.ex_tree.specs.declared.expression.BuiltInFunction.{BuiltInFunction};
ghost use Rattle.rp_meaning.specs.Attributes.{derivation_in, explicit_derivations, own_derivations};
ghost use Rattle.rp_meaning.specs.Computations.{Runs};
ghost use Rattle.rp_meaning.specs.Computations as computations;
ghost use Rattle.rp_meaning.specs.Expressions as spec;
ghost use Rattle.rp_meaning.specs.declared.body.Body.TheVariants as b;
ghost use Rattle.rp_eval_parts.specs.Callings as callings;
ghost use Rattle.rp_eval_parts.specs.Charges.{charged};
ghost use Rattle.rp_eval_parts.specs.Serving.{Ready};
ghost use Rattle.rp_eval_parts.specs.Written.{RunsInto};
ghost use Rattle.rp_eval.specs.Bodies.{RunsBodies, bodies_at};

use crate::run::Run;
use ex_named::{AttributePlace, AttributeSort};
use plain_data::Items;
use rp_eval_parts::{
    Derived, Frame, Lookup, Setting, charge, chosen, derivation_in, explicit_derivations,
    inverse_at, own_derivations, serve, stored_value,
};
use rp_meaning::{Body, Derivation, Seen, Stop};
use rp_operators::place_of;
use rp_value::Value;
use std::alloc::Global;

/// One level of bodies.
#[derive(Drop)]
pub(crate) struct Walk<'a, W, B> {
    pub(crate) alloc: Global,
    pub(crate) world: &'a W,
    /// How many bodies may nest beneath.
    pub(crate) levels: u8,
    pub(crate) below: B,
}

impl<'a, W: Setting, B: Fn(Global, &W, u8, &mut Run<'_>, Body) -> Result<Value, Stop>> Walk<
    'a,
    W,
    B,
> {
    /// What needs no bodies.
    #[inline(always)]
    pub(crate) fn lookup(&self) -> Lookup<'a, W>
        ensures alloc { result.alloc ≡ self.now.alloc }
        ensures world { result.world ≡ self.now.world }
    {
        Lookup {
            alloc: self.alloc,
            world: self.world,
        }
    }

    /// What a body beneath gives.
    pub(crate) fn body_below(&self, body: Body, run: &mut Run<'_>) -> Result<Value, Stop>
        requires below { RunsBodies W.world self.now.alloc self.now.world self.now.levels (B.pre self.now.below) (B.post self.now.below) }
        requires ready { Ready (W.world self.now.world.now) run.old.memory }
        ensures value { Runs ((bodies_at (W.world self.now.world.now) self.now.levels) body run.old.counter) result run.new.counter }
        ensures ready { Ready (W.world self.now.world.now) run.new.memory }
    {
        (self.below)(self.alloc, self.world, self.levels, run, body)
    }

    /// A function by its number, with the values of its arguments.
    #[inline(never)]
    pub(crate) fn function_below(
        &self,
        number: usize,
        values: Items<Value>,
        run: &mut Run<'_>,
        into: &mut Value,
    ) -> Result<(), Stop>
        requires below { RunsBodies W.world self.now.alloc self.now.world self.now.levels (B.pre self.now.below) (B.post self.now.below) }
        requires ready { Ready (W.world self.now.world.now) run.old.memory }
        ensures value { RunsInto (callings.function (bodies_at (W.world self.now.world.now) self.now.levels) number values run.old.counter) result into.new run.new.counter }
        ensures ready { Ready (W.world self.now.world.now) run.new.memory }
    {
        *into = self.body_below(Body::Function(number, values), run)?;
        Ok(())
    }

    /// What a derivation gives for the instance at a place.
    #[inline(never)]
    fn derived(
        &self,
        derivation: Derivation,
        place: u64,
        run: &mut Run<'_>,
        into: &mut Value,
    ) -> Result<(), Stop>
        requires below { RunsBodies W.world self.now.alloc self.now.world self.now.levels (B.pre self.now.below) (B.post self.now.below) }
        requires ready { Ready (W.world self.now.world.now) run.old.memory }
        ensures value { RunsInto (bodies_at (W.world self.now.world.now) self.now.levels (b.Derived derivation.entity derivation.place place) run.old.counter) result into.new run.new.counter }
        ensures ready { Ready (W.world self.now.world.now) run.new.memory }
    {
        let of = Derived {
            derivation,
            instance: place,
        };
        match run.memory.get(of) {
            Some(kept) => serve(kept, self.levels, &mut run.counter, into),
            None => {
                *into = self.body_below(of.body(), run)?;
                Ok(())
            }
        }
    }

    /// The value of an attribute of the instance at a place.
    fn attribute_by(
        &self,
        attribute: &AttributePlace,
        instance: &Seen<'_>,
        place: u64,
        run: &mut Run<'_>,
        into: &mut Value,
    ) -> Result<(), Stop>
        requires below { RunsBodies W.world self.now.alloc self.now.world self.now.levels (B.pre self.now.below) (B.post self.now.below) }
        requires ready { Ready (W.world self.now.world.now) run.old.memory }
        ensures value { RunsInto (spec.attribute_by (W.world self.now.world.now) (bodies_at (W.world self.now.world.now) self.now.levels) attribute.now.sort attribute.now instance.now place run.old.counter) result into.new run.new.counter }
        ensures ready { Ready (W.world self.now.world.now) run.new.memory }
    {
        let schema = self.world.schema();
        match attribute.sort {
            AttributeSort::Explicit => {
                let derivations = explicit_derivations(schema, attribute);
                match derivation_in(derivations, instance) {
                    Some(derivation) => self.derived(derivation, place, run, into),
                    None => {
                        *into = stored_value(instance, attribute)?;
                        Ok(())
                    }
                }
            }
            AttributeSort::Derived => {
                let derivations = own_derivations(schema, attribute);
                match derivation_in(derivations, instance) {
                    Some(derivation) => self.derived(derivation, place, run, into),
                    None => {
                        *into = Value::Indet;
                        Ok(())
                    }
                }
            }
            AttributeSort::Inverse => {
                let inverse = inverse_at(schema, attribute.entity, attribute.place);
                self.lookup()
                    .inverse_by(inverse, place, &mut run.counter, into)
            }
        }
    }

    /// The value of the first of these attributes of which the instance at a place has the entity.
    #[inline(never)]
    pub(crate) fn attribute_in(
        &self,
        attributes: &[AttributePlace],
        place: Option<u64>,
        run: &mut Run<'_>,
        into: &mut Value,
    ) -> Result<(), Stop>
        requires below { RunsBodies W.world self.now.alloc self.now.world self.now.levels (B.pre self.now.below) (B.post self.now.below) }
        requires ready { Ready (W.world self.now.world.now) run.old.memory }
        ensures value { RunsInto (spec.attribute_in (W.world self.now.world.now) (bodies_at (W.world self.now.world.now) self.now.levels) attributes.now place run.old.counter) result into.new run.new.counter }
        ensures ready { Ready (W.world self.now.world.now) run.new.memory }
    {
        let Some(place) = place else {
            *into = Value::Indet;
            return Ok(());
        };
        let Some(instance) = self.world.instance(place as usize) else {
            *into = Value::Indet;
            return Ok(());
        };
        match chosen(attributes, &instance) {
            Some(attribute) => self.attribute_by(attribute, &instance, place, run, into),
            None => {
                *into = Value::Indet;
                Ok(())
            }
        }
    }

    /// An attribute of SELF, for a step.
    #[inline(never)]
    pub(crate) fn own_attribute(
        &self,
        attribute: &AttributePlace,
        frame: &Frame,
        run: &mut Run<'_>,
        into: &mut Value,
    ) -> Result<(), Stop>
        requires below { RunsBodies W.world self.now.alloc self.now.world self.now.levels (B.pre self.now.below) (B.post self.now.below) }
        requires ready { Ready (W.world self.now.world.now) run.old.memory }
        ensures value { RunsInto (charged 1 (spec.attribute (W.world self.now.world.now) (bodies_at (W.world self.now.world.now) self.now.levels) (attribute.now ∷ []) frame.now.itself) run.old.counter) result into.new run.new.counter }
        ensures ready { Ready (W.world self.now.world.now) run.new.memory }
    {
        charge(&mut run.counter, 1)?;
        self.attribute_in(&[*attribute], place_of(frame.itself()), run, into)
    }

    /// A constant, for a step.
    #[inline(never)]
    pub(crate) fn constant(
        &self,
        number: usize,
        run: &mut Run<'_>,
        into: &mut Value,
    ) -> Result<(), Stop>
        requires below { RunsBodies W.world self.now.alloc self.now.world self.now.levels (B.pre self.now.below) (B.post self.now.below) }
        requires ready { Ready (W.world self.now.world.now) run.old.memory }
        ensures value { RunsInto (charged 1 (bodies_at (W.world self.now.world.now) self.now.levels (b.Constant number)) run.old.counter) result into.new run.new.counter }
        ensures ready { Ready (W.world self.now.world.now) run.new.memory }
    {
        charge(&mut run.counter, 1)?;
        match self.world.constant(number) {
            Some(kept) => serve(kept, self.levels, &mut run.counter, into),
            None => {
                *into = self.body_below(Body::Constant(number), run)?;
                Ok(())
            }
        }
    }
}
