//! Rules, and whole evaluations.

ghost use Rattle.std.specs.Prelude.{◌≡◌, IfOk, OnErr, slice_get};
ghost use Rattle.std.specs.Option.{option_copied, option_and_then};
ghost use Rattle.rp_meaning.specs.Attributes.{entity_at};
ghost use Rattle.rp_meaning.specs.Computations.{Runs};
ghost use Rattle.rp_meaning.specs.Levels.{alone};
ghost use Rattle.rp_meaning.specs.Outcomes as spec;
ghost use Rattle.rp_eval.specs.Limits.{IsWithin};
ghost use Rattle.rp_eval_parts.specs.Serving.{Ready, Remembers};
ghost use Rattle.rp_eval.specs.Bodies.{RunsBodies, bodies_at};
ghost use Rattle.rp_eval.specs.Endings.{after};

use crate::bodies::run_body;
use crate::run::Run;
use crate::setting::World;
use crate::statements::Ending;
use crate::walk::Walk;
use ex_named::AttributePlace;
use ex_tree::{Bounds, InverseAggregate};
use plain_data::Items;
use rp_code::Code;
use rp_eval_parts::{Frame, MOST_BODIES, Memory, Setting, charge, inverse_at, inverse_users};
use rp_meaning::{Body, Counter, Domain, GlobalRule, Inverse, Outcome, Rule, Schema, Stop};
use rp_operators::place_of;
use rp_value::{Logical, Value};
use std::alloc::{AllocError, Global};

fn holds_count(bounds: Bounds, count: usize) -> bool
    ensures { result ≡ spec.holds_count bounds count }
{
    let count = count as u64;
    bounds.low <= count
        && match bounds.high {
            Some(high) => count <= high,
            None => true,
        }
}

/// Whether an inverse attribute may have so many users.
fn is_count_of(aggregate: Option<InverseAggregate>, count: usize) -> bool
    ensures { result ≡ spec.is_count_of aggregate count }
{
    match aggregate {
        None => count == 1,
        Some(aggregate) => holds_count(aggregate.bounds, count),
    }
}

/// A condition of the WHERE clause of a defined type.
fn type_condition(schema: &Schema, number: usize, place: usize) -> Option<&Code>
    ensures { option_copied result ≡ option_and_then (λ x. slice_get x.domain_rules place) (slice_get schema.now.types number) }
{
    schema.types.get(number)?.domain_rules.get(place)
}

/// A condition of the WHERE clause of an entity.
fn entity_condition(schema: &Schema, number: usize, place: usize) -> Option<&Code>
    ensures { option_copied result ≡ option_and_then (λ x. slice_get x.domain_rules place) (entity_at schema.now number) }
{
    schema.entities.get(number)?.domain_rules.get(place)
}

/// An attribute of a rule of a UNIQUE clause.
fn unique_attribute(
    schema: &Schema,
    number: usize,
    place: usize,
    at: usize,
) -> Option<AttributePlace>
    ensures { result ≡ option_and_then (λ rule. slice_get rule at) (option_and_then (λ x. slice_get x.unique_rules place) (entity_at schema.now number)) }
{
    schema
        .entities
        .get(number)?
        .unique_rules
        .get(place)?
        .get(at)
        .copied()
}

impl<'a, W: Setting, B: Fn(Global, &W, u8, &mut Run<'_>, Body) -> Result<Value, Stop>> Walk<
    'a,
    W,
    B,
> {
    /// The value of a condition.
    fn value_by(
        &self,
        condition: Option<&Code>,
        frame: &mut Frame,
        run: &mut Run<'_>,
    ) -> Result<Value, Stop>
        requires below { RunsBodies W.world self.now.alloc self.now.world self.now.levels (B.pre self.now.below) (B.post self.now.below) }
        requires ready { Ready (W.world self.now.world.now) run.old.memory }
        ensures value { Runs (spec.value_by (W.world self.now.world.now) (bodies_at (W.world self.now.world.now) self.now.levels) (option_copied condition.entry) frame.old run.old.counter) result run.new.counter }
        ensures ready { Ready (W.world self.now.world.now) run.new.memory }
    {
        match condition {
            Some(condition) => self.value(condition.instructions(), frame, run),
            None => Ok(Value::Indet),
        }
    }

    /// What a condition says of SELF.
    fn condition(
        &self,
        condition: Option<&Code>,
        itself: Value,
        run: &mut Run<'_>,
    ) -> Result<Value, Stop>
        requires below { RunsBodies W.world self.now.alloc self.now.world self.now.levels (B.pre self.now.below) (B.post self.now.below) }
        requires ready { Ready (W.world self.now.world.now) run.old.memory }
        ensures value { Runs (spec.value_by (W.world self.now.world.now) (bodies_at (W.world self.now.world.now) self.now.levels) (option_copied condition.entry) (alone itself) run.old.counter) result run.new.counter }
        ensures ready { Ready (W.world self.now.world.now) run.new.memory }
    {
        let mut frame = Frame::alone(self.alloc, itself);
        self.value_by(condition, &mut frame, run)
    }

    /// The value of an attribute that is to be unique.
    fn unique_value(
        &self,
        attribute: Option<AttributePlace>,
        itself: Value,
        run: &mut Run<'_>,
    ) -> Result<Value, Stop>
        requires below { RunsBodies W.world self.now.alloc self.now.world self.now.levels (B.pre self.now.below) (B.post self.now.below) }
        requires ready { Ready (W.world self.now.world.now) run.old.memory }
        ensures value { Runs (spec.attribute_value (W.world self.now.world.now) (bodies_at (W.world self.now.world.now) self.now.levels) attribute itself run.old.counter) result run.new.counter }
        ensures ready { Ready (W.world self.now.world.now) run.new.memory }
    {
        match attribute {
            Some(attribute) => {
                let frame = Frame::alone(self.alloc, itself);
                let mut value = Value::Indet;
                self.own_attribute(&attribute, &frame, run, &mut value)?;
                Ok(value)
            }
            None => Ok(Value::Indet),
        }
    }

    /// Whether an inverse attribute has as many users as it may.
    #[tactic(auto, using(rp_eval_parts::proofs::Found::instances_count))]
    fn bounds_value(
        &self,
        inverse: Option<&Inverse>,
        place: Option<u64>,
        counter: &mut Counter,
    ) -> Result<Value, Stop>
        ensures { Runs (spec.bounds_value (W.world self.now.world.now) (bodies_at (W.world self.now.world.now) self.now.levels) (option_copied inverse.entry) place counter.old) result counter.new }
    {
        let (Some(inverse), Some(place)) = (inverse, place) else {
            return Ok(Value::Indet);
        };
        let users = inverse_users(self.alloc, self.world, inverse, place as usize)?;
        charge(counter, 1 + users.as_slice().len())?;
        Ok(Value::Log(Logical::of(is_count_of(inverse.aggregate, users.len()))))
    }

    /// What a condition gives behind statements.
    fn condition_after(
        &self,
        condition: Option<&Code>,
        ending: Ending,
        frame: &mut Frame,
        run: &mut Run<'_>,
    ) -> Result<Value, Stop>
        requires below { RunsBodies W.world self.now.alloc self.now.world self.now.levels (B.pre self.now.below) (B.post self.now.below) }
        requires ready { Ready (W.world self.now.world.now) run.old.memory }
        ensures value { (x : _) → Runs (spec.condition_after (W.world self.now.world.now) (bodies_at (W.world self.now.world.now) self.now.levels) (option_copied condition.entry) (after ending x frame.old) run.old.counter) result run.new.counter }
        ensures ready { Ready (W.world self.now.world.now) run.new.memory }
    {
        match ending {
            Ending::Next => self.value_by(condition, frame, run),
            _ => Ok(Value::Indet),
        }
    }

    /// What a condition of a global rule gives.
    fn rule_value(
        &self,
        rule: Option<&GlobalRule>,
        place: usize,
        run: &mut Run<'_>,
    ) -> Result<Value, Stop>
        requires below { RunsBodies W.world self.now.alloc self.now.world self.now.levels (B.pre self.now.below) (B.post self.now.below) }
        requires ready { Ready (W.world self.now.world.now) run.old.memory }
        ensures value { Runs (spec.rule_value (W.world self.now.world.now) (bodies_at (W.world self.now.world.now) self.now.levels) (option_copied rule.entry) place run.old.counter) result run.new.counter }
        ensures ready { Ready (W.world self.now.world.now) run.new.memory }
    {
        let Some(rule) = rule else {
            return Ok(Value::Indet);
        };
        let mut frame = Frame::of_locals(Items::new(self.alloc), rule.algorithm.locals)?;
        let mut value = Value::Indet;
        let ending = self.algorithm(&rule.algorithm, &mut frame, run, &mut value)?;
        self.condition_after(rule.domain_rules.get(place), ending, &mut frame, run)
    }

    /// What a rule says of SELF.
    fn evaluation(&self, rule: Rule, itself: Value, run: &mut Run<'_>) -> Result<Value, Stop>
        requires below { RunsBodies W.world self.now.alloc self.now.world self.now.levels (B.pre self.now.below) (B.post self.now.below) }
        requires ready { Ready (W.world self.now.world.now) run.old.memory }
        ensures value { Runs (spec.evaluation (W.world self.now.world.now) (bodies_at (W.world self.now.world.now) self.now.levels) rule itself run.old.counter) result run.new.counter }
        ensures ready { Ready (W.world self.now.world.now) run.new.memory }
    {
        match rule {
            Rule::Type(number, place) => {
                self.condition(
                    type_condition(self.world.schema(), number, place),
                    itself,
                    run,
                )
            }
            Rule::Entity(number, place) => {
                self.condition(
                    entity_condition(self.world.schema(), number, place),
                    itself,
                    run,
                )
            }
            Rule::Global(number, place) => {
                self.rule_value(self.world.schema().rules.get(number), place, run)
            }
            Rule::Unique(number, place, at) => {
                let attribute = unique_attribute(self.world.schema(), number, place, at);
                self.unique_value(attribute, itself, run)
            }
            Rule::Inverse(number, place) => {
                let inverse = inverse_at(self.world.schema(), number, place);
                self.bounds_value(inverse, place_of(&itself), &mut run.counter)
            }
        }
    }
}

/// What comes of a rule for SELF over the population of a domain, with at most so many steps: its value and the steps that it
/// took, or the limit, where it takes more of them or more than 200 bodies nest. Err where memory runs out.
pub fn eval<D: Domain>(
    alloc: Global,
    world: &World<'_, D>,
    rule: Rule,
    itself: Value,
    limit: usize,
) -> Result<Outcome, AllocError>
    ensures steps { IfOk result (λ found. IsWithin limit found) }
    ensures value { IfOk result (λ found. found ≡ spec.outcome world.now rule itself limit) }
{
    let mut memory = Memory::none(alloc);
    eval_with(alloc, world, &mut memory, rule, itself, limit)
}

/// The same, where derived values are remembered that evaluations over this world found before. Those that this one finds are
/// remembered after it, also where it comes to its limit. Where memory runs out, what is remembered stays as it was.
#[tactic(auto, unfolding(rp_meaning::specs::Outcomes::outcome))]
pub fn eval_with<D: Domain>(
    alloc: Global,
    world: &World<'_, D>,
    memory: &mut Memory,
    rule: Rule,
    itself: Value,
    limit: usize,
) -> Result<Outcome, AllocError>
    requires { Remembers world.now memory.old }
    ensures steps { IfOk result (λ found. IsWithin limit found) }
    ensures value { IfOk result (λ found. found ≡ spec.outcome world.now rule itself limit) }
    ensures memory { Remembers world.now memory.new }
    ensures refused { OnErr result (memory.new ≡ memory.old) }
{
    let table = memory.take_table(alloc);
    let mut run = Run {
        counter: Counter {
            left: limit,
            nesting: 0,
        },
        memory: memory.begin(alloc, table),
    };
    let ended = ended(alloc, world, rule, itself, &mut run);
    let (counter, found, table) = run.into_parts();
    memory.put_table(table);
    match ended {
        Ok(value) => {
            memory.settle(found);
            Ok(Outcome::Value(value, limit - counter.left))
        }
        Err(Stop::Limit) => {
            memory.settle(found);
            Ok(Outcome::Limit)
        }
        Err(Stop::NoMemory) => Err(AllocError),
    }
}

/// What a rule says of SELF, within the steps of a run.
fn ended<D: Domain>(
    alloc: Global,
    world: &World<'_, D>,
    rule: Rule,
    itself: Value,
    run: &mut Run<'_>,
) -> Result<Value, Stop>
    requires ready { Ready world.now run.old.memory }
    ensures value { Runs (spec.evaluation world.now (bodies_at world.now 200) rule itself run.old.counter) result run.new.counter }
    ensures ready { Ready world.now run.new.memory }
{
    let walk = Walk {
        alloc,
        world,
        levels: MOST_BODIES,
        below: run_body::<World<'_, D>>,
    };
    walk.evaluation(rule, itself, run)
}
