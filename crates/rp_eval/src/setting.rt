//! What evaluations see, with what is found once for all of them.

use crate::bodies::run_body;
use crate::run::Run;
use plain_data::Items;
use rp_eval_parts::{Kept, MOST_BODIES, Memory, Setting};
use rp_meaning::{Body, Counter, Domain, Role, Schema, Seen, Stop};
use rp_operators::TypeNames;
use rp_value::Value;
use std::alloc::{AllocError, Global};
use std::marker::Model;

/// How many steps constants may take in all that are evaluated before they are asked for.
const KEPT_STEPS: usize = 100_000;

/// A schema and the instances of a domain, with what is found once for all evaluations over them: names of types, and the values
/// of the first constants.
pub struct World<'a, D: Domain> {
    schema: &'a Schema,
    domain: &'a D,
    names: TypeNames<'a>,
    constants: Items<Kept>,
}

impl<'a, D: Domain> Drop for World<'a, D> {
    fn drop(self) {
        let World {
            schema: _,
            domain: _,
            names,
            constants,
        } = self;
        drop(names);
        drop(constants);
    }
}

impl<'a, D: Domain> Model for World<'a, D> {
    ghost use Rattle.std.specs.Prelude.{◌≡◌};
    ghost use Rattle.rp_meaning.specs.Expressions as spec;
    ghost use Rattle.rp_eval.specs.Bodies.{world};
    ghost use Rattle.rp_eval.specs.Serving.{AllServe};
    ghost use Rattle.std.specs.Coded.{codes};
    ghost use Rattle.rp_meaning.specs.contracts.schema.Schema as declared;
    ghost use Rattle.rp_value.specs.contracts.value.Value as value;

    ghost Value = { spec.World };

    ghost coded = { Prim.hlevel (codes, declared.the_row.coded, value.the_row.coded) };

    ghost view = { λ w. record { schema = w.schema.now; population = D.population w.domain.now } };

    ghost invariant = { λ w. record {
      names : w.names ≡ w.schema.now;
      constants : AllServe (world w.schema.now (D.population w.domain.now)) w.constants;
    } };
}

impl<'a, D: Domain> World<'a, D> {
    ghost use Rattle.std.specs.Prelude.{◌≡◌, IfOk, IfSome, OnOk};
    ghost use Rattle.rp_eval.specs.Bodies.{world};
    ghost use Rattle.rp_eval_parts.specs.Serving.{Serves};
    ghost use Rattle.rp_eval.specs.Serving.{AllServe};
    ghost use Rattle.rp_eval_parts.specs.Serving.{Serves};

    /// What evaluations see of a schema and a domain.
    pub fn new(alloc: Global, schema: &'a Schema, domain: &'a D) -> Result<World<'a, D>, AllocError>
        ensures { IfOk result (λ w. w ≡ world schema.now (D.population domain.now)) }
    {
        let names = TypeNames::new(alloc, schema, domain)?;
        let mut world = World {
            schema,
            domain,
            names,
            constants: Items::new(alloc),
        };
        world.constants = world.kept_constants(alloc)?;
        Ok(world)
    }

    /// The domain.
    #[inline(always)]
    pub fn domain(&self) -> &'a D
        ensures { D.population result.now ≡ self.now.population }
    {
        self.domain
    }

    /// What is kept of a body, if it takes no more steps than these.
    #[tactic(auto, using(crate::proofs::Serving::kept_serves))]
    fn kept(&self, alloc: Global, body: Body, steps: usize) -> Result<Option<Kept>, AllocError>
        ensures { IfOk result (λ found. IfSome found (λ kept. Serves self.now body kept)) }
    {
        let mut memory = Memory::none(alloc);
        let table = memory.take_table(alloc);
        let mut run = Run {
            counter: Counter {
                left: steps,
                nesting: 0,
            },
            memory: memory.begin(alloc, table),
        };
        match run_body(alloc, self, MOST_BODIES, &mut run, body) {
            Ok(value) => Ok(Some(Kept {
                value,
                steps: steps - run.counter.left,
                bodies: run.counter.nesting,
            })),
            Err(Stop::Limit) => Ok(None),
            Err(Stop::NoMemory) => Err(AllocError),
        }
    }

    /// What is kept of constants: of the first ones, while they take few steps.
    fn kept_constants(&self, alloc: Global) -> Result<Items<Kept>, AllocError>
        ensures { IfOk result (λ found. AllServe self.now found) }
    {
        let mut found = Items::new(alloc);
        let mut left = KEPT_STEPS;
        for number in 0..self.schema.constants.len() {
            let Some(kept) = self.kept(alloc, Body::Constant(number), left)? else {
                return Ok(found);
            };
            left = left.saturating_sub(kept.steps);
            found.push(kept)?;
        }
        Ok(found)
    }
}

impl<'a, D: Domain> Setting for World<'a, D> {
    ghost world = { λ w. w };

    fn schema(&self) -> &Schema {
        self.schema
    }

    fn instance(&self, at: usize) -> Option<Seen<'_>> {
        self.domain.instance(at)
    }

    fn extent(&self, alloc: Global, entity: usize) -> Result<Items<Value>, AllocError> {
        self.domain.extent(alloc, entity)
    }

    fn users(&self, alloc: Global, at: usize, role: &Role) -> Result<Items<Value>, AllocError> {
        self.domain.users(alloc, at, role)
    }

    fn type_names(&self, alloc: Global, value: &Value) -> Result<Value, AllocError> {
        self.names.of(alloc, self.domain, value)
    }

    fn constant(&self, number: usize) -> Option<&Kept> {
        self.constants.get(number)
    }
}
