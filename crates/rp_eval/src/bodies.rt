//! Bodies.

ghost use Rattle.std.specs.Prelude.{◌≡◌, Some, IfOk, IfSome, OnOk};
ghost use Rattle.std.specs.Option.{option_copied};
ghost use Rattle.rp_meaning.specs.Computations.{Runs, pure};
ghost use Rattle.rp_meaning.specs.Levels as level;
ghost use Rattle.rp_meaning.specs.Levels.{most_turns};
ghost use Rattle.rp_meaning.specs.Statements as spec;
ghost use Rattle.rp_value.specs.declared.value.Value.TheVariants as v;
ghost use Rattle.rp_eval_parts.specs.Charges.{followed};
ghost use Rattle.rp_eval_parts.specs.Serving.{Ready, derived_body};
ghost use Rattle.rp_eval.specs.Bodies.{RunsBodies, bodies_at};
ghost use Rattle.rp_eval.specs.Endings.{Ends, Leaves, after};

use crate::run::Run;
use crate::statements::Ending;
use crate::walk::Walk;
use ex_named::NamedDataType;
use plain_data::Items;
use rp_eval_parts::{Derived, Frame, Setting, derivation};
use rp_meaning::{Algorithm, Body, Derivation, Function, Given, Initial, Stop};
use rp_operators::given;
use rp_value::Value;
use std::alloc::{AllocError, Global};

impl<'a, W: Setting, B: Fn(Global, &W, u8, &mut Run<'_>, Body) -> Result<Value, Stop>> Walk<
    'a,
    W,
    B,
> {
    /// The value of an expression, by the type with which it is declared.
    fn given_value(
        &self,
        declared: &Given,
        frame: &mut Frame,
        run: &mut Run<'_>,
    ) -> Result<Value, Stop>
        requires below { RunsBodies W.world self.now.alloc self.now.world self.now.levels (B.pre self.now.below) (B.post self.now.below) }
        requires ready { Ready (W.world self.now.world.now) run.old.memory }
        ensures value { Runs (spec.given_value (W.world self.now.world.now) most_turns (bodies_at (W.world self.now.world.now) self.now.levels) declared.now frame.old run.old.counter) result run.new.counter }
        ensures frame { OnOk result (frame.new ≡ frame.old) }
        ensures ready { Ready (W.world self.now.world.now) run.new.memory }
    {
        let value = self.value(declared.value.instructions(), frame, run)?;
        Ok(given(
            self.alloc,
            self.world.schema().types.as_slice(),
            &declared.data_type,
            &value,
        )?)
    }

    /// Gives locals their initial value.
    fn initial(&self, initial: &Initial, frame: &mut Frame, run: &mut Run<'_>) -> Result<(), Stop>
        requires below { RunsBodies W.world self.now.alloc self.now.world self.now.levels (B.pre self.now.below) (B.post self.now.below) }
        requires ready { Ready (W.world self.now.world.now) run.old.memory }
        ensures value { Leaves ((followed (spec.given_value (W.world self.now.world.now) most_turns (bodies_at (W.world self.now.world.now) self.now.levels) initial.now.given frame.old) (λ a. pure (spec.all_assigned initial.now.slot initial.now.count a frame.old))) run.old.counter) result frame.new run.new.counter }
        ensures ready { Ready (W.world self.now.world.now) run.new.memory }
    {
        let value = self.given_value(&initial.given, frame, run)?;
        frame.assign_all(initial.slot, initial.count, &value)?;
        Ok(())
    }

    /// Gives all locals their initial values, in order.
    fn initials(
        &self,
        initials: &[Initial],
        frame: &mut Frame,
        run: &mut Run<'_>,
    ) -> Result<(), Stop>
        requires below { RunsBodies W.world self.now.alloc self.now.world self.now.levels (B.pre self.now.below) (B.post self.now.below) }
        requires ready { Ready (W.world self.now.world.now) run.old.memory }
        ensures value { Leaves (spec.initialized (W.world self.now.world.now) most_turns (bodies_at (W.world self.now.world.now) self.now.levels) initials.now frame.old run.old.counter) result frame.new run.new.counter }
        ensures ready { Ready (W.world self.now.world.now) run.new.memory }
    {
        for initial in initials {
            self.initial(initial, frame, run)?;
        }
        Ok(())
    }

    /// Initial values, and then statements.
    pub(crate) fn algorithm(
        &self,
        algorithm: &Algorithm,
        frame: &mut Frame,
        run: &mut Run<'_>,
        into: &mut Value,
    ) -> Result<Ending, Stop>
        requires below { RunsBodies W.world self.now.alloc self.now.world self.now.levels (B.pre self.now.below) (B.post self.now.below) }
        requires ready { Ready (W.world self.now.world.now) run.old.memory }
        ensures value { Ends (spec.algorithm (W.world self.now.world.now) most_turns (bodies_at (W.world self.now.world.now) self.now.levels) algorithm.now frame.old run.old.counter) result into.new frame.new run.new.counter }
        ensures ready { Ready (W.world self.now.world.now) run.new.memory }
    {
        self.initials(algorithm.initial.as_slice(), frame, run)?;
        self.statements(algorithm.statements.instructions(), frame, run, into)
    }

    /// The arguments of a function, by the types of its parameters.
    fn parameters(
        &self,
        data_types: &[NamedDataType],
        arguments: &[Value],
    ) -> Result<Items<Value>, AllocError>
        ensures { IfOk result (λ found. found ≡ level.parameters_given (W.world self.now.world.now) most_turns data_types.now arguments.now) }
    {
        let mut found = Items::new(self.alloc);
        for place in 0..data_types.len() {
            let Some(argument) = arguments.get(place) else {
                return Ok(found);
            };
            let types = self.world.schema().types.as_slice();
            found.push(given(self.alloc, types, &data_types[place], argument)?)?;
        }
        Ok(found)
    }

    /// What a function gives that ends so.
    fn result_by(
        &self,
        data_type: &NamedDataType,
        ending: Ending,
        value: &Value,
    ) -> Result<Value, AllocError>
        ensures { (s : _) → IfOk result (λ found. found ≡ level.result_by (W.world self.now.world.now) most_turns data_type.now (after ending value.now s)) }
    {
        match ending {
            Ending::Returned => {
                given(
                    self.alloc,
                    self.world.schema().types.as_slice(),
                    data_type,
                    value,
                )
            }
            _ => Ok(Value::Indet),
        }
    }

    /// What a function gives for arguments.
    fn function(
        &self,
        function: &Function,
        arguments: &[Value],
        run: &mut Run<'_>,
    ) -> Result<Value, Stop>
        requires below { RunsBodies W.world self.now.alloc self.now.world self.now.levels (B.pre self.now.below) (B.post self.now.below) }
        requires ready { Ready (W.world self.now.world.now) run.old.memory }
        ensures value { Runs (level.called (W.world self.now.world.now) most_turns (bodies_at (W.world self.now.world.now) self.now.levels) (Some function.now) arguments.now run.old.counter) result run.new.counter }
        ensures ready { Ready (W.world self.now.world.now) run.new.memory }
    {
        let parameters = self.parameters(function.parameters.as_slice(), arguments)?;
        let mut frame = Frame::of_locals(parameters, function.algorithm.locals)?;
        let mut value = Value::Indet;
        let ending = self.algorithm(&function.algorithm, &mut frame, run, &mut value)?;
        Ok(self.result_by(&function.result, ending, &value)?)
    }

    /// A value that is declared with an expression.
    fn given_by(
        &self,
        declared: Option<&Given>,
        itself: Value,
        run: &mut Run<'_>,
    ) -> Result<Value, Stop>
        requires below { RunsBodies W.world self.now.alloc self.now.world self.now.levels (B.pre self.now.below) (B.post self.now.below) }
        requires ready { Ready (W.world self.now.world.now) run.old.memory }
        ensures value { Runs (level.given_by (W.world self.now.world.now) most_turns (bodies_at (W.world self.now.world.now) self.now.levels) (option_copied declared.entry) itself run.old.counter) result run.new.counter }
        ensures ready { Ready (W.world self.now.world.now) run.new.memory }
    {
        let Some(declared) = declared else {
            return Ok(Value::Indet);
        };
        let mut frame = Frame::alone(self.alloc, itself);
        self.given_value(declared, &mut frame, run)
    }

    /// What a body gives, beneath which so many more may nest.
    fn body(&self, body: Body, run: &mut Run<'_>) -> Result<Value, Stop>
        requires below { RunsBodies W.world self.now.alloc self.now.world self.now.levels (B.pre self.now.below) (B.post self.now.below) }
        requires ready { Ready (W.world self.now.world.now) run.old.memory }
        ensures value { Runs (level.body_with (W.world self.now.world.now) most_turns (bodies_at (W.world self.now.world.now) self.now.levels) body run.old.counter) result run.new.counter }
        ensures ready { Ready (W.world self.now.world.now) run.new.memory }
    {
        match &body {
            Body::Derived(entity, place, instance) => self.given_by(
                derivation(self.world.schema(), *entity, *place),
                Value::Inst(*instance),
                run,
            ),
            Body::Constant(number) => {
                self.given_by(
                    self.world.schema().constants.get(*number),
                    Value::Indet,
                    run,
                )
            }
            Body::Function(number, arguments) => match self.world.schema().functions.get(*number) {
                Some(function) => self.function(function, arguments.as_slice(), run),
                None => Ok(Value::Indet),
            },
        }
    }
}

/// Which derived attribute a body gives.
fn derived_of(body: &Body) -> Option<Derived>
    ensures { IfSome result (λ of. body.now ≡ derived_body of) }
{
    match body {
        Body::Derived(entity, place, instance) => Some(Derived {
            derivation: Derivation {
                entity: *entity,
                place: *place,
            },
            instance: *instance,
        }),
        _ => None,
    }
}

/// A body, where so many bodies may nest, itself among them.
pub(crate) fn run_body<W: Setting>(
    alloc: Global,
    world: &W,
    levels: u8,
    run: &mut Run<'_>,
    body: Body,
) -> Result<Value, Stop>
    requires ready { Ready (W.world world.now) run.old.memory }
    ensures value { Runs (level.bodies (W.world world.now) levels body run.old.counter) result run.new.counter }
    ensures ready { Ready (W.world world.now) run.new.memory }
{
    if levels == 0 {
        return Err(Stop::Limit);
    }
    let walk = Walk {
        alloc,
        world,
        levels: levels - 1,
        below: run_body::<W>,
    };
    let of = derived_of(&body);
    let left = run.counter.left;
    let outer = run.counter.nesting;
    run.counter.nesting = 0;
    let value = walk.body(body, run)?;
    let bodies = run.counter.nesting + 1;
    run.keep(of, &value, left - run.counter.left, bodies);
    run.counter.nesting = outer.max(bodies);
    Ok(value)
}
