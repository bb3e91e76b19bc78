//! Steps that are taken.

ghost use Rattle.std.specs.Prelude.{◌≡◌, slice_index_or};
ghost use Rattle.rp_meaning.specs.Computations as computations;
ghost use Rattle.rp_meaning.specs.Computations.{Runs, pure};
ghost use Rattle.rp_eval_parts.specs.Charges.{charged};
ghost use Rattle.rp_eval_parts.specs.Written.{RunsInto};
ghost use Rattle.rp_meaning.specs.BuiltIns as built_ins;
ghost use Rattle.rp_meaning.specs.Laws as laws;
ghost use Rattle.rp_meaning.specs.Operators as operators;
ghost use Rattle.rp_value.specs.declared.value.Value.TheVariants as v;

use crate::copies::copied;
use crate::frame::Frame;
use crate::kept::Kept;
use ex_tree::BinaryOperator;
use rp_meaning::{Counter, Stop};
use rp_operators::{cost, interval_cost, size};
use rp_value::Value;

/// Takes so many steps of those that are left.
pub fn charge(counter: &mut Counter, steps: usize) -> Result<(), Stop>
    ensures { Runs (computations.steps steps counter.old) result counter.new }
{
    if counter.left < steps {
        return Err(Stop::Limit);
    }
    counter.left -= steps;
    Ok(())
}

/// Takes what an operator costs on two values: nothing on two whole numbers.
pub fn charge_operator(
    counter: &mut Counter,
    operator: BinaryOperator,
    left: &Value,
    right: &Value,
) -> Result<(), Stop>
    ensures { Runs (computations.steps (operators.cost operator left.now right.now) counter.old) result counter.new }
{
    match (left, right) {
        (Value::Int(_), Value::Int(_)) => Ok(()),
        _ => match cost(counter.left, operator, left, right) {
            None => Err(Stop::Limit),
            Some(steps) => charge(counter, steps),
        },
    }
}

/// Takes what an interval costs.
pub fn charge_interval(
    counter: &mut Counter,
    low: &Value,
    item: &Value,
    high: &Value,
) -> Result<(), Stop>
    ensures { Runs (computations.steps (operators.interval_cost low.now item.now high.now) counter.old) result counter.new }
{
    match interval_cost(counter.left, low, item, high) {
        None => Err(Stop::Limit),
        Some(steps) => charge(counter, steps),
    }
}

/// Takes what an initialiser costs that gives this value.
pub fn charge_initializer(counter: &mut Counter, value: &Value) -> Result<(), Stop>
    ensures { Runs (computations.steps (built_ins.size value.now) counter.old) result counter.new }
{
    match size(counter.left, value) {
        None => Err(Stop::Limit),
        Some(steps) => charge(counter, steps),
    }
}

/// A value that is there, for a step.
#[inline(never)]
pub fn known(value: &Value, counter: &mut Counter, into: &mut Value) -> Result<(), Stop>
    ensures { RunsInto (charged 1 (pure value.now) counter.old) result into.new counter.new }
{
    charge(counter, 1)?;
    *into = copied(value)?;
    Ok(())
}

/// The variable of a slot, for a step.
#[inline(never)]
pub fn variable(
    frame: &Frame,
    slot: usize,
    counter: &mut Counter,
    into: &mut Value,
) -> Result<(), Stop>
    ensures { RunsInto (charged 1 (pure (slice_index_or frame.now.variables slot v.Indet)) counter.old) result into.new counter.new }
{
    charge(counter, 1)?;
    *into = frame.variable(slot)?;
    Ok(())
}

/// A value that is kept, where so many bodies may nest, for the steps that it took.
pub fn serve(kept: &Kept, levels: u8, counter: &mut Counter, into: &mut Value) -> Result<(), Stop>
    ensures { RunsInto (laws.kept kept.now.steps kept.now.bodies kept.now.value levels counter.old) result into.new counter.new }
{
    if counter.left < kept.steps || (levels as usize) < kept.bodies {
        return Err(Stop::Limit);
    }
    counter.left -= kept.steps;
    counter.nesting = counter.nesting.max(kept.bodies);
    *into = copied(&kept.value)?;
    Ok(())
}
