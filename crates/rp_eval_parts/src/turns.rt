//! What governs the turns of a REPEAT.

ghost use Rattle.std.specs.Prelude.{◌≡◌};
ghost use Rattle.rp_meaning.specs.Statements as spec;
ghost use Rattle.rp_eval_parts.specs.Counts as counts;
ghost use Rattle.rp_eval_parts.specs.Turns.{Starts};

use crate::frame::Frame;
use rp_operators::integer_of;
use rp_value::Value;
use std::marker::Model;

/// An increment before a turn: the value of its variable, none once it leaves 64 bits, its last value and its step.
#[derive(Drop)]
pub struct Running {
    at: Option<i64>,
    last: i64,
    step: i64,
}

impl Model for Running {
    ghost use Rattle.rp_meaning.specs.Statements as statements;
    ghost use Rattle.rp_eval_parts.specs.Counts.{integer_or};
    ghost use Rattle.std.specs.Coded.{codes};
    ghost use Rattle.rp_value.specs.contracts.value.Value as value;

    ghost Value = { statements.Running };

    ghost view = { λ r. record { at = integer_or r.at; last = r.last; step = r.step } };

    ghost coded = { Prim.hlevel (codes, value.the_row.coded) };
}

/// Whether a variable has passed the last value.
fn is_past_at(at: Option<i64>, last: i64, step: i64) -> bool
    ensures { result ≡ spec.is_past_at at last step }
{
    match at {
        None => true,
        Some(at) if 0 < step => last < at,
        Some(at) => at < last,
    }
}

fn is_past(running: &Running) -> bool
    ensures { result ≡ spec.is_past running.now }
{
    is_past_at(running.at, running.last, running.step)
}

/// An increment before its first turn, if there is one.
pub fn begun(first: &Value, last: &Value, step: &Value) -> Option<Running>
    ensures { result ≡ spec.running first.now last.now step.now }
{
    match (integer_of(first), integer_of(last), integer_of(step)) {
        (Some(first), Some(last), Some(step)) if 0 < step || step < 0 => Some(Running {
            at: Some(first),
            last,
            step,
        }),
        _ => None,
    }
}

/// A sum; none out of 64 bits.
fn sum(at: Option<i64>, step: i64) -> Option<i64>
    ensures { counts.integer_or result ≡ counts.sum_or at step }
{
    let sum = i128::from(at?) + i128::from(step);
    if -0x8000_0000_0000_0000 <= sum && sum < 0x8000_0000_0000_0000 {
        Some(sum as i64)
    } else {
        None
    }
}

/// The same before the next turn.
fn advanced_by(running: Running) -> Running
    ensures { result ≡ spec.advanced_by running }
{
    Running {
        at: sum(running.at, running.step),
        last: running.last,
        step: running.step,
    }
}

/// The same before the next turn.
pub fn advanced(running: Option<Running>) -> Option<Running>
    ensures { result ≡ spec.advanced running }
{
    match running {
        None => None,
        Some(running) => Some(advanced_by(running)),
    }
}

/// Whether a turn follows; its variable then has its value.
pub fn start(running: &Option<Running>, frame: &mut Frame) -> bool
    ensures { Starts (spec.started running.now frame.old) result frame.old frame.new }
{
    let Some(running) = running else {
        return true;
    };
    if is_past(running) {
        return false;
    }
    frame.assign_last(match running.at {
        Some(at) => Value::Int(at),
        None => Value::Indet,
    });
    true
}
