//! How evaluations end.

ghost use Rattle.std.specs.Prelude.{◌≡◌};
ghost use Rattle.rp_meaning.specs.Operators.{truth_in};
ghost use Rattle.rp_meaning.specs.Sequence as spec;
ghost use Rattle.rp_operations.specs.Seen.{seen};
ghost use Rattle.rp_rules.specs.Endings.{ended_behind, steps_in};

use crate::used::MOST_STEPS;
use rp_meaning::{Outcome, Verdict};
use rp_value::{Logical, Value};

/// How an evaluation ends.
pub(crate) enum Ended {
    Begun(Outcome),
    /// It was not begun.
    NotRun,
}

impl Drop for Ended {
    fn drop(self) {
        match self {
            Ended::Begun(outcome) => drop(outcome),
            Ended::NotRun => {}
        }
    }
}

/// The steps that an evaluation counts: at the limit as many as it may take.
pub(crate) fn steps_of(outcome: &Outcome) -> usize
    ensures { result ≡ steps_in outcome.now }
{
    match outcome {
        Outcome::Value(_, steps) => *steps,
        Outcome::Limit => MOST_STEPS,
    }
}

fn of_truth(truth: Logical) -> Verdict
    ensures { result ≡ spec.by_truth (Some truth) }
{
    match truth {
        Logical::True => Verdict::True,
        Logical::False => Verdict::False,
        Logical::Unknown => Verdict::Unknown,
    }
}

/// What is said of a condition by its value: TRUE and FALSE, and else nothing.
#[tactic(auto, using(rp_operators::proofs::Sights::bares))]
fn said_by(value: &Value) -> Verdict
    ensures { result ≡ spec.by_truth (truth_in (seen value.now)) }
{
    match value {
        Value::Log(truth) => of_truth(*truth),
        Value::Named {
            defined_type: _,
            value,
        } => said_by(value.get()),
        Value::Indet => Verdict::Unknown,
        Value::Int(_) => Verdict::Unknown,
        Value::Dec(_) => Verdict::Unknown,
        Value::Str(_) => Verdict::Unknown,
        Value::Bin(_) => Verdict::Unknown,
        Value::Item {
            enumeration: _,
            place: _,
        } => Verdict::Unknown,
        Value::Inst(_) => Verdict::Unknown,
        Value::Agg {
            kind: _,
            elements: _,
        } => Verdict::Unknown,
    }
}

/// What is said of a condition that ended so.
pub(crate) fn verdict_of(ended: &Ended) -> Verdict
    ensures { result ≡ spec.verdict_of (ended_behind ended.now) }
{
    match ended {
        Ended::Begun(Outcome::Value(value, _)) => said_by(value),
        Ended::Begun(Outcome::Limit) => Verdict::Limit,
        Ended::NotRun => Verdict::NotRun,
    }
}
