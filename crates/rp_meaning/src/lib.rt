//! What rules of EXPRESS mean over a population: definitions and their laws.
#![tactic(auto)]

mod body;
mod compiled;
mod counter;
mod domain;
mod laws;
mod outcome;
mod report;
mod rule;
mod schema;
mod stop;

pub use body::Body;
pub use compiled::compiled_as_typed;
pub use counter::Counter;
pub use domain::{Domain, ReadValue, Seen};
pub use laws::{
    a_limit_is_of_steps, kept_values_serve, limits_only_cut, outcomes_are_of_steps_and_bodies,
    steps_are_bounded,
};
pub use outcome::Outcome;
pub use report::{Check, Constraint, Culprit, Report, Verdict};
pub use rp_code::{
    CaseAction, Code, Control, Expression, Increment, Instruction, Interval, NamedRole, Operation,
    Qualifier, Query, Role, Routine, Statement,
};
pub use rule::Rule;
pub use schema::{
    Algorithm, DefinedType, Derivation, Entity, Explicit, ExplicitAttribute, Function, Given,
    GlobalRule, Initial, Inverse, Redeclaration, Schema, Underlying,
};
pub use stop::Stop;
