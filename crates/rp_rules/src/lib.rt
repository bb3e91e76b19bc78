//! The checks of a population by the rules of a schema, in their order and within the steps that a validation may use.
#![tactic(auto)]

mod buckets;
mod choices;
mod conditions;
mod culprits;
mod declared;
mod ended;
mod laws;
mod layouts;
mod order;
mod plan;
mod report;
mod rows;
mod rules;
mod tried;
mod types;
mod unique;
mod used;
mod validation;
mod verdicts;

pub use laws::population_decides;
pub use report::validate;
