//! What is told of a validation: a report with the names of rules and the places of culprits, by the rules of a repository's
//! schemas.
#![tactic(auto)]

mod attributes;
mod checks;
mod culprits;
mod ruled_schema;
mod rules;
mod schema_rules;
mod validation;

pub use schema_rules::SchemaRules;
