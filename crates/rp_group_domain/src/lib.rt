//! The population of models that count in a group: its instances in their order, and as the rules of their schema see them.
#![tactic(auto)]

mod group;
mod lines;
mod models;
mod names;
mod places;
mod positions;
mod targets;

pub use group::domain_of;
pub use models::{CountedModel, PlacedInstance, population_of};
