//! Which sets of entities an instance may have (ISO 10303-11:1994, 9.2.4 and annex B).
#![tactic(auto)]

mod build;
mod choices;
mod constraints;
mod entity_set;
mod expressions;
mod family;
mod graph;
mod legal;
mod nodes;
mod places;
mod sets;
mod walks;

pub use build::{SubtypeFault, SubtypeFaultKind};
pub use entity_set::EntitySet;
pub use expressions::Constraints;
pub use legal::Illegal;
