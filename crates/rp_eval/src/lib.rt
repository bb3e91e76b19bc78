//! The evaluation of rules over a population, by a walk over their instructions: the value and the steps that it took, or the limit.
#![tactic(auto)]

mod bodies;
mod expressions;
mod items;
mod laws;
mod rules;
mod run;
mod setting;
mod statements;
mod walk;

pub use laws::population_decides;
pub use rp_eval_parts::Memory;
pub use rules::{eval, eval_with};
pub use setting::World;
