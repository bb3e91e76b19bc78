//! Who stands above whom, asked often: a member of a graph together with its ancestors.
//!
//! The members of a graph are numbered, and the graph has a list for each: the numbers of its direct
//! supertypes. A list may name one twice, and the graph may have cycles.
#![tactic(auto)]

mod descents;
mod families;
mod tested;
mod told;
mod trees;
mod walks;
mod ways;

pub use descents::Descent;
pub use families::Family;
