//! Ancestors, cycles, and the order of supertypes.
//!
//! The members of a graph are numbered, and the graph has a list for each: the numbers of its direct
//! supertypes, in their order. A number beyond the graph has no supertypes. A list may name one
//! twice, and the graph may have cycles.
#![tactic(auto)]

mod below;
mod cycles;
mod order;
mod placed;
mod reached;
mod rings;
mod steps;
mod walks;

pub use below::subtypes;
pub use cycles::cyclic_marks;
pub use order::line;
pub use reached::{all_above, ancestors, family, is_in};
pub use rings::{are_certain, trace_of};
pub use steps::supertypes;
pub use walks::{NONE, Trace, traces};
